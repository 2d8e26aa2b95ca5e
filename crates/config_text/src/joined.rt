//! Several readings, of which the first fault counts, and want of memory last.
ghost use Rattle.std.specs.Prelude.{Result};
ghost use Rattle.config_text.specs.Answers.{Answers, both};
ghost use Rattle.config_text.specs.declared.fault.Fault as fault;

use crate::fault::ConfigError;

/// Both values, or the first fault.
pub(crate) fn joined<A: Drop, B: Drop>(
    first: Result<A, ConfigError>,
    second: Result<B, ConfigError>,
) -> Result<(A, B), ConfigError>
    ensures { (x : Result A fault.Fault) (y : Result B fault.Fault)
        → Answers first x → Answers second y → Answers result (both x y) }
{
    match (first, second) {
        (Ok(a), Ok(b)) => Ok((a, b)),
        (Ok(_), Err(e)) => Err(e),
        (Err(ConfigError::NoMemory), Err(e)) => Err(e),
        (Err(e), _) => Err(e),
    }
}
