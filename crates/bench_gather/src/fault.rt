//! Why no world is gathered.

ghost use Rattle.std.specs.Prelude.{◌≡◌};
ghost use Rattle.bench_gather.specs.declared.fault.GatherFault.TheVariants as faults;

use std::alloc::AllocError;
use thiserror::Error;

/// Why no world was gathered. What was handed in is then as it was.
#[derive(Clone, Copy, Debug, PartialEq, Eq, Error)]
pub enum GatherFault {
    /// The parts have more entries than a log may.
    #[error("the parts have more entries than a log may")]
    Full,
    /// The parts are of no legal log: so many of their entries are, and no more.
    #[error("the parts disagree at entry {0}")]
    Disagree(usize),
    /// Memory was refused.
    #[error("out of memory")]
    NoMemory,
}

impl From<AllocError> for GatherFault {
    ghost from_gives = { λ _ e. e ≡ faults.NoMemory };

    fn from(_e: AllocError) -> GatherFault {
        GatherFault::NoMemory
    }
}
