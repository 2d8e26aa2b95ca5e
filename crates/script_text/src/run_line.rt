//! What a line of a script that is run asks for.
use crate::asked::ScriptStep;

/// What a line of a script that is run asks for.
#[derive(Drop)]
pub enum RunLine {
    /// What a line of any script can ask for.
    Asked(ScriptStep),
    /// That all that waits is carried and handled.
    Settle,
}
