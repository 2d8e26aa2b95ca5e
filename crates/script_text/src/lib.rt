//! Scripts of the bench: what each line asks for, as `step_text` prints steps.
//! Empty lines, and lines that begin with a blank, are skipped, so that a printed log may be pasted as a script.
//!
//! | File | What it has |
//! |---|---|
//! | `asked` | what a line asks for |
//! | `keys` | the keys of machines |
//! | `words` | the parts of lines: numbers, octets, sources |
//! | `lines` | what a line asks for, read |
//! | `script` | all lines of a script |
//! | `run_line`, `run_script` | the same of a script that is run: a line may be `settle` |
#![tactic(auto)]

mod asked;
mod keys;
mod lines;
mod run_line;
mod run_script;
mod script;
mod words;

pub use asked::{NO_KIND, ScriptStep};
pub use keys::read_key;
pub use lines::read_line;
pub use run_line::RunLine;
pub use run_script::read_run_script;
pub use script::read_script;
