//! `run`: a bench opened by what files say, and a script run on it.
//!
//! | File | What it has |
//! |---|---|
//! | `shown` | what is printed of a run |
//! | `opening` | a bench opened with callbacks of all roles, a script run on it, and that told |
//! | `running` | all of that, from the names of files to a status |
//! | `nodes` | the same on all nodes of a CONFIG |
//! | `logged` | that, and their logs written to files |
#![tactic(auto)]

mod logged;
mod nodes;
mod opening;
mod running;
mod shown;

pub use logged::{run_logged_nodes, run_logged_on};
pub use nodes::{run_all_nodes, run_nodes_on};
pub use opening::{bad_line, run_on};
pub use running::{run, run_watched, tell_sample};
pub use shown::Shown;
