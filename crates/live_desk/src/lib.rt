//! A desk of a live bench: texts that it tells in order, and when the time of each has come.
//!
//! | File | What it has |
//! |---|---|
//! | `stands` | what a desk sees of a bench |
//! | `texts` | what a text tells, read |
//! | `desk` | which text is the next, and whether its time has come |
//! | `keys` | by which machines that is known |
#![tactic(auto)]

mod desk;
mod keys;
mod stands;
mod texts;

pub use bench_core::{Core, ReplayError};
pub use desk::Desk;
pub use stands::Stands;
pub use texts::{DeskError, DeskText};
