//! How the steps of a bench are taken back: one record a step, last first.
//!
//! | File | What it has |
//! |---|---|
//! | `undo` | what a step changed |
//! | `log` | the records of all steps, in order |
#![tactic(auto)]

mod log;
mod undo;

pub use log::UndoLog;
pub use undo::{Arrival, Undo};
