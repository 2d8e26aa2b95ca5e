//! How far a run is, on a line of a terminal.
//!
//! | File | What it has |
//! |---|---|
//! | `progress` | who is told how far a run is |
//! | `line` | a line at a terminal that shows it |
#![tactic(auto)]

mod line;
mod progress;

pub use line::ProgressLine;
pub use progress::{Progress, Unwatched};
