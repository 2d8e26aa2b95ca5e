//! An input at a terminal: a prompt before each line, and an empty line is a command once more.
//!
//! | File | What it has |
//! |---|---|
//! | `again` | which commands an empty line repeats |
//! | `prompted` | an input whose empty lines are these commands |
#![tactic(auto)]

mod again;
mod prompted;

pub use prompted::Prompted;
