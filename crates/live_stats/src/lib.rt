//! What an operator is told each second of a node that lives: counts over the entries of its log, in bounded memory.
//!
//! | File | What it has |
//! |---|---|
//! | `seen` | what an entry says of connections, messages and machines |
//! | `flow` | requests of one direction, their answers, and the times between |
//! | `stats` | all that is counted, entry by entry |
//! | `log` | the entries of a log, counted |
//! | `line` | the text of a line |
#![tactic(auto)]

mod flow;
mod line;
mod log;
mod seen;
mod stats;

pub use flow::{CODES, MAX_UNANSWERED};
pub use stats::{Stats, Sums};
