//! Benches that are played by lines of a transcript: what test programs share.
//!
//! | File | What it has |
//! |---|---|
//! | `play` | what each line does |
//! | `looks` | what a bench shows, as text |
//! | `refusing` | steps that are refused where a bench stands |
//! | `words` | octets of messages by words |
#![tactic(auto)]

mod looks;
mod play;
mod refusing;
mod words;

pub use looks::{log_of, number_in};
pub use play::{Play, all_of, step_of};
pub use words::joined;
