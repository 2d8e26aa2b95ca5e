//! A run of the program: from words, an input and an output to a status.
//!
//! | File | What it does |
//! |---|---|
//! | `run` | what the words ask for, done |
//! | `walk` | the runs of `walk`, over callbacks that are made here |
//! | `draw` | the runs of `draw` |
//! | `asm` | the runs of `asm` |
//! | `list` | the runs of `list` |
//! | `logged` | the runs of `run --nodes --log`, which write files |
//! | `watched` | the runs of `run --quiet`, of which somebody is told how far they are |
#![tactic(auto)]

mod asm;
mod draw;
mod list;
mod logged;
mod run;
mod walk;
mod watched;

pub use logged::{LogWords, log_words, run_logged};
pub use run::{main_on, tell_no_words};
pub use watched::{QuietWords, quiet_words, run_quietly};
