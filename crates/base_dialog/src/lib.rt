//! An input that is answered line by line, as it comes.
//!
//! | File | What it has |
//! |---|---|
//! | `lines` | the lines of an input that comes piece by piece |
//! | `answerer` | what answers lines |
//! | `dialog` | an answerer, and the line that is begun |
//! | `pour` | each piece read, answered, and the answers written out |
//! | `input` | all of that for a file or for standard input, to a status |
#![tactic(auto)]

mod answerer;
mod dialog;
mod input;
mod lines;
mod pour;

pub use answerer::{Answered, Answerer};
pub use input::answer_input;
