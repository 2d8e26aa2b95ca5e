//! The words on the command line, and what they ask for.
//!
//! | File | What it does |
//! |---|---|
//! | `texts` | help and usage |
//! | `commands` | the words that are understood, for `clap` |
//! | `debug` | the words of `debug`: understood, help and usage |
//! | `live` | those of `live` |
//! | `words` | what given words ask for |
#![tactic(auto)]

mod commands;
mod debug;
mod live;
mod texts;
mod words;

pub use words::{Invocation, NoWords, Task, WordsError, given_words, parse_words};
