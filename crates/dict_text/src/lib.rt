//! The text of a dictionary: a line for each AVP that it adds, `CODE[/VENDOR] NAME KIND [VALUE=NAME ..]`.
//!
//! | File | What it does |
//! |---|---|
//! | `words` | the numbers, the type and the names that words are |
//! | `entries` | what a line says, or the first of its words that is wrong |
//! | `read` | the glossary of a text, or its first wrong line |
//! | `told` | what is told of a wrong line |
#![tactic(auto)]

mod entries;
mod read;
mod told;
mod words;
mod wrong;

pub use read::{DictError, read_dictionary};
pub use told::wrong_text;
pub use wrong::{Want, WrongLine};
