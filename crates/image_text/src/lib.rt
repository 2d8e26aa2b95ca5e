//! Images of tables as text: a table's text assembled, and told in hexadecimal; an image read from hexadecimal, and
//! listed in words.
//!
//! | Module | What it has |
//! |---|---|
//! | `assembled` | a table's image in hexadecimal |
//! | `reading` | an image read from hexadecimal |
//! | `listing`, `listed` | a program in words; an image's text listed |
#![tactic(auto)]

mod assembled;
mod listed;
mod listing;
mod reading;

pub use assembled::assemble_on;
pub use listed::list_on;
pub use reading::{ImageError, read_image, refusal_text};
