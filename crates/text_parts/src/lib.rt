//! A text taken apart: its pieces, its lines, the words of a line, and the front of a list.
#![tactic(auto)]

mod front;
mod lines;
mod pieces;
mod spelling;

pub use front::Front;
pub use lines::{Lines, TextLine};
pub use pieces::{Found, Pieces, Words};
pub use spelling::{is_more, is_plain, is_row_line, is_skipped, trimmed, trimmed_front};
