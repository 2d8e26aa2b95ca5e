//! Messages as text: what is printed of a message or its fault, and of an input of hexadecimal digits.
#![tactic(auto)]

mod explaining;
mod json;
mod line_ends;
mod plain;
mod read;
mod room;
mod show;

pub use explaining::Explaining;
pub use json::Json;
pub use msg_input::{End, EndWords, Place, Printer, Refusal, Report, Style};
pub use plain::Plain;
pub use read::{read_lines, read_on};
pub use show::{put_fault, put_message};
