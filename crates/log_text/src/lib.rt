//! The log of the bench as text, printed and read: the line of each step, and below a `work` what became of the item.
//!
//! | File | What it has |
//! |---|---|
//! | `book` | the names of kinds, machines and states |
//! | `deeds` | the lines of deeds, with what the account book made of them |
//! | `entries` | the lines of entries |
//! | `item` | an item as its line tells it |
//! | `item_line` | what the line of an item tells |
//! | `deed_line` | what the line of a deed tells |
//! | `compare` | a line that is compared with that of an item or a deed |
//! | `end` | how the log of the lines so far ends, and what the next line tells there |
//! | `pending` | the entries that lines tell so far |
//! | `reader` | one line more |
//! | `read` | the log of a text |
#![tactic(auto)]

mod book;
mod compare;
mod deed_line;
mod deeds;
mod end;
mod entries;
mod item;
mod item_line;
mod pending;
mod read;
mod reader;

pub use book::NameBook;
pub use entries::{put_entries, put_entry};
pub use read::read_log;
