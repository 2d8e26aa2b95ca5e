//! The steps of the bench as lines of a script, printed and read.
//!
//! | File | What it has |
//! |---|---|
//! | `machines` | which machine has which number |
//! | `command` | the first word of a line |
//! | `name` | names as words |
//! | `write` | a step as its line |
//! | `words` | numbers and names from words |
//! | `shown` | a step whose names and octets are parts of a line |
//! | `guess` | the one step that a line can be |
//! | `matcher` | a text that is compared with what would be printed |
//! | `compare` | a line that is compared with that of a step |
//! | `read` | a line as its step |
#![tactic(auto)]

mod command;
mod compare;
mod guess;
mod machines;
mod matcher;
mod name;
mod read;
mod shown;
mod words;
mod write;

pub use compare::{compare_key, compare_kind};
pub use guess::next_kind;
pub use machines::Machines;
pub use matcher::Matcher;
pub use name::is_plain;
pub use read::{StepTextError, find_step, read_step};
pub use shown::{ShownKey, ShownStep};
pub use words::{next_key, next_number};
pub use write::{put_key, put_kind, write_step};
