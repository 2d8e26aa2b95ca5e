//! The commands of a debugger, read, and its replies, printed.
//!
//! | File | What it has |
//! |---|---|
//! | `command` | commands, breakpoints, and why a command is refused |
//! | `book` | the laws and the tables that commands speak of |
//! | `verb` | the first word of a command |
//! | `words` | the parts of commands: numbers, keys, rows, registers |
//! | `breaks` | breakpoints, read |
//! | `read` | a command, read |
//! | `reply` | replies |
//! | `write` | replies and faults, printed |
#![tactic(auto)]

mod book;
mod breaks;
mod command;
mod read;
mod reply;
mod verb;
mod words;
mod write;

pub use book::TableBook;
pub use command::{Breakpoint, Command, CommandFault};
pub use read::read_command;
pub use reply::Reply;
pub use write::{HELP, put_fault, put_reply};
