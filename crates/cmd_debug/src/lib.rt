//! `debug`: a debugger on a bench that files say, whose commands are read line by line and replied to.
//!
//! | File | What it has |
//! |---|---|
//! | `opening` | a debugger on a bench that is opened with callbacks of all roles, or why there is none |
//! | `session` | lines as commands of a debugger, done in order, and what is printed of each |
//! | `commands` | the commands of a file or of standard input, done on the bench of a configuration |
//! | `debugging` | all of that, from the names of files to a status |
#![tactic(auto)]

mod commands;
mod debugging;
mod opening;
mod session;

pub use commands::debug_on;
pub use debugging::debug;
