//! The debugger of a bench: a bench, a script, and breakpoints.
//!
//! | File | What it has |
//! |---|---|
//! | `books` | the laws and the tables of a bench |
//! | `copying` | the step that a script asks for next, or why it is refused |
//! | `meets` | which breakpoint an entry meets |
//! | `debugger` | a debugger: its bench, its place in the script, one step and back |
//! | `going` | many steps: up to a breakpoint or a place, and back |
//! | `breaks` | breakpoints set and cleared |
//! | `command` | a command, done |
#![tactic(auto)]

mod books;
mod breaks;
mod command;
mod copying;
mod debugger;
mod going;
mod meets;

pub use books::tables_in;
pub use debugger::{Debugger, Progress, SetBreakpoint};
