//! The text of a state machine's table, printed in columns.
#![tactic(auto)]

mod cell;
mod column;
mod printing;

pub use printing::{print, print_row};
