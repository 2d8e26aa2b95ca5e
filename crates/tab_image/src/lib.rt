//! Programs: one built of a table, and one event run by it.
//!
//! A table is assembled to an image (`tab_asm`), and an image is loaded to a program (`tab_load`). [`run_event_into`]
//! finds the entry of the machine's state and of the event's kind, walks through the code from there, asking guards, to
//! its end, and runs the actions of the row that it ends by. The definitions stand in `specs/`.
#![tactic(auto)]

mod building;
mod entry;
mod running;
mod walk;

pub use building::build;
pub use running::{run_event, run_event_into};
