//! The log of a bench: every step that was taken, with what it carried and which machine it moved.
//!
//! Contracts see the plain list of entries. Memory holds less: a move's registers, facts and arguments are kept small
//! (`tab_kept`); an item stands once, and copies share it.
//!
//! | File | What it has |
//! |---|---|
//! | `state` | where a machine stands, kept so; copies of keys |
//! | `item` | an item that is kept |
//! | `step` | a step that is kept |
//! | `moved` | a move of a machine that is kept |
//! | `entry` | an entry that is kept |
//! | `log` | the log |
#![tactic(auto)]

mod entry;
mod item;
mod log;
mod moved;
mod state;
mod step;

pub use entry::{KeptEntry, KeptHandled};
pub use item::{KeptItem, KeptMachineItem};
pub use log::{Log, LogError};
pub use moved::KeptMoved;
pub use state::KeptState;
