//! Registers, events and deeds in as little room as they need.
//!
//! A contract sees all 64 numbers. Of these in memory zeros at the end take no room, and the numbers before them as few
//! octets as they need.
//!
//! | File | What it has |
//! |---|---|
//! | `code` | numbers in as few octets as they need |
//! | `places` | the numbers of 64 places, kept so |
//! | `kept` | events and deeds, kept so |
#![tactic(auto)]

mod code;
mod kept;
mod places;

pub use kept::{KeptDeed, KeptEvent};
pub use places::Places;
