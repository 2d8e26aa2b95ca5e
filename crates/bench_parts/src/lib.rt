//! The parts of a bench that ran in threads, put side by side in the order of their stamps.
//!
//! | File | What it has |
//! |---|---|
//! | `view` | a part as it is lent: entries with stamps, or what a desk kept |
//! | `find` | the entry at a place of a part |
//! | `stamps` | the stamps of parts |
//! | `count` | whether parts have more entries than a log may |
//! | `own` | whether each entry stands in its own part |
#![tactic(auto)]

mod count;
mod find;
mod own;
mod stamps;
mod view;

pub use count::is_past;
pub use find::{Brief, brief_of, entry_of, is_still, step_of};
pub use own::is_of;
pub use stamps::stamps_of;
pub use view::{KeptLook, Lent, Note};
