//! Items are carried between the parts of a bench, and each step is taken back on them.
//!
//! | File | What it has |
//! |---|---|
//! | `lift` | the oldest item that waits at a source is lifted |
//! | `hand` | the item in the hand of a source, and whether there is room where it is for |
//! | `arrive` | an item comes where it is for |
//! | `drop` | the item in the hand of a source is dropped where it is for |
//! | `back` | a step is taken back |
//! | `same` | whether two items are one |
#![tactic(auto)]

mod arrive;
mod back;
mod drop;
mod hand;
mod lift;
mod same;

pub use back::undo_at;
pub use drop::drop_at;
pub use hand::{hand_copy, hand_item, hand_kept, hand_lacks_room, has_hand};
pub use lift::{lift_at, next_item};
pub use same::{are_items_same, are_machine_items_same};
