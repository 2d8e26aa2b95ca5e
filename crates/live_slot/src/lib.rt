//! What lies behind the locks of a bench in threads, and the item in a thread's hand; no lock is taken here.
//!
//! | File | What it has |
//! |---|---|
//! | `turn` | what came of a turn; stamps |
//! | `hand` | an item that was lifted |
//! | `clock` | the timers' part: fired, lifted from, said to |
#![tactic(auto)]

mod clock;
mod hand;
mod turn;

pub use clock::ClockSlot;
pub use hand::Hand;
pub use turn::{Turn, draw};
