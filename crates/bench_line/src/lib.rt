//! The connections of a node, numbered from 1 in order of opening: their octets cut into messages, what they put out
//! and send. What messages mean is a parameter, `Hears` of `bench_item`.
//!
//! | File | What it has |
//! |---|---|
//! | `lines` | `Lines`: all connections, their opening, and how they are seen |
//! | `calls` | what happens to connections |
//! | `places` | where one is kept, and why a call is refused |
//! | `back`, `change` | calls are taken back |
//! | `line` | one connection: how it is kept, and how it is seen |
//! | `hearing` | what happens to one connection |
//! | `round` | what the messages of one piece come to, before any of it is kept |
//! | `limit` | the longest message |
#![tactic(auto)]

mod back;
mod calls;
mod change;
mod hearing;
mod limit;
mod line;
mod lines;
mod places;
mod round;

pub use bench_item::{Hears, Item, LineItem, LineState, MAX_LINES, MAX_WAITING, Opening};
pub use calls::{Came, Posted};
pub use change::Change;
pub use dia_frame::FrameFault;
pub use limit::MAX_MESSAGE;
pub use line::{Before, FramerBefore};
pub use lines::Lines;
