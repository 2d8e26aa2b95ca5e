//! A node that lives in one thread: its turns, and what an operator is told of them each second.
//!
//! | File | What it has |
//! |---|---|
//! | `turns` | a node with its sockets, and its turns: timers, desks, sockets |
//! | `watch` | what an operator is told each second |
#![tactic(auto)]

mod turns;
mod watch;

pub use turns::{Lived, Living, WAIT, live_in_turns, micros_since, registry_count};
pub use watch::{SECOND, Watch};
