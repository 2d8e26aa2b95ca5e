//! What tests of benches in threads share: a gate that holds workers, nodes in few words, and parts that are gathered.
//!
//! | File | What it has |
//! |---|---|
//! | `gate` | a gate that holds workers, and counts what they handle |
//! | `node` | nodes, machines and events in few words |
//! | `gathered` | the world of the parts of a bench, and what its log says |
#![tactic(auto)]

mod gate;
mod gathered;
mod node;

pub use gate::{Held, Hold};
pub use gathered::{count_handled, has_told, world_of};
pub use node::{LOOKS, begin_of, config, event_of, key_of, right, state_named};
