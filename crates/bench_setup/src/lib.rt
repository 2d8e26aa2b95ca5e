//! What a bench is opened with: CONFIG and the files that it names, read,
//! and callbacks that answer by the laws of all roles.
//!
//! | File | What it has |
//! |---|---|
//! | `halt` | what stands in the way before a bench is opened |
//! | `definitions` | what a dictionary adds, in one of its own |
//! | `inputs` | the files of a node |
//! | `setups` | a node of a CONFIG, and what its bench is opened with |
//! | `opening` | why a bench is not opened |
//! | `calls` | registries of callbacks, made for what is done with them |
#![tactic(auto)]

mod calls;
mod definitions;
mod halt;
mod inputs;
mod opening;
mod setups;

pub use calls::{WithCalls, with_calls};
pub use halt::{Halt, tell_halt};
pub use inputs::{read_beside, read_named};
pub use opening::{opening_text, opening_text_at, unbound_at};
pub use setups::{MAX_NODES, Setup, read_first, read_nodes};
