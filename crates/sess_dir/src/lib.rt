//! Names with the places at which they were added: the sessions of a shard, the machines of a node.
#![tactic(auto)]

mod directory;

pub use directory::{Directory, MAX_NAMES};
