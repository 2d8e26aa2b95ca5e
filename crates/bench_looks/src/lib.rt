//! Whether the looks that desks kept are right, by the entries of a shard's part and of the desk's that were stamped
//! before.
//!
//! | File | What it has |
//! |---|---|
//! | `right` | whether each look of each desk is right |
//! | `tally` | what a shard's entries say of a look, one after the other |
//! | `told` | what a desk told a shard; whether an item is the next of it |
//! | `counts` | whether the counts of a look are these |
//! | `stands` | whether a machine stands so |
//! | `brought` | the machines that entries bring into a shard's directory |
//! | `before` | the entries of a part that were stamped before |
//! | `key` | copies of keys, and whose item an entry handled |
#![tactic(auto)]

mod before;
mod brought;
mod counts;
mod key;
mod right;
mod stands;
mod tally;
mod told;

pub use right::are_right;
