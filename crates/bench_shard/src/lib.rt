//! A shard of the running bench: its machines, what comes to it and what it puts out.
//!
//! | File | What it has |
//! |---|---|
//! | `fault` | why calls are refused |
//! | `name` | the octets by which the directory knows a machine |
//! | `state` | the shard without its tables and callbacks, and how it is seen |
//! | `open` | a shard is made |
//! | `queues` | what comes, what is carried on, pauses |
//! | `seek` | a machine is looked for without memory |
//! | `settle` | a machine comes, or stands elsewhere, and that is taken back |
//! | `task` | what the shard is to do next, and why it does not work |
//! | `work` | work is written, and taken back |
#![tactic(auto)]

mod deciding;
mod fault;
mod law;
mod name;
mod open;
mod queues;
mod seek;
mod settle;
mod state;
mod task;
mod work;

pub use fault::{PutError, WorkFault};
pub use law::becomes_as_logged;
pub use name::LentKey;
pub use settle::Settled;
pub use state::ShardState;
pub use task::{Fate, Task};
pub use work::{Effects, ShardRecord, Work};
