//! The words of the running bench: who puts items out, what an item is, the steps that are taken, and what a deed
//! posts.
//!
//! | File | What it has |
//! |---|---|
//! | `source` | who puts items out |
//! | `key` | which machine: its role and its name |
//! | `peers` | the configured peers, and the numbers of their machines |
//! | `shard` | the shard where a machine has its place |
//! | `item` | what is on its way, and where to |
//! | `step` | the steps, and why one is refused |
//! | `line_state` | where a connection stands |
//! | `limit` | every limit of the running bench |
//!
//! What a deed posts is a definition alone here, `specs/Posts.antt`; `bench_post` has the code.
#![tactic(auto)]

mod entry;
mod hears;
mod item;
mod key;
mod limit;
mod line_state;
mod opening;
mod peers;
mod series;
mod shard;
mod source;
mod step;

pub use entry::{Entry, Handled, Moved};
pub use hears::{Heard, Hears, LineEvent, Turn};
pub use item::{Condition, Item, LineItem, MachineItem};
pub use key::{Key, Role, is_same_key, is_same_role};
pub use limit::{
    MAX_BREAKPOINTS, MAX_DESKS, MAX_ENTRIES, MAX_LINES, MAX_MACHINES, MAX_PAGES, MAX_PEERS,
    MAX_SHARDS, MAX_WAITING, WORK_ROOM,
};
pub use line_state::LineState;
pub use opening::Opening;
pub use peers::{Peers, is_same_host};
pub use series::Series;
pub use shard::home;
pub use source::Source;
pub use step::{Step, StepFault};
pub use tab_kept::{KeptDeed, KeptEvent};
