//! A bench in threads: a worker for each shard, one thread for the timers, and whoever feeds connections, tells and
//! looks; what they share, each part behind its lock.
//!
//! | Place | Under | Taken while holding |
//! |---|---|---|
//! | shard k: its part, its callbacks, the room for a step | the lock of shard k | nothing |
//! | page k of the account book | the lock of page k (`acct_pages`) | the lock of the shard that works |
//! | the connections' part | the lock of the connections | nothing |
//! | the timers' part | the lock of the timers | nothing |
//! | the counter of stamps | one `fetch_add`, while the lock is held under which the entry is written | |
//! | the item that a worker, the timers' thread or a connection has lifted | none: it belongs to that thread, or to who
//! feeds | |
//!
//! | File | What it has |
//! |---|---|
//! | `slot` | a shard's part with its callbacks: worked, lifted from, said to |
//! | `come` | what comes to it: items, tells, looks |
//! | `point` | where threads stop for a test |
//! | `shared` | what threads share, each part behind its lock |
//! | `told` | a desk tells and looks, under a shard's lock |
//! | `carry` | an item goes where it is for |
//! | `fed` | a step of a connection is taken |
//! | `worker`, `timers` | what each thread does |
//! | `desk` | a desk of a running bench tells and looks |
//! | `start` | the bench is started |
//! | `feed` | steps of connections are fed |
//! | `peek` | what is looked at, of which nothing is kept |
//! | `in_threads` | the calls of a bench that was started as a trait |
//! | `live` | the bench: looked at, paused, ended |
//! | `parts`, `lend` | what it hands over at its end, and lends to who gathers it |
//! | `fault` | why it is not started, and why it is not ended |
#![tactic(auto)]

mod carry;
mod come;
mod desk;
mod fault;
mod fed;
mod feed;
mod in_threads;
mod lend;
mod live;
mod parts;
mod peek;
mod point;
mod shared;
mod slot;
mod start;
mod timers;
mod told;
mod worker;

pub use desk::LiveDesk;
pub use fault::{EndFault, NotEnded, StartFault};
pub use in_threads::InThreads;
pub use live::Live;
pub use parts::{Logged, Parts};
pub use point::{Gate, Open, Point};
