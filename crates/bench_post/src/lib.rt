//! What the deeds of a machine put out, by whose machine it is: the items that its shard posts.
//!
//! | File | What it has |
//! |---|---|
//! | `event` | an event of a name, and the item that carries it to a machine |
//! | `session` | the events of credit control for sessions |
//! | `message` | messages to peers and to sessions |
//! | `line` | deeds for a connection |
//! | `unsent` | the event that a request was not sent |
//! | `elect` | the event that an election is won |
//! | `timer` | dials and timers |
//! | `post` | all of these, by the deed's code |
//! | `busy` | the answer to a request that finds no room |
#![tactic(auto)]

mod busy;
mod elect;
mod event;
mod line;
mod message;
mod post;
mod session;
mod timer;
mod unsent;

pub use bench_item::{Peers, home};
pub use busy::busy_posts;
pub use post::posts_of;
