//! A node of a live bench: a bench whose connections are sockets, whose clock is real, and whose desks tell their
//! texts. No handle is taken here: octets, moments and turns are handed in.
//!
//! | File | What it has |
//! |---|---|
//! | `node` | a node, and what it shows |
//! | `open` | a bench opened by callbacks of all roles |
//! | `events` | what happens on its connections |
//! | `dials` | the connections that are to be dialled |
//! | `carry` | an item carried, and what a drop leaves to be dialled or timed |
//! | `settle` | all that waits carried and handled |
//! | `timers` | timers that are due |
//! | `tell` | a desk tells |
#![tactic(auto)]

mod carry;
mod dials;
mod events;
mod node;
mod open;
mod settle;
mod tell;
mod timers;

pub use dials::NextDial;
pub use node::{LiveNode, PeerAddress};
pub use open::open_bench;
pub use tell::KEPT_FREE;
