//! The sockets of a bench: listening, accepting, dialling, reading, writing and closing, in an event loop of a bounded
//! number of turns.
#![tactic(auto)]

mod node;
mod serve;
mod socket;
mod sockets;

pub use node::{Dial, Node, OnLine};
pub use sockets::{Bare, Sockets, SocketsFault};
