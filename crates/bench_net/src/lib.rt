//! What stands between a connection of the bench and a socket: octets that came are handed to a port in pieces, and
//! what the port sent goes out, in a bounded number of turns.
#![tactic(auto)]

mod end;
mod fault;
mod given;
mod hear;
mod pipe;
mod port;
mod pumping;
mod put;
mod refusal;
mod said;
mod send;
mod settle;

pub use fault::{PumpCode, PumpFault, Pumped};
pub use hear::MAX_TURNS;
pub use pipe::{MAX_PIECE, Pipe};
pub use port::Port;
pub use pumping::pump;
pub use refusal::Refusal;
pub use settle::lose;
