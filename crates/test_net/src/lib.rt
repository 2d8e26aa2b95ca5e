//! Tests of what stands between a connection and a socket.
#![tactic(auto)]

mod board;
mod devices;
#[cfg(test)]
mod tests;
