//! The shipped roles: the text of each one's table, and the laws of all of them in one book.
//!
//! A further role is a line in each of the lists of `roles` and of `specs/Roles.antt`, and its table's text.
#![tactic(auto)]

mod client;
mod peer;
mod roles;
mod server;

pub use client::CLIENT_TABLE;
pub use peer::PEER_TABLE;
pub use roles::{ROLE_NAMES, all_laws, table_named};
pub use server::SERVER_TABLE;
