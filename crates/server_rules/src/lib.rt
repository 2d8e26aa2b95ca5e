//! The machine of a credit-control server's session (RFC 8506 section 7):
//! its kinds of events, and the laws of its guards and actions.
//!
//! | File | What it has |
//! |---|---|
//! | `kind` | the kinds of events, in the order of their first appearance in the table |
//! | `entries` | the guards and the actions, an entry each |
//! | `laws` | all as laws, and a registry that takes them |
//!
//! The table itself is text: `tables/server.tbl`.
#![tactic(auto)]

mod entries;
mod kind;
mod laws;

pub use kind::{ServerKind, server_place};
pub use laws::{register_server, server_laws};
