//! What a connection has sent, as messages in names.
//!
//! | File | What it has |
//! |---|---|
//! | `messages` | octets cut into messages, each put in names |
#![tactic(auto)]

mod messages;

pub use messages::put_messages;
