//! The machine of a peer (RFC 6733 section 5.6): its kinds of events and the laws of its actions, the events that
//! commands are, the messages that its deeds send, and the election.
//!
//! | File | What it has |
//! |---|---|
//! | `kind` | the kinds of events, in the order of their first appearance in the table |
//! | `entries` | the actions, an entry each |
//! | `laws` | both as laws, and a registry that takes them |
//! | `event` | from a command to the kind of its event |
//! | `election` | who wins an election |
//! | `message` | from a deed to the command that it sends |
//!
//! The table itself is text: `tables/peer.tbl`.
#![tactic(auto)]

mod election;
mod entries;
mod event;
mod kind;
mod laws;
mod message;

pub use deed_message::Names;
pub use election::elect;
pub use event::{Side, peer_event};
pub use kind::PeerKind;
pub use laws::{peer_laws, register_peer};
pub use message::peer_message;
