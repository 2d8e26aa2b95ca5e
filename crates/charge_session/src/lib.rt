//! What a session of credit control does with its messages and with the account book, in the order of the data:
//!
//! | File | From | To |
//! |---|---|---|
//! | `kind` | the CC-Request-Type of a request, or of its answer | the kind of a session's event |
//! | `server`, `client` | a message | the event of a server's session, of a client's |
//! | `want` | the event, and the server's machine | what is asked of the account book |
//! | `quote` | what the book answers | facts of the event |
//! | `deed` | a deed of the server's machine | an operation of the book |
//!
//! The facts of a message are those of `charge_facts` (RFC 8506 sections 3, 5 to 7).
#![tactic(auto)]

mod client;
mod deed;
mod kind;
mod quote;
mod server;
mod want;

pub use client::client_event;
pub use deed::op_of;
pub use kind::{answer_kind, request_kind};
pub use quote::{Quotes, fill_quotes};
pub use server::server_event;
pub use want::{ServiceUnits, Want, needs};
