//! What messages mean to a connection of this node (RFC 6733 sections 5.3 to 5.6): which it answers by itself, which
//! greet it, and what it puts out for the machine of its peer.
//!
//! | File | What it has |
//! |---|---|
//! | `listener` | who listens: this node, its peers, the places of kinds of events |
//! | `post` | events for a peer's machine |
//! | `own_answer` | what a connection answers by itself |
//! | `application` | the applications that a CER may name |
//! | `first_cer` | the first message of an accepted connection |
//! | `reply` | messages of a dialled connection that is not greeted |
//! | `greeted` | messages of a greeted connection |
//! | `turned` | events that are no messages |
//! | `octets` | the messages that deeds send |
//! | `hears` | all of it as `bench_item::Hears` |
#![tactic(auto)]

mod application;
mod first_cer;
mod greeted;
mod hears;
mod listener;
mod octets;
mod own_answer;
mod post;
mod reply;
mod turned;

pub use listener::Listener;
