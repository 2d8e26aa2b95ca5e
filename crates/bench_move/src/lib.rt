//! One move of a machine: decided, or given and checked.
//!
//! | File | What it has |
//! |---|---|
//! | `book` | a copy of a book of laws |
//! | `booking` | the operations of deeds, the outcomes that the account book allows; they are booked |
//! | `deciding` | one move, by the callbacks |
//! | `firing` | what a timer fires |
//! | `judging` | whether a given move is one |
//! | `kinds` | which kinds of a book are a server's |
//! | `may` | which machines a desk may look at and tell, and what |
//! | `posting` | what deeds post |
//! | `quoting` | the event with the book's quote |
//! | `roles` | the table of each role with its program |
//! | `want` | what an item asks of the account book |
#![tactic(auto)]

mod book;
mod booking;
mod deciding;
mod firing;
mod judging;
mod kinds;
mod may;
mod posting;
mod quoting;
mod roles;
mod want;

pub use booking::{book_ops, make_page_room};
pub use deciding::Decided;
pub use firing::firing_item;
pub use may::{may_look, may_tell};
pub use roles::Roles;
