//! Queues of the running bench, whose items stay: an item that was carried on is counted, so that it can be taken back.
//!
//! | File | What it has |
//! |---|---|
//! | `outbox` | what a source put out, was lifted into its hand and dropped from there |
//! | `inbox` | what came to a shard and was handled there |
#![tactic(auto)]

mod inbox;
mod outbox;

pub use inbox::Inbox;
pub use outbox::Outbox;
