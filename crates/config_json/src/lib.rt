//! A node of a CONFIG as text: an object of JSON (RFC 8259), as `config_text` reads it.
//!
//! | File | What it has |
//! |---|---|
//! | `json` | strings, lists, what may be absent |
//! | `parts` | peers, accounts, desks, addresses |
//! | `node` | the whole |
#![tactic(auto)]

mod json;
mod node;
mod parts;

pub use node::put_config;
