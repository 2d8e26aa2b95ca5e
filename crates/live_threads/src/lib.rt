//! A node that lives, in one thread or in several.
//!
//! | File | What it has |
//! |---|---|
//! | `threads` | the turns of a node whose shards run in threads |
//! | `life` | a node lives, either way |
#![tactic(auto)]

mod life;
mod threads;

pub use life::live_one;
