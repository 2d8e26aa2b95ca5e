//! What a bench is opened with, copied.
//!
//! | File | What it has |
//! |---|---|
//! | `config` | a configuration, copied |
#![tactic(auto)]

mod config;

pub use config::copy_config;
