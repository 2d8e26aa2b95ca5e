//! The parts of a bench that runs in threads, as it is opened: to none of them anything happened yet;
//! no thread is started here.
//!
//! | File | What it has |
//! |---|---|
//! | `opening` | the parts of a configuration, or why it is not opened |
//! | `parts` | each of them |
#![tactic(auto)]

mod opening;
mod parts;

pub use opening::Opened;
