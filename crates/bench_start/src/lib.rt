//! The parts of a bench as it is opened, whether it then runs in one thread or in several.
//!
//! | File | What it has |
//! |---|---|
//! | `roles` | the tables of all roles |
//! | `peers` | the configured peers |
//! | `pages` | the pages of the account book |
//! | `error` | why a bench is not opened |
#![tactic(auto)]

mod error;
mod pages;
mod peers;
mod roles;

pub use error::opening_error;
pub use pages::open_pages;
pub use peers::open_peers;
pub use roles::open_roles;
