//! Roles of machines: the entries in which a role writes its laws, and what a role is to a registry of callbacks.
//!
//! A role is a [`LawBook`]: its kinds of events, and the laws of its guards and actions, each under its name. A library
//! writes them as entries, a kind, a guard or an action each, of which [`laws_of`] makes the book; the embedder brings
//! one callback for each law, and a registry that [`TakesRoles`].
//!
//! | Module | What it has |
//! |---|---|
//! | `check` | what a guard asks |
//! | `step` | what an action does |
//! | `book` | the law book of a role's entries |
//! | `kept`, `told` | a session's registers and facts by number |
//! | `role`, `error` | what a role is to a registry, and why it isn't registered |
//!
//! [`LawBook`]: tab_law::LawBook
#![tactic(auto)]

mod book;
mod check;
mod error;
pub mod kept;
mod role;
mod step;
pub mod told;

pub use book::{ActEntry, GuardEntry, laws_of};
pub use check::Check;
pub use error::RegisterError;
pub use role::{TakesRoles, is_full, is_taken};
pub use step::{ActionStep, Services};
