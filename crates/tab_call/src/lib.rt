//! Callbacks that were handed in, each with the law that its answers keep.
//!
//! A guard or an action is a closure over a [`Scene`]. It is stored with its law ([`StoredGuard`],
//! [`StoredAct`]) on condition that on every scene it may be called and answers what the law permits. A
//! [`Registry`] keeps callbacks under the names that a state table uses. Contracts speak of its closure-free
//! [`LawBook`], which has the same laws in the same places. All callbacks of a role come in one call, with [`Calls`].
//!
//! [`Scene`]: tab_law::Scene
//! [`LawBook`]: tab_law::LawBook
#![tactic(auto)]

mod adding;
mod calls;
mod registry;
mod stored;

pub use calls::Calls;
pub use registry::Registry;
pub use stored::{Ask, Do, StoredAct, StoredGuard};
