//! What guards and actions may answer: their laws, and the values that the laws speak of.
//!
//! A guard says yes or no on a [`Scene`]; an action leaves registers and deeds there. A law fixes a
//! guard's answer ([`holds`]) and says which answers of an action are permitted ([`permits`],
//! [`emitted`], [`high`]). A [`LawBook`] keeps laws under the names that a state table uses.
#![tactic(auto)]

mod act;
mod book;
mod guard;
mod law;
mod limits;
mod scene;
mod value;

pub use act::{Acted, emitted, high, high_into, permits};
pub use book::LawBook;
pub use guard::holds;
pub use law::{ActLaw, Atom, Change, Field, GuardLaw, Numbers, Term, Terms, Test};
pub use limits::{
    MAX_ACTIONS, MAX_DEEDS, MAX_EMITS, MAX_GUARDS, MAX_KINDS, MAX_NUMBERS, MAX_ROW_ACTIONS,
    MAX_TESTS, PLACES,
};
pub use scene::{ActDeeds, Chain, Deed, Deeds, Scene};
