//! What the parts of a running bench are by its log, and how one more entry changes them:
//! definitions, lemmas, and a law.
#![tactic(auto)]

mod law;

pub use law::legal_is_in_order;
