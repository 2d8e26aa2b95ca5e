//! Small lists that every layer needs: octets, values under names, values in room of fixed size,
//! and why something is not added.
#![tactic(auto)]

mod error;
mod fixed;
mod named;
mod octets;

pub use error::{AddError, AddFault};
pub use fixed::FixedList;
pub use named::{Named, NamedList, Refused};
pub use octets::Octets;
