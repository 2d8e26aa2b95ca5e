//! The AVP dictionary of the Diameter base protocol and of credit control (RFC 6733 section 4.5, RFC 8506 section 8):
//! which AVPs there are, and the type of their data.
#![tactic(auto)]

mod base;
mod definition;
mod dictionary;
mod fault;
mod field;
mod table;

pub use definition::{AvpKind, Definition};
pub use dictionary::Dictionary;
pub use fault::DictFault;
pub use field::Field;
pub use table::MAX_DEFINITIONS;
