//! The AVPs of a message with all that their groups hold (RFC 6733 section 4.4): their first fault, and their one
//! encoding at every level.
//!
//! | File | What it does |
//! |---|---|
//! | `fault` | a fault with its failed AVP |
//! | `kind` | which AVPs are groups |
//! | `cut`, `zeros` | the header of a broken AVP; faults whose failed AVP is a header and zeros |
//! | `event` | whether a message is an EVENT request |
//! | `check` | the first fault of octets that are AVPs and where they lie, without memory |
//! | `canonical` | AVPs with reserved bits and padding zero, groups too |
#![tactic(auto)]

mod canonical;
mod check;
mod cut;
mod event;
mod fault;
mod kind;
mod zeros;

pub use canonical::{canonical_avp, group_list};
pub use check::{NoRoom, survey};
pub use cut::{cut_avp, number_at, octet_at};
pub use fault::{FaultView, MsgFault};
pub use kind::is_grouped;
pub use zeros::missing_fault;
