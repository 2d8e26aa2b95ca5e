//! What a message says, as one object of JSON in one line (RFC 8259).
//!
//! | File | What it puts |
//! |---|---|
//! | `lines` | the line of a message |
//! | `headers` | a message's number, place, header and session |
//! | `avps` | its AVPs, groups opened |
//! | `values` | an AVP's data by its type |
//! | `faults` | its fault |
//! | `members` | one member of an object |
#![tactic(auto)]

mod avps;
mod faults;
mod headers;
mod lines;
mod members;
mod values;

pub use lines::put_json;
