//! Commands of Diameter to octets (RFC 6733 sections 3 and 4), and the answer that tells a fault.
//!
//! | File | What it does |
//! |---|---|
//! | `fill` | AVPs put into room of zeros, one behind the other |
//! | `values` | what stands at one place of a command, how long it is as AVPs, and how it is put |
//! | `write` | from a command to octets: its fields in the order of its format |
//! | `answer` | the answer that tells the fault of a request |
#![tactic(auto)]

mod answer;
mod fill;
mod values;
mod write;

pub use answer::{Identity, error_answer, made};
pub use write::write_message;
