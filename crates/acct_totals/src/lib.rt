//! What an account with given totals answers, and what an operation leaves of these: numbers alone.
#![tactic(auto)]

mod answer;
mod op;
mod settle;
mod slot;

pub use answer::{Quote, Totals};
pub use op::{Booked, Op, Outcome};
pub use slot::{Quoted, Slot, held_after, request_verdict};
