//! What a call changed.

use crate::line::Before;
use bench_item::LineState;

/// What a call changed, from which it can be taken back. That is the caller's to keep, and calls are taken back last
/// first.
#[derive(Drop)]
pub enum Change {
    Nothing,
    /// A connection was opened, behind the others.
    Opened,
    /// An item of the connection of that number was lifted.
    Lifted {
        line: u64,
    },
    /// The connection of that number was this before.
    Changed {
        line: u64,
        before: Before,
    },
    /// The connections that a dial opened were closed; so they stood before, in order.
    Undialled {
        peer: u64,
        generation: u64,
        states: Vec<LineState>,
    },
}
