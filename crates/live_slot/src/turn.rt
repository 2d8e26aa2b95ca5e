//! What came of a turn, and stamps.

use std::sync::atomic::{AtomicU64, Ordering};

/// A stamp that no other entry or look has. It is to be drawn while the lock is held under which the entry is written.
pub fn draw(stamps: &AtomicU64) -> u64 {
    stamps.fetch_add(1, Ordering::SeqCst)
}

/// What came of a turn.
#[derive(Clone, Copy, Debug, PartialEq, Eq)]
pub enum Turn {
    /// Something was done.
    Done,
    /// There was nothing to do, or no room.
    Idle,
    /// Memory was refused.
    NoMemory,
}
