//! Why a port takes no piece, or no loss.

use thiserror::Error;

/// Why a port did nothing with what it was offered. It is as it was.
#[derive(Clone, Copy, Debug, PartialEq, Eq, Error)]
pub enum Refusal {
    /// It has no such connection. What was offered is not wanted.
    #[error("there is no such connection")]
    Unknown,
    /// The connection is closed. What was offered is not wanted.
    #[error("the connection is closed")]
    Closed,
    /// Too much waits there. What was offered is wanted later.
    #[error("there is no room for one more")]
    Full,
    /// Memory ran out. What was offered is wanted later.
    #[error("out of memory")]
    NoMemory,
}
