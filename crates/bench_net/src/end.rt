//! Why the reading half of a call ended.

use crate::settle::Stop;

/// Why the reading half of a call ended.
#[derive(Clone, Copy)]
pub(crate) enum End {
    /// The source has nothing for now.
    Blocked,
    /// The input ended, and the port was told of the loss.
    Ended,
    /// The port has no use for more.
    Declined,
    /// A read failed.
    Failed,
    /// All turns were made.
    Over,
    /// The port holds things up.
    Held(Stop),
}
