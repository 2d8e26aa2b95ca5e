//! Why the writing half of a call ended.

/// Why the writing half of a call ended.
#[derive(Clone, Copy)]
pub(crate) enum Said {
    /// All that the port sent is out.
    Out,
    /// The sink takes nothing for now.
    Blocked,
    /// A write failed.
    Failed,
    /// All turns were made.
    Over,
}
