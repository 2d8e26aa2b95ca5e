//! How a connection came to be.

/// How a connection came to be.
#[derive(Clone, Copy)]
pub enum Opening {
    /// The peer's side opened it.
    Accepted,
    /// A dial of this node did. `peer` is the number of the peer's machine.
    Dialled { peer: u64, generation: u64 },
}
