//! Where a connection stands.

/// Where a connection stands, from its opening to its end.
#[derive(Clone, Copy)]
pub enum LineState {
    /// Opened by a dial, and neither acknowledged nor lost yet. `peer` is the number of the peer's machine.
    Dialling { peer: u64 },
    /// Octets are read and sent.
    Open,
    /// Closed by either side; what was sent stays readable.
    Closed,
}
