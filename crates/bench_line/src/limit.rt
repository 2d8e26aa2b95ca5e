//! The longest message.

/// The most octets of a message; a longer one is a fault of its connection.
pub const MAX_MESSAGE: usize = 4_096;
