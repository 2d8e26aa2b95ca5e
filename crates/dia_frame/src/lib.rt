//! Frames of a stream: whole Diameter messages (RFC 6733 section 3), however the octets were cut.
//!
//! A [`Framer`] is fed the octets of a connection as they come and hands out the octets of one message after another.
#![tactic(auto)]

mod cut;
mod fault;
mod framer;
mod laws;

pub use fault::{FeedError, FrameFault};
pub use framer::Framer;
pub use laws::{first_frame, one_reading};
