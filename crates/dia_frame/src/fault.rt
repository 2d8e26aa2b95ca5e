//! Why a stream gives no more frames.

ghost use Rattle.std.specs.Prelude.{◌≡◌};
ghost use Rattle.dia_frame.specs.declared.fault.FeedError.TheVariants.{NoMemory};

use std::alloc::AllocError;
use thiserror::Error;

/// What is wrong with a stream. After `Version` or `Length` each later feed answers `Broken`.
#[derive(Clone, Copy, Debug, PartialEq, Eq, Error)]
pub enum FrameFault {
    /// The first octet after the whole messages isn't 1 (RFC 6733 section 3).
    #[error("the next message's version isn't 1")]
    Version,
    /// The Message Length is below 20 octets, over the limit or no multiple of 4 (RFC 6733 section 3).
    #[error("the next message's length is below 20, over the limit or no multiple of 4")]
    Length,
    /// An earlier feed found `Version` or `Length`.
    #[error("an earlier message of the stream had a bad version or length")]
    Broken,
}

impl FrameFault {
    ghost use Rattle.dia_frame.specs.Fault.{fault_number};

    /// The fault's number, as it is printed: 1, 2 or 3.
    pub fn number(self) -> u8
        ensures { result ≡ fault_number self }
    {
        match self {
            FrameFault::Version => 1,
            FrameFault::Length => 2,
            FrameFault::Broken => 3,
        }
    }
}

/// Why a feed was refused.
#[derive(Clone, Copy, Debug, PartialEq, Eq, Error)]
pub enum FeedError {
    /// The Framer is as it was before the feed, which may be tried again.
    #[error("out of memory")]
    NoMemory,
    /// The stream has a fault.
    #[error("{0}")]
    Fault(FrameFault),
}

impl From<AllocError> for FeedError {
    ghost from_gives = { λ _ e. e ≡ NoMemory };

    fn from(_e: AllocError) -> FeedError {
        FeedError::NoMemory
    }
}
