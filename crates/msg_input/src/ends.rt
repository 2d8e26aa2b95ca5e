//! How reading comes to its end, and what that prints.
ghost use Rattle.std.specs.Prelude.{◌≡◌, ◌++◌, decimal};
ghost use Rattle.msg_input.specs.declared.ends.Refusal.TheVariants.{NoMemory};
ghost use Rattle.msg_input.specs.Ends.{end_status, end_text, frame_text, refusal_of, words_of};

use base_device::Status;
use dia_frame::{FeedError, FrameFault};
use std::alloc::AllocError;

/// Why the input is read no further.
#[derive(Clone, Copy, PartialEq, Eq)]
pub enum Refusal {
    /// A character is neither a digit nor a blank, or a digit is left over at the end.
    BadHex,
    /// The octets behind the last message are no message.
    Frame(FrameFault),
    NoMemory,
}

impl From<AllocError> for Refusal {
    ghost from_gives = { λ _ e. e ≡ NoMemory };

    fn from(_e: AllocError) -> Refusal {
        Refusal::NoMemory
    }
}

impl From<FeedError> for Refusal {
    ghost from_gives = { λ error refusal. refusal ≡ refusal_of error };

    fn from(error: FeedError) -> Refusal {
        match error {
            FeedError::NoMemory => Refusal::NoMemory,
            FeedError::Fault(fault) => Refusal::Frame(fault),
        }
    }
}

/// How reading came to its end.
#[derive(Clone, Copy, PartialEq, Eq)]
pub enum End {
    /// All was read.
    Whole,
    Refused(Refusal),
    ReadFailed,
    /// So many reads were made that no more are.
    TooManyReads,
}

/// How far an input was read.
#[derive(Clone, Copy, PartialEq, Eq)]
pub struct Place {
    /// The number of the last message so far.
    pub messages: u64,
    /// Octets of the whole messages so far: where the next one begins.
    pub octets: u64,
    /// Characters so far.
    pub characters: u64,
}

/// A text with a number in it, or without.
#[derive(Clone, Copy)]
pub struct EndWords {
    pub before: &'static [u8],
    pub place: Option<u64>,
    pub after: &'static [u8],
}

/// A number between two texts.
pub fn placed(before: &'static [u8], place: u64, after: &'static [u8]) -> EndWords
    ensures { words_of result ≡ before.now ++ decimal place ++ after.now }
{
    EndWords {
        before,
        place: Some(place),
        after,
    }
}

/// A text without a number.
pub fn unplaced(text: &'static [u8]) -> EndWords
    ensures { words_of result ≡ text.now }
{
    EndWords {
        before: text,
        place: None,
        after: b"",
    }
}

fn frame_text(fault: FrameFault) -> &'static [u8]
    ensures { result.now ≡ frame_text fault }
{
    match fault {
        FrameFault::Version => b"frame fault 1\n",
        FrameFault::Length => b"frame fault 2\n",
        FrameFault::Broken => b"frame fault 3\n",
    }
}

impl End {
    /// What is printed at the end, and nothing where the input was read whole.
    pub fn text(self) -> &'static [u8]
        ensures { result.now ≡ end_text self }
    {
        match self {
            End::Whole => b"",
            End::Refused(Refusal::BadHex) => b"bad hex\n",
            End::Refused(Refusal::Frame(fault)) => frame_text(fault),
            End::Refused(Refusal::NoMemory) => b"no memory\n",
            End::ReadFailed => b"read fault\n",
            End::TooManyReads => b"read fault: no end of input after 1048576 reads\n",
        }
    }

    /// The status that it gives, where a fault was printed or none was.
    pub(crate) fn status(self, refused: bool) -> Status
        ensures { result ≡ end_status self refused }
    {
        match self {
            End::Whole if refused => Status::Refused,
            End::Whole => Status::Done,
            End::Refused(Refusal::NoMemory) => Status::NoMemory,
            End::Refused(_) => Status::Refused,
            End::ReadFailed | End::TooManyReads => Status::Fault,
        }
    }
}
