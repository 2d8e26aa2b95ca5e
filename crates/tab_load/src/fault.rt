//! Why an image is not loaded.

ghost use Rattle.std.specs.Prelude.{◌≡◌, Some};
ghost use Rattle.tab_load.specs.Faults.{number_of, text_of, at_of};
ghost use Rattle.tab_load.specs.declared.fault.LoadError.TheVariants.{NoMemory, Refused};

use std::alloc::{AllocError, AllocFailed};
use std::fmt;
use thiserror::Error;

/// What is wrong with an image.
#[derive(Clone, Copy, Debug, PartialEq, Eq, Error)]
pub enum ImageFault {
    /// It begins with the octets of no format.
    Magic,
    /// It ends before its part does.
    Cut,
    /// A count or an operand is out of range.
    Count,
    /// A name isn't spelled as names are, or stands in its list twice.
    Name,
    /// The book of laws lacks a name.
    Unbound,
    /// An offset leads to no start of a row and to no end.
    Offset,
    /// A failed guard would go back.
    BackJump,
    /// No instruction begins with this octet.
    OpCode,
    /// The code has no end.
    NoEnd,
    /// Octets stand behind the code.
    Trailing,
}

impl ImageFault {
    /// The number that stands for the fault where it is printed: 1 to 10.
    pub fn number(self) -> u8
        ensures { result ≡ number_of self }
    {
        match self {
            ImageFault::Magic => 1,
            ImageFault::Cut => 2,
            ImageFault::Count => 3,
            ImageFault::Name => 4,
            ImageFault::Unbound => 5,
            ImageFault::Offset => 6,
            ImageFault::BackJump => 7,
            ImageFault::OpCode => 8,
            ImageFault::NoEnd => 9,
            ImageFault::Trailing => 10,
        }
    }

    fn text(self) -> &'static str
        ensures { result.now ≡ text_of self }
    {
        match self {
            ImageFault::Magic => "no image",
            ImageFault::Cut => "cut off",
            ImageFault::Count => "a number is out of range",
            ImageFault::Name => "bad name",
            ImageFault::Unbound => "a name is not registered",
            ImageFault::Offset => "bad offset",
            ImageFault::BackJump => "a jump back",
            ImageFault::OpCode => "unknown instruction",
            ImageFault::NoEnd => "the code has no end",
            ImageFault::Trailing => "octets behind the code",
        }
    }
}

impl fmt::Display for ImageFault {
    ghost output = { λ fault. Some (text_of fault) };

    fn fmt<W: fmt::Write>(&self, f: &mut fmt::Formatter<W>) -> fmt::Result {
        f.write_str(self.text())
    }
}

/// The first fault of an image, in octet order.
#[derive(Clone, Copy, Debug, PartialEq, Eq)]
pub struct LoadFault {
    /// Where the part begins that is wrong; of `Cut` the length of the image.
    pub at: usize,
    pub code: ImageFault,
}

/// Why an image is not loaded.
#[derive(Clone, Copy, Debug, PartialEq, Eq, Error)]
pub enum LoadError {
    #[error("the image is faulty")]
    Refused(LoadFault),
    #[error("no memory")]
    NoMemory,
}

impl From<AllocError> for LoadError {
    ghost from_gives = { λ _ e. e ≡ NoMemory };

    fn from(_e: AllocError) -> LoadError {
        LoadError::NoMemory
    }
}

impl<T: Drop> From<AllocFailed<T>> for LoadError {
    ghost from_gives = { λ _ e. e ≡ NoMemory };

    fn from(_e: AllocFailed<T>) -> LoadError {
        LoadError::NoMemory
    }
}

impl From<LoadFault> for LoadError {
    ghost from_gives = { λ fault e. e ≡ Refused fault };

    fn from(fault: LoadFault) -> LoadError {
        LoadError::Refused(fault)
    }
}

/// A fault with its place: that of the part, or of `Cut` the length of the image.
pub(crate) fn fault_at(code: ImageFault, part: usize, length: usize) -> LoadFault
    ensures code { result.code ≡ code }
    ensures at { result.at ≡ at_of code part length }
{
    let at = match code {
        ImageFault::Cut => length,
        _ => part,
    };
    LoadFault { at, code }
}
