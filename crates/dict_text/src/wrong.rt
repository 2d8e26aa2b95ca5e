//! What is wrong in a line.
ghost use Rattle.std.specs.Prelude.{◌≡◌};
ghost use Rattle.dict_text.specs.Wrong.{seen_mistake};

use std::alloc::{AllocError, AllocFailed};

/// What was wanted where a line is wrong.
#[derive(Clone, Copy, Debug, PartialEq, Eq)]
pub enum Want {
    /// A code, or a code and a vendor.
    Code,
    /// The name of an AVP.
    Name,
    /// The type of its data.
    Kind,
    /// A number and its name.
    Value,
    /// A code and vendor that no AVP has yet.
    NewCode,
    /// A name that no AVP has yet.
    NewName,
    /// One AVP less.
    Room,
}

/// What is wrong in a line: what was wanted, and the word that stands there, empty where it is none by itself.
#[derive(Clone, Copy)]
pub(crate) struct Mistake<'a> {
    pub want: Want,
    pub word: &'a [u8],
}

/// A line that is wrong: its number, from 1, what was wanted, and the word that stands there,
/// empty where it is none by itself.
#[derive(Clone, Copy)]
pub struct WrongLine<'a> {
    pub number: usize,
    pub want: Want,
    pub word: &'a [u8],
}

/// Why a line adds nothing.
#[derive(Clone, Copy)]
pub(crate) enum LineError<'a> {
    NoMemory,
    Mistake(Mistake<'a>),
}

impl<'a> From<AllocError> for LineError<'a> {
    ghost use Rattle.dict_text.specs.declared.wrong.LineError.TheVariants.{NoMemory};

    ghost from_gives = { λ _ e. e ≡ NoMemory };

    fn from(_e: AllocError) -> LineError<'a> {
        LineError::NoMemory
    }
}

impl<'a, T: Drop> From<AllocFailed<T>> for LineError<'a> {
    ghost use Rattle.dict_text.specs.declared.wrong.LineError.TheVariants.{NoMemory};

    ghost from_gives = { λ _ e. e ≡ NoMemory };

    fn from(_e: AllocFailed<T>) -> LineError<'a> {
        LineError::NoMemory
    }
}

/// A mistake at a word.
pub(crate) fn at_word<'a>(want: Want, word: &'a [u8]) -> Mistake<'a>
    ensures { seen_mistake result ≡ record { want = want; word = word.now } }
{
    Mistake { want, word }
}
