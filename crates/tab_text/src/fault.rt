//! Why a text is no table.
ghost use Rattle.std.specs.Prelude.{◌≡◌};
ghost use Rattle.tab_text.specs.Codes.{number_of};
ghost use Rattle.tab_text.specs.declared.fault.ParseError.TheVariants.{NoMemory, Fault};

use std::alloc::{AllocError, AllocFailed};
use std::fmt;
use thiserror::Error;

/// What is wrong with a text. The message of each says what was wanted in its place.
#[derive(Clone, Copy, Debug, PartialEq, Eq, Error)]
pub enum TextCode {
    /// The first line that isn't skipped is no header, or there is none.
    NoHeader,
    /// A byte that a text can't have, or one in byte 0 or 1 of a row's line that can't stand there.
    BadByte,
    /// A line with `+` in byte 0 before which no row begins.
    NoRowToContinue,
    /// A row lacks a cell, or the table has no row.
    EmptyCell,
    /// A cell isn't made of names as its column wants it.
    BadName,
    /// A row past the last one that a table has room for.
    TooManyRows,
    /// A name past the last one that a table has room for.
    TooManyNames,
    /// A row with more guards or actions than a row has room for.
    TooManyInRow,
    /// The whole text is too long.
    TooLong,
}

impl TextCode {
    /// The number that stands for the fault in messages.
    pub fn number(self) -> u8
        ensures { result ≡ number_of self }
    {
        match self {
            TextCode::NoHeader => 1,
            TextCode::BadByte => 2,
            TextCode::EmptyCell => 3,
            TextCode::NoRowToContinue => 4,
            TextCode::BadName => 5,
            TextCode::TooManyRows => 6,
            TextCode::TooManyNames => 7,
            TextCode::TooManyInRow => 8,
            TextCode::TooLong => 9,
        }
    }

    fn text(self) -> &'static str {
        match self {
            TextCode::NoHeader =>
                "wanted a header: the words State, Event, Action and Next, the first at byte 2",
            TextCode::BadByte =>
                "wanted bytes 0x20 to 0x7E alone, in a row's line a blank or + in byte 0 and a blank in byte 1",
            TextCode::NoRowToContinue => "wanted a row before a line that continues one",
            TextCode::EmptyCell =>
                "wanted a row with Event, Action and Next, and in the first row with a State",
            TextCode::BadName =>
                "wanted names of at most 40 bytes, a letter and then letters, digits, - / or _, an Event as `Kind` or \
                 `Kind when guard and guard`, and an Action as `-` or names with commas between",
            TextCode::TooManyRows => "wanted at most 4,096 rows",
            TextCode::TooManyNames =>
                "wanted at most 64 states, 128 kinds, 64 guards and 64 actions in all rows",
            TextCode::TooManyInRow => "wanted at most 4 guards and 8 actions in a row",
            TextCode::TooLong => "wanted a text of at most 1,048,576 bytes",
        }
    }
}

// By hand: a derived one writes in every arm, and each is proved to.
impl fmt::Display for TextCode {
    fn fmt<W: fmt::Write>(&self, f: &mut fmt::Formatter<W>) -> fmt::Result {
        f.write_str(self.text())
    }
}

/// The first fault of a text.
#[derive(Clone, Copy, Debug, PartialEq, Eq, Error)]
#[error("line {line}: {code}")]
pub struct TextFault {
    /// The line, from 1; 0 for the text as a whole.
    pub line: usize,
    pub code: TextCode,
}

/// Why a text gives no table.
#[derive(Clone, Copy, Debug, PartialEq, Eq, Error)]
pub enum ParseError {
    /// The text has no fault, and there is no memory for its table.
    #[error("out of memory")]
    NoMemory,
    #[error("{0}")]
    Fault(TextFault),
}

impl From<TextFault> for ParseError {
    ghost from_gives = { λ fault e. e ≡ Fault fault };

    fn from(fault: TextFault) -> ParseError {
        ParseError::Fault(fault)
    }
}

impl From<AllocError> for ParseError {
    ghost from_gives = { λ _ e. e ≡ NoMemory };

    fn from(_e: AllocError) -> ParseError {
        ParseError::NoMemory
    }
}

impl<T: Drop> From<AllocFailed<T>> for ParseError {
    ghost from_gives = { λ _ e. e ≡ NoMemory };

    fn from(_e: AllocFailed<T>) -> ParseError {
        ParseError::NoMemory
    }
}
