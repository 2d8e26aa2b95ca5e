//! What can be refused.
ghost use Rattle.std.specs.Prelude.{◌≡◌};
ghost use Rattle.acct_book.specs.Book.{number_of};
ghost use Rattle.acct_book.specs.declared.error.OpenError.TheVariants as OpenErrors;

use base_list::AddFault;
use std::alloc::{AllocError, AllocFailed};
use thiserror::Error;

/// A growth was refused. The book is as it was.
#[derive(Clone, Copy, Debug, PartialEq, Eq, Error)]
#[error("out of memory")]
pub struct NoMemory;

impl From<AllocError> for NoMemory {
    fn from(_e: AllocError) -> NoMemory {
        NoMemory
    }
}

/// Why an account was not opened. The book is as it was.
#[derive(Clone, Copy, Debug, PartialEq, Eq, Error)]
pub enum OpenError {
    /// It may be opened, and memory ran out.
    #[error("out of memory")]
    NoMemory,
    /// More than `MAX_GIVEN` units are given.
    #[error("more than 2^62 units are given")]
    TooLarge,
    /// The account is open already, or the page has `MAX_ACCOUNTS` accounts.
    #[error("{0}")]
    Add(AddFault),
}

impl OpenError {
    /// The number that stands for the error where it is printed:
    /// 1 to 3 in the order of the refusals, and 4 for want of memory.
    pub fn number(self) -> u8
        ensures { result ≡ number_of self }
    {
        match self {
            OpenError::Add(AddFault::Taken) => 1,
            OpenError::TooLarge => 2,
            OpenError::Add(AddFault::Full) => 3,
            OpenError::NoMemory => 4,
        }
    }
}

impl<T: Drop> From<AllocFailed<T>> for OpenError {
    ghost from_gives = { λ _ e. e ≡ OpenErrors.NoMemory };

    fn from(_e: AllocFailed<T>) -> OpenError {
        OpenError::NoMemory
    }
}
