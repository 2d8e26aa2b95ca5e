//! Why something is not added to a list.

ghost use Rattle.std.specs.Prelude.{◌≡◌};
ghost use Rattle.base_list.specs.Adding.{number_of_fault, number_of};
ghost use Rattle.base_list.specs.declared.error.AddError.TheVariants.{NoMemory, Fault};

use std::alloc::{AllocError, AllocFailed};
use thiserror::Error;

/// Why something may not be added. `Taken` comes first where both hold.
#[derive(Clone, Copy, Debug, PartialEq, Eq, Error)]
pub enum AddFault {
    /// It is there already, or its name or number is.
    #[error("it is there already")]
    Taken,
    /// As many as the limit are there.
    #[error("there is no room for one more")]
    Full,
}

impl AddFault {
    /// The number that stands for the fault where it is printed: 1 or 2.
    pub fn number(self) -> u8
        ensures { result ≡ number_of_fault self }
    {
        match self {
            AddFault::Taken => 1,
            AddFault::Full => 2,
        }
    }
}

/// Why something was not added. The list is then as it was.
#[derive(Clone, Copy, Debug, PartialEq, Eq, Error)]
pub enum AddError {
    /// It may be added, and memory ran out.
    #[error("out of memory")]
    NoMemory,
    #[error("{0}")]
    Fault(AddFault),
}

impl AddError {
    /// The number that stands for the error where it is printed: the fault's, or 3.
    pub fn number(self) -> u8
        ensures { result ≡ number_of self }
    {
        match self {
            AddError::NoMemory => 3,
            AddError::Fault(fault) => fault.number(),
        }
    }
}

impl From<AllocError> for AddError {
    ghost from_gives = { λ _ e. e ≡ NoMemory };

    fn from(_e: AllocError) -> AddError {
        AddError::NoMemory
    }
}

impl<T: Drop> From<AllocFailed<T>> for AddError {
    ghost from_gives = { λ _ e. e ≡ NoMemory };

    fn from(_e: AllocFailed<T>) -> AddError {
        AddError::NoMemory
    }
}

impl From<AddFault> for AddError {
    ghost from_gives = { λ fault e. e ≡ Fault fault };

    fn from(fault: AddFault) -> AddError {
        AddError::Fault(fault)
    }
}
