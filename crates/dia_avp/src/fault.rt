//! Why octets could not be read as AVPs, why AVPs could not be written, and why data is no value of a type.

ghost use Rattle.std.specs.Prelude.{◌≡◌};
ghost use Rattle.dia_avp.specs.Fault.{number_of};
ghost use Rattle.dia_avp.specs.declared.fault.ReadError.TheVariants as read_errors;
ghost use Rattle.dia_avp.specs.declared.fault.WriteError.TheVariants as write_errors;
ghost use Rattle.dia_avp.specs.declared.fault.GroupError.TheVariants as group_errors;

use std::alloc::AllocError;
use thiserror::Error;

/// What is wrong with an AVP (RFC 6733 section 4.1).
#[derive(Clone, Copy, Debug, PartialEq, Eq)]
pub enum FaultCode {
    /// Fewer octets are left than the header has.
    ShortHeader,
    /// The AVP Length is less than the header's octets.
    LengthBelowHeader,
    /// The AVP runs past the end of the octets.
    PastEnd,
    /// There are more than 128 AVPs.
    TooMany,
    /// There are more than 4 levels of groups.
    TooDeep,
}

impl FaultCode {
    /// The number that stands for the fault where it is printed, 1 to 5.
    pub fn number(self) -> u8
        ensures { result ≡ number_of self }
    {
        match self {
            FaultCode::ShortHeader => 1,
            FaultCode::LengthBelowHeader => 2,
            FaultCode::PastEnd => 3,
            FaultCode::TooMany => 4,
            FaultCode::TooDeep => 5,
        }
    }
}

/// The first fault. `at` is the place of the faulty AVP's first octet, from 0; it is 0 for `TooDeep`.
#[derive(Clone, Copy, Debug, PartialEq, Eq)]
pub struct AvpFault {
    pub at: usize,
    pub code: FaultCode,
}

/// Why octets were not read as AVPs.
#[derive(Debug, Drop, Error)]
pub enum ReadError {
    #[error("out of memory")]
    NoMemory,
    #[error("faulty AVP")]
    Fault(AvpFault),
}

impl From<AllocError> for ReadError {
    ghost from_gives = { λ _ e. e ≡ read_errors.NoMemory };

    fn from(_e: AllocError) -> ReadError {
        ReadError::NoMemory
    }
}

impl From<AvpFault> for ReadError {
    ghost from_gives = { λ f e. e ≡ read_errors.Fault f };

    fn from(fault: AvpFault) -> ReadError {
        ReadError::Fault(fault)
    }
}

/// Why AVPs were not written.
#[derive(Clone, Copy, Debug, PartialEq, Eq, Error)]
pub enum WriteError {
    #[error("out of memory")]
    NoMemory,
    #[error("AVP too long for 24 bits of length")]
    LengthOver24Bits,
}

impl From<AllocError> for WriteError {
    ghost from_gives = { λ _ e. e ≡ write_errors.NoMemory };

    fn from(_e: AllocError) -> WriteError {
        WriteError::NoMemory
    }
}

/// Why the data of an AVP is no value of its type (RFC 6733 section 4.2).
#[derive(Clone, Copy, Debug, PartialEq, Eq, Error)]
pub enum FieldFault {
    #[error("data that its type does not allow")]
    BadValue,
    #[error("data of a size that its type does not have")]
    BadLength,
}

/// Why the data of a Grouped AVP was not read as AVPs (RFC 6733 section 4.4).
#[derive(Clone, Copy, Debug, PartialEq, Eq, Error)]
pub enum GroupError {
    #[error("out of memory")]
    NoMemory,
    #[error("faulty group")]
    Fault(FieldFault),
}

impl From<AllocError> for GroupError {
    ghost from_gives = { λ _ e. e ≡ group_errors.NoMemory };

    fn from(_e: AllocError) -> GroupError {
        GroupError::NoMemory
    }
}

impl From<FieldFault> for GroupError {
    ghost from_gives = { λ f e. e ≡ group_errors.Fault f };

    fn from(fault: FieldFault) -> GroupError {
        GroupError::Fault(fault)
    }
}
