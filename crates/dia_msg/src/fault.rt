//! Why octets are not read.
ghost use Rattle.std.specs.Prelude.{◌≡◌};
ghost use Rattle.dia_tree.specs.View.{seen_fault};
ghost use Rattle.dia_msg.specs.Walk.{IsErrorOf};
ghost use Rattle.dia_msg.specs.declared.fault.MsgError.TheVariants as msg_errors;

use dia_tree::{FaultView, MsgFault};
use std::alloc::{AllocError, Global};
use thiserror::Error;

/// Why octets were not read.
#[derive(Debug, Drop, Error)]
pub enum MsgError {
    #[error("out of memory")]
    NoMemory,
    #[error("faulty message: {0}")]
    Fault(MsgFault),
}

impl From<AllocError> for MsgError {
    ghost from_gives = { λ _ e. e ≡ msg_errors.NoMemory };

    fn from(_e: AllocError) -> MsgError {
        MsgError::NoMemory
    }
}

/// The error for a fault, with a copy of its failed AVP.
#[cold]
#[inline(never)]
pub(crate) fn error_of(alloc: Global, fault: &FaultView<'_>) -> MsgError
    ensures { IsErrorOf (seen_fault fault.now) result }
{
    match fault.to_fault(alloc) {
        Ok(fault) => MsgError::Fault(fault),
        Err(_) => MsgError::NoMemory,
    }
}
