//! Why a tell or a look is refused.

ghost use Rattle.std.specs.Prelude.{◌≡◌};
ghost use Rattle.bench_desk.specs.declared.fault.CarryFault.TheVariants as carrying;
ghost use Rattle.bench_desk.specs.declared.fault.DeskFault.TheVariants as faults;

use std::alloc::{AllocError, AllocFailed};
use thiserror::Error;

/// Why a tell or a look is refused. Desk and shard are then as they were.
#[derive(Clone, Copy, Debug, PartialEq, Eq, Error)]
pub enum DeskFault {
    /// There is no machine of that key that can be told, or it can't be told that.
    #[error("no such machine or event")]
    Unknown,
    /// As many items wait in the shard as may, or the shard or the desk has as many entries as it may.
    #[error("no more can be told")]
    Full,
    /// The shard's counts contradict what the desk told it, or saw of it before.
    #[error("the shard contradicts the desk")]
    Disagree,
    /// Memory was refused.
    #[error("out of memory")]
    NoMemory,
}

impl From<AllocError> for DeskFault {
    ghost from_gives = { λ _ e. e ≡ faults.NoMemory };

    fn from(_e: AllocError) -> DeskFault {
        DeskFault::NoMemory
    }
}

impl<T: Drop> From<AllocFailed<T>> for DeskFault {
    ghost from_gives = { λ _ e. e ≡ faults.NoMemory };

    fn from(_e: AllocFailed<T>) -> DeskFault {
        DeskFault::NoMemory
    }
}

/// Why an item is not lifted from a part, or not dropped there. The part is then as it was.
#[derive(Clone, Copy, Debug, PartialEq, Eq, Error)]
pub enum CarryFault {
    /// No item waits to be lifted.
    #[error("no item waits")]
    Nothing,
    /// There is no room where the item is for, or the part has as many entries as it may.
    #[error("there is no room")]
    Full,
    /// Memory was refused.
    #[error("out of memory")]
    NoMemory,
}

impl From<AllocError> for CarryFault {
    ghost from_gives = { λ _ e. e ≡ carrying.NoMemory };

    fn from(_e: AllocError) -> CarryFault {
        CarryFault::NoMemory
    }
}

impl<T: Drop> From<AllocFailed<T>> for CarryFault {
    ghost from_gives = { λ _ e. e ≡ carrying.NoMemory };

    fn from(_e: AllocFailed<T>) -> CarryFault {
        CarryFault::NoMemory
    }
}
