//! Why calls on a shard are refused.

ghost use Rattle.std.specs.Prelude.{◌≡◌};
ghost use Rattle.bench_shard.specs.declared.fault.PutError.TheVariants as put;
ghost use Rattle.bench_shard.specs.declared.fault.WorkFault.TheVariants as work;
ghost use Rattle.bench_shard.specs.Refusal.{number_of};

use std::alloc::{AllocError, AllocFailed};
use thiserror::Error;

/// Why an item does not come into a shard. The shard is then as it was.
#[derive(Clone, Copy, Debug, PartialEq, Eq, Error)]
pub enum PutError {
    /// As many items wait as may.
    #[error("as many items wait as may")]
    Full,
    /// There is room, and memory was refused.
    #[error("out of memory")]
    NoMemory,
}

impl From<AllocError> for PutError {
    ghost from_gives = { λ _ e. e ≡ put.NoMemory };

    fn from(_e: AllocError) -> PutError {
        PutError::NoMemory
    }
}

impl<T: Drop> From<AllocFailed<T>> for PutError {
    ghost from_gives = { λ _ e. e ≡ put.NoMemory };

    fn from(_e: AllocFailed<T>) -> PutError {
        PutError::NoMemory
    }
}

/// Why a shard does not work. It is then as it was.
#[derive(Clone, Copy, Debug, PartialEq, Eq, Error)]
pub enum WorkFault {
    /// It is paused.
    #[error("the shard is paused")]
    Paused,
    /// No item waits.
    #[error("no item waits")]
    Nothing,
    /// The oldest item asks something of the account book's page of that number.
    #[error("the item needs page {0} of the account book")]
    NeedsPage(u64),
    /// Its outbox lacks the room for the deeds of a step.
    #[error("too many items wait to be carried on")]
    Full,
    /// Memory was refused.
    #[error("out of memory")]
    NoMemory,
}

impl WorkFault {
    /// The number that stands for the fault where it is printed: 1 to 5, in their order.
    pub fn number(self) -> u8
        ensures { result ≡ number_of self }
    {
        match self {
            WorkFault::Paused => 1,
            WorkFault::Nothing => 2,
            WorkFault::NeedsPage(_) => 3,
            WorkFault::Full => 4,
            WorkFault::NoMemory => 5,
        }
    }
}

impl From<AllocError> for WorkFault {
    ghost from_gives = { λ _ e. e ≡ work.NoMemory };

    fn from(_e: AllocError) -> WorkFault {
        WorkFault::NoMemory
    }
}
