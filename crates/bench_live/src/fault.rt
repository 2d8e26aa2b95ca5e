//! Why a bench is not started, and why it is not ended.
ghost use Rattle.std.specs.Prelude.{◌≡◌};
ghost use Rattle.bench_spec.specs.declared.opening.OpeningError.TheVariants as errors;
ghost use Rattle.bench_live.specs.declared.fault.StartFault.TheVariants as faults;

use crate::desk::LiveDesk;
use crate::live::Live;
use bench_spec::OpeningError;
use std::alloc::{AllocError, AllocFailed};

/// Why a bench is not started.
#[derive(Drop)]
pub enum StartFault {
    /// It can't be opened.
    Opening(OpeningError),
    /// A thread could not be made. Those that were started have ended.
    NoThread,
}

impl From<AllocError> for StartFault {
    ghost from_gives = { λ _ e. e ≡ faults.Opening errors.NoMemory };

    fn from(_e: AllocError) -> StartFault {
        StartFault::Opening(OpeningError::NoMemory)
    }
}

impl<T: Drop> From<AllocFailed<T>> for StartFault {
    ghost from_gives = { λ _ e. e ≡ faults.Opening errors.NoMemory };

    fn from(_e: AllocFailed<T>) -> StartFault {
        StartFault::Opening(OpeningError::NoMemory)
    }
}

/// Why a bench is not ended.
#[derive(Clone, Copy, Debug, PartialEq, Eq)]
pub enum EndFault {
    /// The desk of that number, the least, was not handed in.
    Missing(u32),
    /// Memory was refused for what is handed over.
    NoMemory,
}

/// A bench that is not ended: it runs on, and its desks are handed back.
pub struct NotEnded {
    pub fault: EndFault,
    pub live: Live,
    pub desks: Vec<LiveDesk>,
}

impl Drop for NotEnded {
    fn drop(self) {
        let NotEnded {
            fault: _,
            live,
            desks,
        } = self;
    }
}
