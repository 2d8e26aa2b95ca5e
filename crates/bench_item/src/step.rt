//! The steps of the bench, and why one is refused.

ghost use Rattle.std.specs.Prelude.{◌≡◌};
ghost use Rattle.bench_item.specs.Steps.{number_of};
ghost use Rattle.bench_item.specs.declared.step.StepFault.TheVariants.{NoMemory};

use crate::key::Key;
use crate::source::Source;
use base_list::Octets;
use std::alloc::{AllocError, AllocFailed};
use tab_step::Event;

/// A step of the bench: each is taken as a whole or refused.
#[derive(Drop)]
pub enum Step {
    /// A connection was accepted; it has the next number.
    Joined,
    /// The connection that was dialled is open.
    Dialled(u32),
    /// Octets came on a connection; there may be none.
    Came { line: u32, piece: Octets },
    /// A connection is lost, or could not be opened.
    Lost(u32),
    /// A desk tells a machine an event. Its kind is a place in the book of laws.
    Told { desk: u32, key: Key, event: Event },
    /// The timer of the machine of that number fires, as it was armed with that generation.
    Fired { machine: u64, generation: u64 },
    /// The oldest item of the source's outbox goes into its hand.
    Lift(Source),
    /// The item in the source's hand goes where it is for.
    Drop(Source),
    /// A shard handles the oldest item of its inbox.
    Work(u32),
}

/// Why a step is refused. Where several hold, the first in this order is told.
#[derive(Clone, Copy)]
pub enum StepFault {
    /// There is no such connection, shard, desk, peer, session's name or kind that can be told.
    Unknown,
    /// The connection is closed; or octets are to come on one that is not open yet.
    Closed,
    /// The shard is paused.
    Paused,
    /// There is nothing to take: an empty outbox, hand or inbox, a full hand, a timer that is not armed so, or a
    /// connection that is not being dialled.
    Nothing,
    /// The log, the connections or the place where items would wait are full.
    Full,
    /// Memory was refused.
    NoMemory,
}

impl StepFault {
    /// The number that is printed for it.
    pub fn number(self) -> u8
        ensures { result ≡ number_of self }
    {
        match self {
            StepFault::Nothing => 1,
            StepFault::Unknown => 2,
            StepFault::Closed => 3,
            StepFault::Full => 4,
            StepFault::NoMemory => 5,
            StepFault::Paused => 6,
        }
    }
}

impl From<AllocError> for StepFault {
    ghost from_gives = { λ _ e. e ≡ NoMemory };

    fn from(_e: AllocError) -> StepFault {
        StepFault::NoMemory
    }
}

impl<T: Drop> From<AllocFailed<T>> for StepFault {
    ghost from_gives = { λ _ e. e ≡ NoMemory };

    fn from(_e: AllocFailed<T>) -> StepFault {
        StepFault::NoMemory
    }
}
