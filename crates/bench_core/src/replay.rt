//! An entry is added as it is: for a log that is run again.
ghost use Rattle.std.specs.Prelude.{◌≡◌, IsErrOf, OnOk, OnErr};
ghost use Rattle.bench_item.specs.declared.step.Step.TheVariants as steps;
ghost use Rattle.bench_spec.specs.Legal.{MayFollow};
ghost use Rattle.bench_spec.specs.Taken.{Replays};
ghost use Rattle.bench_core.specs.Entries.{whole_entry};
ghost use Rattle.bench_core.specs.Replaying.{IsCarried, work_parts};

use crate::keeping::Core;
use bench_item::{Entry, Handled, Item, MachineItem, Step};
use std::alloc::AllocError;
use std::mem;
use tab_step::Stepped;
use thiserror::Error;

/// Why an entry is not added as it is. Nothing has changed then.
#[derive(Clone, Copy, Debug, PartialEq, Eq, Error)]
pub enum ReplayError {
    /// It may not follow the entries before it.
    #[error("the entry may not follow the log")]
    Illegal,
    /// Memory was refused.
    #[error("out of memory")]
    NoMemory,
}

impl From<AllocError> for ReplayError {
    ghost use Rattle.bench_core.specs.declared.replay.ReplayError.TheVariants.{NoMemory};

    ghost from_gives = { λ _ e. e ≡ NoMemory };

    fn from(_e: AllocError) -> ReplayError {
        ReplayError::NoMemory
    }
}

/// The item for a machine and what became of it, where both are there.
fn work_parts(item: Option<Item>, handled: Option<Handled>) -> Option<(MachineItem, Handled)>
    ensures { result ≡ work_parts item handled }
{
    match (item, handled) {
        (Some(Item::ToMachine(item)), Some(handled)) => Some((item, handled)),
        _ => None,
    }
}

impl Core {
    // Adds the entry of a step that works no shard: nothing is handled by it.
    fn replay_unworked(
        &mut self,
        step: Step,
        item: Option<Item>,
        handled: Option<Handled>,
    ) -> Result<(), ReplayError>
        requires { IsCarried step }
        ensures ok { OnOk result (Replays self.old self.new (whole_entry step item handled)) }
        ensures illegal { IsErrOf result ReplayError.Illegal
            → MayFollow self.old.settings self.old.log (whole_entry step item handled) → ⊥ }
        ensures err { OnErr result (self.new ≡ self.old) }
    {
        if handled.is_some() {
            return Err(ReplayError::Illegal);
        }
        self.replay_carried(step, &item)
    }

    // Adds the entry of a shard's work: there is an item for a machine, and what became of it.
    fn replay_worked(
        &mut self,
        shard: u32,
        item: Option<Item>,
        handled: Option<Handled>,
        room: &mut Stepped,
    ) -> Result<(), ReplayError>
        ensures ok { OnOk result (Replays self.old self.new (whole_entry (steps.Work shard) item handled)) }
        ensures illegal { IsErrOf result ReplayError.Illegal
            → MayFollow self.old.settings self.old.log (whole_entry (steps.Work shard) item handled) → ⊥ }
        ensures err { OnErr result (self.new ≡ self.old) }
    {
        match work_parts(item, handled) {
            None => Err(ReplayError::Illegal),
            Some((item, handled)) => self.replay_work(shard, item, handled, room),
        }
    }

    /// Adds an entry as it is, where it may follow those before it, whatever is paused. The callbacks are not asked:
    /// where a shard works, what the entry says of its item is checked by the laws. `room` is where a move is checked,
    /// and what stands there is gone. An entry is found to be another than the one that may follow by making that one,
    /// which takes memory: want of memory may be told first.
    pub fn replay(&mut self, entry: Entry, room: &mut Stepped) -> Result<(), ReplayError>
        ensures ok { OnOk result (Replays self.old self.new entry) }
        ensures illegal { IsErrOf result ReplayError.Illegal → MayFollow self.old.settings self.old.log entry → ⊥ }
        ensures err { OnErr result (self.new ≡ self.old) }
    {
        let mut entry = entry;
        let step = mem::replace(&mut entry.step, Step::Joined);
        let item = entry.item.take();
        let handled = entry.handled.take();
        match step {
            Step::Work(shard) => self.replay_worked(shard, item, handled, room),
            carried => self.replay_unworked(carried, item, handled),
        }
    }
}
