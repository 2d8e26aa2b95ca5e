//! The entry of a step that works no shard is added as it is.
ghost use Rattle.std.specs.Prelude.{◌≡◌, ◌≢◌, ◌<◌, ◌↔◌, IfOk, IsErrOf, IsTrue, OnOk, OnErr, length};
ghost use Rattle.bench_spec.specs.Legal.{MayFollow};
ghost use Rattle.bench_spec.specs.Taken.{GoesBackTo, Replays};
ghost use Rattle.bench_core.specs.Entries.{carried_entry};
ghost use Rattle.bench_core.specs.Replaying.{IsCarried, IsSingle, last_item};

use crate::keeping::Core;
use crate::replay::ReplayError;
use bench_carry::are_items_same;
use bench_item::{Item, Step};
use std::alloc::AllocError;

/// Whether two entries carry the same item, or none.
fn are_carried_same(one: &Option<Item>, other: &Option<Item>) -> bool
    ensures { IsTrue result ↔ (one.now ≡ other.now) }
{
    match one {
        None => other.is_none(),
        Some(a) => match other {
            None => false,
            Some(b) => are_items_same(a, b),
        },
    }
}

impl Core {
    // Of a step that works no shard, one entry at most may follow.
    fn single(&self, step: &Step)
        requires { IsCarried step.now }
        ensures { IsSingle self.now.settings self.now.log step.now }
    {
        let _entries = self.log.len();
    }

    // Whether the last entry carries this item.
    fn carries(&self, item: &Option<Item>) -> Result<bool, AllocError>
        ensures { IfOk result (λ same. IsTrue same ↔ (item.now ≡ last_item self.now.log)) }
    {
        let place = self.log.len().saturating_sub(1);
        let last = self.log.item(place, self.alloc)?;
        Ok(are_carried_same(item, &last))
    }

    // Takes back a step, where one was taken.
    fn unstep(&mut self)
        requires { 0 < length self.old.log }
        ensures { GoesBackTo self.old self.new }
    {
        if !self.back() {
            unreachable!()
        }
    }

    // Keeps the last step where it carries this item, and takes it back where it carries another.
    fn settle(&mut self, item: &Option<Item>) -> Result<(), ReplayError>
        requires { 0 < length self.old.log }
        ensures kept { OnOk result (self.new ≡ self.old) }
        ensures same { OnOk result (item.now ≡ last_item self.old.log) }
        ensures other { IsErrOf result ReplayError.Illegal → item.now ≢ last_item self.old.log }
        ensures back { OnErr result (GoesBackTo self.old self.new) }
    {
        let fault = match self.carries(item) {
            Ok(true) => return Ok(()),
            Ok(false) => ReplayError::Illegal,
            Err(AllocError) => ReplayError::NoMemory,
        };
        self.unstep();
        Err(fault)
    }

    // Adds the entry of a step that works no shard, with the item that it carries.
    pub(crate) fn replay_carried(
        &mut self,
        step: Step,
        item: &Option<Item>,
    ) -> Result<(), ReplayError>
        requires { IsCarried step }
        ensures ok { OnOk result (Replays self.old self.new (carried_entry step item.now)) }
        ensures illegal { IsErrOf result ReplayError.Illegal
            → MayFollow self.old.settings self.old.log (carried_entry step item.now) → ⊥ }
        ensures err { OnErr result (self.new ≡ self.old) }
    {
        if self.refusal(&step).is_some() {
            return Err(ReplayError::Illegal);
        }
        self.single(&step);
        match self.take_carried(step) {
            Ok(()) => self.settle(item),
            Err(AllocError) => Err(ReplayError::NoMemory),
        }
    }
}
