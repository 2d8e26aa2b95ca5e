//! Which timers are due.
ghost use Rattle.std.specs.Prelude.{◌≡◌, [], nat_eq, IfOk, IsFalse, IsPermutation, IsTrue, AllPairs};
ghost use Rattle.indexmap.specs.IndexMap.{IsUnique};
ghost use Rattle.tick_wheel.specs.Places.{NotAfter, firing_of, firings_of};
ghost use Rattle.tick_wheel.specs.Timers.{AreFired, after_advance, reached};
ghost use Rattle.live_parts.specs.Clocks.{AreDue, passed, places_of};

use crate::clock::ClockPart;
use bench_item::Key;
use indexmap::IndexMap;
use std::alloc::{AllocError, Global};
use tick_wheel::{Armed, Firing, Wheel};

/// The machines that had a timer, by their numbers, each with its key if that is known.
pub(crate) type Keys = IndexMap<u64, Option<Key>>;

/// The firing of a timer that is due.
fn firing_of(owner: u64, timer: Option<Armed>, now: u64) -> Option<Firing>
    ensures { result ≡ firing_of now (owner, timer) }
{
    let Armed { generation, due } = timer?;
    if due <= now {
        Some(Firing {
            due,
            owner,
            generation,
        })
    } else {
        None
    }
}

/// The firings of the timers of these machines that are due.
fn find_due(alloc: Global, wheel: &Wheel, keys: &Keys, now: u64) -> Result<Vec<Firing>, AllocError>
    ensures due { IfOk result (λ due. due.items ≡ firings_of now (places_of wheel.now.armed keys.now.entries)) }
    ensures unique { IsUnique nat_eq keys.now }
{
    let mut due = Vec::new(alloc);
    for (owner, _key) in keys {
        if let Some(firing) = firing_of(*owner, wheel.armed(*owner), now) {
            due.push(firing)?;
        }
    }
    Ok(due)
}

/// Sorts firings by due moment and then machine.
fn sort(firings: &mut Vec<Firing>)
    ensures same { IsPermutation firings.old.items firings.new.items }
    ensures ordered { AllPairs NotAfter firings.new.items }
{
    firings.sort_unstable();
}

/// Takes timers to a moment at which none is due. Says whether it did.
fn pass_time(wheel: &mut Wheel, moment: u64) -> bool
    ensures passed { IsTrue result → AreFired wheel.old.armed (reached wheel.old moment) []
        × (wheel.new ≡ after_advance wheel.old (reached wheel.old moment)) }
    ensures due { IsFalse result
        → (AreFired wheel.old.armed (reached wheel.old moment) [] → ⊥) × (wheel.new ≡ wheel.old) }
{
    if wheel.due_at(moment) > 0 {
        return false;
    }
    let Ok(_none) = wheel.advance(moment) else {
        return false;
    };
    true
}

impl ClockPart {
    /// The timers that are due at a moment, each once, by due moment and then machine.
    /// A moment below the last one counts as the last one. Nothing changes.
    pub fn due(&self, moment: u64) -> Result<Vec<Firing>, AllocError>
        ensures { IfOk result (λ due. AreDue self.now moment due.items) }
    {
        let now = moment.max(self.wheel.moment());
        let mut due = find_due(self.alloc, &self.wheel, &self.keys, now)?;
        sort(&mut due);
        Ok(due)
    }

    /// The clock comes to a moment at which nothing is due: timers are armed from there on.
    /// Where something is due nothing changes. Says which. Takes no memory.
    pub fn pass(&mut self, moment: u64) -> bool
        ensures passed { IsTrue result → AreDue self.old moment [] × (self.new ≡ passed self.old moment) }
        ensures due { IsFalse result → (AreDue self.old moment [] → ⊥) × (self.new ≡ self.old) }
    {
        pass_time(&mut self.wheel, moment)
    }
}
