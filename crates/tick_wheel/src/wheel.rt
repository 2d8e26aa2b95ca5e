//! The wheel.
ghost use Rattle.std.specs.Prelude.{◌≡◌, List, IsTrue, IsSome, OnOk, OnErr, IfOk, max, Option, length};
ghost use Rattle.std.specs.FinMap as map;
ghost use Rattle.std.specs.FinSet as set;
ghost use Rattle.tick_wheel.specs.Timers.{at_start, after_arm, after_advance, with_timer_of, reached, IsDueFiring};
ghost use Rattle.tick_wheel.specs.Timers.{AreFired, AreAlike, Timers};
ghost use Rattle.tick_wheel.specs.declared.timer.Armed.{Armed};
ghost use Rattle.tick_wheel.specs.declared.timer.Firing.{Firing};

use crate::places::{Places, Seen, bound_with, count_due, disarm_due, look, put, sort};
use crate::{Armed, Firing};
use indexmap::IndexMap;
use std::alloc::{AllocError, Global};
use std::marker::Model;

/// Timers of owners, at most one for each, over a clock that is handed in. An owner is a number, as that of a machine.
/// Moments and lengths are in ticks; what a tick is, the caller says (RFC 8506 section 13 gives its timers in seconds).
///
/// An owner that was armed once keeps a place for good, so that to disarm, to fire or to restore a timer takes no
/// memory. `arm`, `disarm`, `restore` and `armed` go by a hash of the owner. `advance` costs nothing until some timer
/// may be due, and then looks at every place.
#[derive(Drop)]
pub struct Wheel {
    moment: u64,
    // No timer is due before it.
    earliest: u64,
    places: Places,
}

impl Model for Wheel {
    ghost use Rattle.std.specs.FinSet.{from_list};
    ghost use Rattle.std.specs.Map.{keys_of};
    ghost use Rattle.tick_wheel.specs.Timers.{Timers, timers_code};
    ghost use Rattle.tick_wheel.specs.Places.{armed_of, NoneDueBefore};

    ghost Value = { Timers };

    ghost coded = { timers_code };

    ghost view = { λ w. record {
      moment = w.moment;
      armed = armed_of w.places.entries;
      places = from_list (keys_of w.places.entries);
    } };

    ghost invariant = { λ w. NoneDueBefore w.earliest (armed_of w.places.entries) };
}

impl Wheel {
    /// A wheel at moment 0 with no timers. Takes no memory until the first is armed.
    pub fn new(alloc: Global) -> Wheel
        ensures { result ≡ at_start }
    {
        Wheel {
            moment: 0,
            earliest: u64::MAX,
            places: IndexMap::new(alloc),
        }
    }

    /// The last moment.
    pub fn moment(&self) -> u64
        ensures { result ≡ self.now.moment }
    {
        self.moment
    }

    /// The owner's timer. Takes no memory.
    pub fn armed(&self, owner: u64) -> Option<Armed>
        ensures armed { result ≡ map.get self.now.armed owner }
        ensures placed { IsSome result → IsTrue (set.contains self.now.places owner) }
    {
        match self.places.get(&owner) {
            Some(timer) => *timer,
            None => None,
        }
    }

    /// Whether the owner has a place, which it has from its first timer on. Takes no memory.
    pub fn has_place(&self, owner: u64) -> bool
        ensures { result ≡ set.contains self.now.places owner }
    {
        self.places.contains_key(&owner)
    }

    /// Arms the owner's timer in the place of the one it had.
    /// It is due so many ticks after the last moment, and at 2^64 - 1 if that is earlier.
    pub fn arm(&mut self, owner: u64, generation: u64, ticks: u64) -> Result<(), AllocError>
        ensures ok { OnOk result (self.new ≡ after_arm self.old owner generation ticks) }

        // Only an owner that was never armed may lack memory.
        ensures fresh { OnErr result (IsTrue (set.contains self.old.places owner) → ⊥) }
        ensures err { OnErr result (self.new ≡ self.old) }
    {
        let due = self.moment.saturating_add(ticks);
        let timer = Some(Armed { generation, due });
        self.places.insert(owner, timer)?;
        self.earliest = bound_with(self.earliest, timer);
        Ok(())
    }

    /// Disarms the owner's timer, if it has one. Takes no memory.
    pub fn disarm(&mut self, owner: u64)
        ensures { self.new ≡ with_timer_of self.old owner None }
    {
        put(&mut self.places, owner, None);
    }

    /// Gives the owner the timer that it had, or none, as `armed` told it. Takes no memory. An `arm` or `disarm` is
    /// undone by it: the moment and the armed timers are as before, and the owner keeps its place.
    pub fn restore(&mut self, owner: u64, old: Option<Armed>)
        requires { IsTrue (set.contains self.old.places owner) }
        ensures restored { self.new ≡ with_timer_of self.old owner old }

        // Where the last change gave the owner another timer, the wheel is as before that change.
        ensures back { (before : Timers) (timer : Option Armed) → AreAlike self.old (with_timer_of before owner timer)
            → old ≡ map.get before.armed owner → AreAlike self.new before }
    {
        self.earliest = bound_with(self.earliest, old);
        put(&mut self.places, owner, old);
    }

    /// How many timers `advance` would fire at a moment,
    /// so that a caller can make room for them first. Takes no memory.
    pub fn due_at(&self, moment: u64) -> usize
        ensures { (fired : List Firing) → AreFired self.now.armed (reached self.now moment) fired
            → result ≡ length fired }
    {
        let reached = moment.max(self.moment);
        if self.earliest > reached {
            return 0;
        }
        count_due(&self.places, reached)
    }

    /// Takes the clock to a moment, and disarms the timers that are due and answers them, by due moment and then owner.
    /// A moment below the last one counts as the last one.
    pub fn advance(&mut self, moment: u64) -> Result<Vec<Firing>, AllocError>
        ensures ok { OnOk result (self.new ≡ after_advance self.old (reached self.old moment)) }
        ensures fired { IfOk result (λ fired. AreFired self.old.armed (reached self.old moment) fired.items) }

        // No other list is the answer.
        ensures only { IfOk result (λ fired. (other : List Firing) →
            AreFired self.old.armed (reached self.old moment) other → other ≡ fired.items) }

        // Memory is asked for only where a timer is due.
        ensures due { OnErr result ((firing : Firing) × IsDueFiring self.old.armed (reached self.old moment) firing) }
        ensures err { OnErr result (self.new ≡ self.old) }
    {
        let now = moment.max(self.moment);
        let alloc = *self.places.allocator();
        if now < self.earliest {
            self.moment = now;
            return Ok(Vec::new(alloc));
        }
        let Seen { mut due, earliest } = look(alloc, &self.places, now)?;
        sort(&mut due);
        disarm_due(&mut self.places, now);
        self.moment = now;
        self.earliest = earliest;
        Ok(due)
    }
}
