//! The timers' part, and what is said to its thread.
ghost use Rattle.std.specs.Prelude.{◌≡◌, ◌||◌, [], None, Some, IfErr, IfOk, OnErr, OnOk, false, true, unwrap_or};
ghost use Rattle.bench_queue.specs.Outbox.{next_out};
ghost use Rattle.live_parts.specs.Clocks.{AreDue, lift_refusal, passed, with_lift};
ghost use Rattle.live_slot.specs.Times.{HasPassed, IsHindered, StaysDue, is_idle};

use crate::hand::Hand;
use crate::turn::draw;
use bench_desk::CarryFault;
use live_parts::ClockPart;
use std::sync::atomic::AtomicU64;
use tick_wheel::Firing;

/// The timers' part, and what is said to its thread.
///
/// In: `advance`, `say`; `arm` and `disarm` of its part. Out: `lift`. Looks: `is_idle`.
pub struct ClockSlot {
    pub part: ClockPart,
    /// There may be room for the item in the thread's hand.
    pub called: bool,
    /// The bench ends.
    pub ending: bool,
}

// A derived `drop` is proved anew in each crate that holds a slot; this one is a call.
impl Drop for ClockSlot {
    fn drop(self) {
        let ClockSlot {
            part,
            called: _,
            ending: _,
        } = self;
    }
}

/// Fires a timer, if it is armed still.
fn fire(part: &mut ClockPart, firing: Firing, stamps: &AtomicU64) -> Result<(), CarryFault>
    ensures { IfErr result (IsHindered part.new) }
{
    match part.fire(firing.owner, firing.generation, draw(stamps)) {
        Ok(()) | Err(CarryFault::Nothing) => Ok(()),
        Err(fault) => Err(fault),
    }
}

/// Fires each timer that is due at a moment, by due moment and then machine.
fn fire_due(part: &mut ClockPart, moment: u64, stamps: &AtomicU64) -> Result<(), CarryFault>
    ensures { IfErr result (IsHindered part.new) }
{
    for firing in part.due(moment)? {
        fire(part, firing, stamps)?;
    }
    Ok(())
}

/// Takes the clock to a moment at which nothing is due.
fn pass(part: &mut ClockPart, moment: u64) -> Result<(), CarryFault>
    ensures due { OnOk result (AreDue part.old moment []) }
    ensures ok { OnOk result (part.new ≡ passed part.old moment) }
    ensures fault { IfErr result (StaysDue part.new moment) }
{
    if part.pass(moment) {
        Ok(())
    } else {
        Err(CarryFault::Nothing)
    }
}

/// Fires each timer that is due at a moment, by due moment and then machine, and takes the clock there. Where memory is
/// refused, or the part has as many entries as it may, the rest stays due.
fn advance(part: &mut ClockPart, moment: u64, stamps: &AtomicU64) -> Result<(), CarryFault>
    ensures ok { OnOk result (HasPassed part.new moment) }
    ensures fault { IfErr result (StaysDue part.new moment) }
{
    fire_due(part, moment, stamps)?;
    pass(part, moment)?;
    Ok(())
}

impl ClockSlot {
    /// A timers' part.
    pub fn new(part: ClockPart) -> ClockSlot
        ensures { result.part ≡ part }
    {
        ClockSlot {
            part,
            called: false,
            ending: false,
        }
    }

    /// Its part.
    pub fn into_part(self) -> ClockPart
        ensures { result ≡ self.part }
    {
        let ClockSlot {
            part,
            called: _,
            ending: _,
        } = self;
        part
    }

    /// Fires each timer that is due at a moment, and takes the clock there: nothing is due then. Where memory is
    /// refused, or the part has as many entries as it may, the rest stays due.
    pub fn advance(&mut self, moment: u64, stamps: &AtomicU64) -> Result<(), CarryFault>
        ensures ok { OnOk result (HasPassed self.new.part moment) }
        ensures fault { IfErr result (StaysDue self.new.part moment) }
        // What was said to its thread is kept.
        ensures called { self.new.called ≡ self.old.called }
        ensures ending { self.new.ending ≡ self.old.ending }
    {
        advance(&mut self.part, moment, stamps)
    }

    /// Lifts the oldest item that fired, and hands it out.
    pub fn lift(&mut self, stamp: u64) -> Result<Hand, CarryFault>
        ensures could { OnOk result (lift_refusal self.old.part ≡ None) }
        ensures item { IfOk result (λ hand. next_out self.old.part.outbox ≡ Some hand.item) }
        ensures ok { IfOk result (λ hand. self.new.part ≡ with_lift self.old.part stamp hand.item) }
        ensures named { IfOk result (λ hand. hand.is_named ≡ true) }
        ensures fault { IfErr result (λ f. f ≡ unwrap_or (lift_refusal self.old.part) CarryFault.NoMemory) }
        // A refused call changes nothing.
        ensures err { OnErr result (self.new.part ≡ self.old.part) }
        // What was said to its thread is kept.
        ensures called { self.new.called ≡ self.old.called }
        ensures ending { self.new.ending ≡ self.old.ending }
    {
        let item = self.part.lift(stamp)?;
        Ok(Hand {
            item,
            key: None,
            is_named: true,
        })
    }

    /// Says to the timers' thread that there may be room, or that the bench ends.
    pub fn say(&mut self, ending: bool)
        ensures part { self.new.part ≡ self.old.part }
        ensures called { self.new.called ≡ true }
        ensures ending { self.new.ending ≡ (self.old.ending || ending) }
    {
        self.called = true;
        self.ending = self.ending || ending;
    }

    /// Its thread hears that there may be room.
    pub fn hear(&mut self)
        ensures part { self.new.part ≡ self.old.part }
        ensures called { self.new.called ≡ false }
        ensures ending { self.new.ending ≡ self.old.ending }
    {
        self.called = false;
    }

    /// Whether its thread has nothing to do before the next tick.
    pub fn is_idle(&self, has_hand: bool) -> bool
        ensures { result ≡ is_idle self.now.part self.now.called self.now.ending has_hand }
    {
        !self.ending && !self.called && (has_hand || self.part.lift_refusal().is_some())
    }
}
