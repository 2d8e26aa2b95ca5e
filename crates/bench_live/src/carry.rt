//! An item goes where it is for.
ghost use Rattle.std.specs.Prelude.{◌≡◌, None, false, true};
ghost use Rattle.bench_log.specs.Targets.{event_in};
ghost use Rattle.live_parts.specs.Clocks.{with_arm, with_disarm};
ghost use Rattle.live_parts.specs.LineParts.{is_for_lines};
ghost use Rattle.bench_live.specs.Carried.{DropsAtClock, DropsAtLines};

use crate::shared::{ShardLock, Shared};
use base_lock::hold;
use bench_desk::CarryFault;
use bench_item::{Item, Key, MAX_SHARDS, Source, home};
use bench_log::{KeptItem, KeptMachineItem};
use live_parts::{ClockPart, LinesPart};
use live_slot::{Hand, Turn, draw};
use std::sync::Wait;
use std::sync::atomic::AtomicU64;

/// An item comes from a source to the connections, whose lock is held, with a stamp that is drawn now.
fn drop_under(lines: &mut LinesPart, stamps: &AtomicU64, source: Source, item: &KeptItem) -> Turn
    requires { is_for_lines item.now ≡ true }
    ensures { DropsAtLines result lines.old lines.new source item.now }
{
    let stamp = draw(stamps);
    match lines.drop_here(source, item, stamp) {
        Ok(()) => Turn::Done,
        Err(CarryFault::NoMemory) => Turn::NoMemory,
        Err(CarryFault::Nothing | CarryFault::Full) => Turn::Idle,
    }
}

/// A source arms the timer of a machine, under the lock of the timers, with a stamp that is drawn now.
fn arm_under(
    clock: &mut ClockPart,
    stamps: &AtomicU64,
    source: Source,
    machine: u64,
    generation: u64,
    ticks: u64,
    key: &Option<Key>,
) -> Turn
    ensures { DropsAtClock result clock.old clock.new
        (λ stamp. with_arm clock.old source machine generation ticks key.now stamp) }
{
    let stamp = draw(stamps);
    match clock.arm(source, machine, generation, ticks, key, stamp) {
        Ok(()) => Turn::Done,
        Err(CarryFault::NoMemory) => Turn::NoMemory,
        Err(CarryFault::Nothing | CarryFault::Full) => Turn::Idle,
    }
}

/// A source disarms the timer of a machine, under the lock of the timers, with a stamp that is drawn now.
fn disarm_under(clock: &mut ClockPart, stamps: &AtomicU64, source: Source, machine: u64) -> Turn
    ensures { DropsAtClock result clock.old clock.new (λ stamp. with_disarm clock.old source machine stamp) }
{
    let stamp = draw(stamps);
    match clock.disarm(source, machine, stamp) {
        Ok(()) => Turn::Done,
        Err(CarryFault::NoMemory) => Turn::NoMemory,
        Err(CarryFault::Nothing | CarryFault::Full) => Turn::Idle,
    }
}

impl Shared {
    // The shard that an item is for.
    fn shard_for(&self, item: &KeptMachineItem) -> Option<&ShardLock> {
        let count = self.shards.len();
        if count == 0 || count > MAX_SHARDS {
            return None;
        }
        self.shards.get(home(count, item.key()))
    }

    /// Whether an item is for a shard, or a deed for the connections, whose lock another thread holds now.
    pub(crate) fn is_busy(&self, hand: &Hand) -> bool {
        let Some(item) = hand.item.event() else {
            return hand.item.deed().is_some() && self.lines.try_lock().is_none();
        };
        match self.shard_for(item) {
            None => false,
            Some(shard) => shard.slot.try_lock().is_none(),
        }
    }

    // An item comes from a source to the shard that it is for.
    fn arrive<R: Wait>(&self, rt: &R, source: Source, item: &KeptMachineItem) -> Turn {
        let Some(shard) = self.shard_for(item) else {
            return Turn::Idle;
        };
        let turn = self.arrive_at(rt, shard, source, item);
        // Who is woken finds the lock free.
        shard.moved.notify_all();
        turn
    }

    // An item comes from a source to a shard.
    fn arrive_at<R: Wait>(
        &self,
        rt: &R,
        shard: &ShardLock,
        source: Source,
        item: &KeptMachineItem,
    ) -> Turn {
        let mut slot = hold(rt, &shard.slot);
        let stamp = draw(&self.stamps);
        slot.arrive(source, item, stamp)
    }

    // An item comes from a source to the connections.
    fn drop_at_lines<R: Wait>(&self, rt: &R, source: Source, item: &KeptItem) -> Turn
        requires { is_for_lines item.now ≡ true }
    {
        let mut lines = hold(rt, &self.lines);
        drop_under(&mut lines, &self.stamps, source, item)
    }

    // A source arms the timer of a machine.
    fn arm<R: Wait>(
        &self,
        rt: &R,
        source: Source,
        machine: u64,
        generation: u64,
        ticks: u64,
        key: &Option<Key>,
    ) -> Turn {
        let mut clock = hold(rt, &self.clock);
        arm_under(
            &mut clock.part,
            &self.stamps,
            source,
            machine,
            generation,
            ticks,
            key,
        )
    }

    // A source disarms the timer of a machine.
    fn disarm<R: Wait>(&self, rt: &R, source: Source, machine: u64) -> Turn {
        let mut clock = hold(rt, &self.clock);
        disarm_under(&mut clock.part, &self.stamps, source, machine)
    }

    // Drops what is for no machine, where it is for, and says whether that is the connections. Its plain form is small,
    // but for a deed's.
    fn drop_elsewhere<R: Wait>(&self, rt: &R, source: Source, hand: &Hand) -> (Turn, bool)
        requires { event_in hand.now.item ≡ None }
        ensures { result.0 ≡ Turn.Done → result.1 ≡ is_for_lines hand.now.item }
    {
        let Ok(plain) = hand.item.show(self.alloc) else {
            return (Turn::NoMemory, false);
        };
        match plain {
            Item::ToMachine(_) => unreachable!(),
            Item::ToLine(_) | Item::Dial { .. } | Item::Undial { .. } => {
                (self.drop_at_lines(rt, source, &hand.item), true)
            }
            Item::Arm {
                machine,
                generation,
                ticks,
            } => {
                let turn = self.arm(rt, source, machine, generation, ticks, &hand.key);
                (turn, false)
            }
            Item::Disarm { machine } => (self.disarm(rt, source, machine), false),
        }
    }

    /// Drops what a source has lifted, where it is for, and says whether that is the connections. One whose machine was
    /// not looked up for want of memory is not dropped yet.
    pub(crate) fn drop_item<R: Wait>(&self, rt: &R, source: Source, hand: &Hand) -> (Turn, bool)
        ensures unnamed { hand.now.is_named ≡ false → result.0 ≡ Turn.NoMemory }
        ensures at_lines { result.0 ≡ Turn.Done → result.1 ≡ is_for_lines hand.now.item }
    {
        if !hand.is_named {
            return (Turn::NoMemory, false);
        }
        match hand.item.event() {
            Some(event) => (self.arrive(rt, source, event), false),
            None => match hand.item.deed() {
                Some(_deed) => (self.drop_at_lines(rt, source, &hand.item), true),
                None => self.drop_elsewhere(rt, source, hand),
            },
        }
    }
}
