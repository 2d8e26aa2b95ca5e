//! The timers' part: armed, disarmed, fired, what fired lifted.
ghost use Rattle.std.specs.Prelude.{◌≡◌, ◌<◌, [], None, false, nat_eq, Some, IfOk, IfErr, OnOk, OnErr, length};
ghost use Rattle.std.specs.Prelude.{map, option_to_list, unwrap_or};
ghost use Rattle.std.specs.Arc.{arc_value};
ghost use Rattle.bench_item.specs.Keys.{Configured};
ghost use Rattle.bench_queue.specs.Outbox.{items_out, next_out, nothing_out, put_out};
ghost use Rattle.bench_parts.specs.Views.{kept_in};
ghost use Rattle.bench_spec.specs.Merged.{Did};
ghost use Rattle.bench_spec.specs.Refusal.{is_empty};
ghost use Rattle.indexmap.specs.IndexMap.{insert_entry, spare};
ghost use Rattle.live_parts.specs.Clocks.{IsFired, drop_refusal, entries_of, fire_refusal, fired_item, is_armed};
ghost use Rattle.live_parts.specs.Clocks.{key_of, lift_refusal, with_arm, with_disarm, with_lift};

use crate::due::Keys;
use crate::entries::{fired_entry, lift_entry, timer_entry};
use crate::stamped::StampedLog;
use bench_desk::CarryFault;
use bench_item::{Item, Key, Source};
use bench_log::{KeptItem, Log};
use bench_move::{Roles, firing_item};
use bench_parts::Lent;
use bench_queue::Outbox;
use indexmap::IndexMap;
use std::alloc::{AllocError, Global};
use std::marker::Model;
use std::sync::Arc;
use tick_wheel::Wheel;

/// The timers of a node's machines, what fired and waits, and the entries of their part of the log:
/// what fired, what was lifted from them, and what was dropped at them. Each entry has the stamp that was drawn for it.
///
/// In: `arm`, `disarm`, `fire`, `pass`. Out: `lift`. Looks: `due`, `waiting`, `len`, `stamps`, `log`, `lent`.
pub struct ClockPart {
    pub(crate) alloc: Global,
    pub(crate) roles: Arc<Roles, Global>,
    pub(crate) wheel: Wheel,
    // The machines that had a timer, by their numbers, each with its key if that is known.
    pub(crate) keys: Keys,
    pub(crate) outbox: Outbox,
    pub(crate) log: StampedLog,
}

// A derived `drop` is proved anew in each crate that holds a part; this one is a call.
impl Drop for ClockPart {
    fn drop(self) {
        let ClockPart {
            alloc: _,
            roles,
            wheel,
            keys,
            outbox,
            log,
        } = self;
    }
}

impl Model for ClockPart {
    ghost use Rattle.std.specs.Prelude.{map};
    ghost use Rattle.std.specs.Arc.{arc_value};
    ghost use Rattle.live_parts.specs.Clocks.{AreSo, ClockView, clock_view};

    ghost Value = { ClockView };

    ghost view = { λ c. clock_view (arc_value c.roles).laws c.wheel c.keys.entries c.outbox.view c.log.entries };

    ghost invariant = { λ c. AreSo c.wheel c.keys.entries c.outbox.view (map (λ s. s.entry) c.log.entries) };
}

/// The item as it is kept, if there is one.
fn keep_item(alloc: Global, item: &Option<Item>) -> Result<Option<KeptItem>, AllocError>
    ensures { IfOk result (λ kept. kept ≡ item.now) }
{
    match item {
        None => Ok(None),
        Some(item) => Ok(Some(KeptItem::keep(alloc, item)?)),
    }
}

/// The same key in memory of its own.
fn copy_key(alloc: Global, key: &Key) -> Result<Key, AllocError>
    ensures { IfOk result (λ copy. copy ≡ key.now) }
{
    let name = key.name.copy(alloc)?;
    let role = key.role;
    Ok(Key { role, name })
}

/// The same, if there is one.
fn copy_if(alloc: Global, key: &Option<Key>) -> Result<Option<Key>, AllocError>
    ensures { IfOk result (λ copy. copy ≡ key.now) }
{
    match key {
        None => Ok(None),
        Some(key) => Ok(Some(copy_key(alloc, key)?)),
    }
}

/// Keeps that a machine had a timer, for which there is room.
fn know(keys: &mut Keys, machine: u64, key: Option<Key>)
    requires { 0 < spare keys.old }
    ensures { keys.new.entries ≡ insert_entry nat_eq keys.old.entries machine key }
{
    if keys.insert(machine, key).is_err() {
        unreachable!();
    }
}

/// Puts an item out, for which there is room, if there is one.
fn put_out(outbox: &mut Outbox, item: Option<KeptItem>)
    requires { 0 < outbox.old.room }
    ensures { outbox.new.view ≡ put_out outbox.old.view (option_to_list item) }
{
    match item {
        None => {}
        Some(item) => outbox.put(item),
    }
}

impl ClockPart {
    /// The part of timers of which none was armed yet, at moment 0. Takes no memory.
    pub fn new(alloc: Global, roles: Arc<Roles, Global>) -> ClockPart
        ensures { result ≡ record {
          laws = (arc_value roles).laws;
          moment = 0;
          keys = [];
          places = [];
          outbox = nothing_out;
          entries = [];
        } }
    {
        ClockPart {
            alloc,
            roles,
            wheel: Wheel::new(alloc),
            keys: IndexMap::new(alloc),
            outbox: Outbox::new(alloc),
            log: StampedLog::new(alloc),
        }
    }

    /// How many entries its part of the log has.
    pub fn len(&self) -> usize
        ensures { result ≡ length self.now.entries }
    {
        self.log.len()
    }

    /// Its entries with their stamps, lent to who gathers them.
    pub fn lent(&self) -> Lent<'_>
        ensures { kept_in result ≡ map Did self.now.entries }
    {
        self.log.lent()
    }

    /// The stamps of its entries, in order.
    pub fn stamps(&self) -> &[u64]
        ensures { result.now ≡ map (λ s. s.stamp) self.now.entries }
    {
        self.log.stamps()
    }

    /// The entries of its part, in order.
    pub fn log(&self) -> &Log
        ensures { result.now.entries ≡ entries_of self.now }
    {
        self.log.log()
    }

    /// How many items fired and wait to be lifted.
    pub fn waiting(&self) -> usize
        ensures { result ≡ length (items_out self.now.outbox) }
    {
        self.outbox.waiting()
    }

    // Whether a machine's timer is armed with that generation.
    fn is_armed(&self, machine: u64, generation: u64) -> bool
        ensures { result ≡ is_armed self.now machine generation }
    {
        match self.wheel.armed(machine) {
            None => false,
            Some(timer) => timer.generation == generation,
        }
    }

    // The key of a machine, if it had a timer and is known.
    fn known(&self, machine: u64) -> Result<Option<Key>, AllocError>
        ensures { IfOk result (λ key. key ≡ key_of self.now machine) }
    {
        match self.keys.get(&machine) {
            None => Ok(None),
            Some(key) => copy_if(self.alloc, key),
        }
    }

    // What a machine's timer fires, of that generation.
    fn fired_item(&self, machine: u64, generation: u64) -> Result<Option<Item>, AllocError>
        ensures { IfOk result (λ item. (peers : Configured)
            → option_to_list item ≡ fired_item self.now peers machine generation) }
    {
        match self.known(machine)? {
            None => Ok(None),
            Some(key) => firing_item(self.alloc, self.roles.laws(), key, generation),
        }
    }

    /// A timer that is armed with that generation fires: it is armed no longer, and its event is put out.
    pub fn fire(&mut self, machine: u64, generation: u64, stamp: u64) -> Result<(), CarryFault>
        ensures could { OnOk result (fire_refusal self.old machine generation ≡ None) }
        ensures ok { OnOk result (IsFired self.old self.new machine generation stamp) }
        ensures fault { IfErr result (λ f. f
            ≡ unwrap_or (fire_refusal self.old machine generation) CarryFault.NoMemory) }
        // A refused call changes nothing.
        ensures err { OnErr result (self.new ≡ self.old) }
    {
        if !self.is_armed(machine, generation) {
            return Err(CarryFault::Nothing);
        }
        if self.log.is_full() {
            return Err(CarryFault::Full);
        }
        let item = self.fired_item(machine, generation)?;
        let post = keep_item(self.alloc, &item)?;
        let entry = fired_entry(self.alloc, machine, generation, item)?;
        self.log.reserve()?;
        self.outbox.reserve(1)?;
        put_out(&mut self.outbox, post);
        self.wheel.disarm(machine);
        self.log.put(stamp, entry);
        Ok(())
    }

    // The oldest item that fired and waits, of which there is one.
    fn next(&self) -> Result<KeptItem, AllocError>
        requires { is_empty (items_out self.now.outbox) ≡ false }
        ensures { IfOk result (λ item. next_out self.now.outbox ≡ Some item) }
    {
        match self.outbox.next_kept() {
            Some(item) => item.copy(),
            None => unreachable!(),
        }
    }

    /// Why nothing is lifted, memory aside. Takes no memory.
    pub fn lift_refusal(&self) -> Option<CarryFault>
        ensures { result ≡ lift_refusal self.now }
    {
        if self.waiting() == 0 {
            return Some(CarryFault::Nothing);
        }
        if self.log.is_full() {
            return Some(CarryFault::Full);
        }
        None
    }

    /// Lifts the oldest item that fired, and hands it out. The entry shares it.
    pub fn lift(&mut self, stamp: u64) -> Result<KeptItem, CarryFault>
        ensures could { OnOk result (lift_refusal self.old ≡ None) }
        ensures item { IfOk result (λ item. next_out self.old.outbox ≡ Some item) }
        ensures ok { IfOk result (λ item. self.new ≡ with_lift self.old stamp item) }
        ensures fault { IfErr result (λ f. f ≡ unwrap_or (lift_refusal self.old) CarryFault.NoMemory) }
        ensures err { OnErr result (self.new ≡ self.old) }
    {
        if let Some(fault) = self.lift_refusal() {
            return Err(fault);
        }
        let item = self.next()?;
        let entry = lift_entry(Source::Clock, &item)?;
        self.log.reserve()?;
        self.outbox.lift();
        self.outbox.drop_hand();
        self.log.put(stamp, entry);
        Ok(item)
    }

    /// A source drops here that the timer of a machine is armed.
    /// The key is that machine's, for what fires; without one nothing fires.
    pub fn arm(
        &mut self,
        source: Source,
        machine: u64,
        generation: u64,
        ticks: u64,
        key: &Option<Key>,
        stamp: u64,
    ) -> Result<(), CarryFault>
        ensures could { OnOk result (drop_refusal self.old ≡ None) }
        ensures ok { OnOk result (self.new ≡ with_arm self.old source machine generation ticks key.now stamp) }
        ensures fault { IfErr result (λ f. f ≡ unwrap_or (drop_refusal self.old) CarryFault.NoMemory) }
        ensures err { OnErr result (self.new ≡ self.old) }
    {
        if self.log.is_full() {
            return Err(CarryFault::Full);
        }
        let item = Item::Arm {
            machine,
            generation,
            ticks,
        };
        let entry = timer_entry(self.alloc, source, item)?;
        let own = copy_if(self.alloc, key)?;
        self.log.reserve()?;
        self.keys.reserve(1)?;
        self.wheel.arm(machine, generation, ticks)?;
        know(&mut self.keys, machine, own);
        self.log.put(stamp, entry);
        Ok(())
    }

    /// A source drops here that the timer of a machine is disarmed.
    pub fn disarm(&mut self, source: Source, machine: u64, stamp: u64) -> Result<(), CarryFault>
        ensures could { OnOk result (drop_refusal self.old ≡ None) }
        ensures ok { OnOk result (self.new ≡ with_disarm self.old source machine stamp) }
        ensures fault { IfErr result (λ f. f ≡ unwrap_or (drop_refusal self.old) CarryFault.NoMemory) }
        ensures err { OnErr result (self.new ≡ self.old) }
    {
        if self.log.is_full() {
            return Err(CarryFault::Full);
        }
        let item = Item::Disarm { machine };
        let entry = timer_entry(self.alloc, source, item)?;
        self.log.reserve()?;
        self.wheel.disarm(machine);
        self.log.put(stamp, entry);
        Ok(())
    }
}
