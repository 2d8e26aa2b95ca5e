//! A shard's part with its callbacks.
ghost use Rattle.std.specs.Prelude.{◌≡◌, ◌||◌, None, Some, IfErr, IfOk, IsTrue, OnErr, OnOk, is_none, true, false};
ghost use Rattle.std.specs.Prelude.{is_some, unwrap_or};
ghost use Rattle.bench_desk.specs.Moves.{Holds};
ghost use Rattle.bench_desk.specs.Working.{IsWorked, lift_refusal, paused_part, with_lift};
ghost use Rattle.bench_desk.specs.Working.{work_refusal};
ghost use Rattle.bench_log.specs.Targets.{deed_in, event_in};
ghost use Rattle.bench_queue.specs.Outbox.{next_out};
ghost use Rattle.bench_shard.specs.Tasks.{IsTask};
ghost use Rattle.bench_live.specs.Slots.{is_idle, key_for};

use acct_book::Page;
use bench_desk::{CarryFault, ShardPart};
use bench_item::{Item, Key};
use bench_log::KeptItem;
use bench_shard::{Task, WorkFault};
use live_slot::Hand;
use std::alloc::{AllocError, Global};
use tab_call::Registry;
use tab_step::Stepped;

/// A shard's part with its callbacks and the room for a step, and what is said to its worker.
///
/// In: `arrive`, `tell`, `set_paused`, `say`. Out: `work`, `lift`. Looks: `look`, `is_idle`.
pub struct Slot {
    pub(crate) alloc: Global,
    pub part: ShardPart,
    pub registry: Registry,
    pub room: Box<Stepped>,
    /// An item found no room here: whoever makes some calls all workers.
    pub wanted: bool,
    /// There may be room for the item in the worker's hand.
    pub called: bool,
    /// The bench ends.
    pub ending: bool,
    ghost laws: { registry.book ≡ part.tables.laws },
}

// A derived `drop` is proved anew in each crate that holds a slot; this one is a call.
impl Drop for Slot {
    fn drop(self) {
        let Slot {
            alloc: _,
            part,
            registry,
            room,
            wanted: _,
            called: _,
            ending: _,
        } = self;
    }
}

/// Whether an item is an event or a deed.
fn is_large(item: &KeptItem) -> bool
    ensures { result ≡ (is_some (event_in item.now) || is_some (deed_in item.now)) }
{
    item.event().is_some() || item.deed().is_some()
}

impl Slot {
    /// A shard's part and its callbacks, which are of its laws.
    pub fn new(alloc: Global, part: ShardPart, registry: Registry, room: Box<Stepped>) -> Slot
        requires { registry.book ≡ part.tables.laws }
        ensures part { result.part ≡ part }
        ensures quiet { (result.wanted ≡ false) × (result.called ≡ false) × (result.ending ≡ false) }
    {
        Slot {
            alloc,
            part,
            registry,
            room,
            wanted: false,
            called: false,
            ending: false,
        }
    }

    /// Its part and its callbacks, which are of its laws.
    pub fn into_parts(self) -> (ShardPart, Registry)
        ensures part { result.0 ≡ self.part }
        ensures laws { result.1.book ≡ result.0.tables.laws }
    {
        let Slot {
            alloc: _,
            part,
            registry,
            room,
            wanted: _,
            called: _,
            ending: _,
        } = self;
        (part, registry)
    }

    /// Whether it has something to handle, and may. Takes no memory.
    pub fn has_work(&self) -> bool
        ensures { result ≡ is_none (work_refusal self.now.part) }
    {
        self.part.work_refusal().is_none()
    }

    /// What it is to do next. `Task::page` says which page of the account book that needs.
    pub fn task(&self) -> Result<Task, WorkFault>
        ensures task { IfOk result (IsTask self.now.part.tables.laws self.now.part.shard) }
        ensures could { OnOk result (work_refusal self.now.part ≡ None) }
        ensures fault { IfErr result (λ f. f ≡ unwrap_or (work_refusal self.now.part) WorkFault.NoMemory) }
    {
        self.part.task()
    }

    /// Handles its oldest item, as `task` told it, with the page that this needs, whose lock is held; any page where it
    /// needs none. Refused for memory alone.
    pub fn work(&mut self, page: &mut Page, task: Task, stamp: u64) -> Result<(), AllocError>
        requires { IsTask self.old.part.tables.laws self.old.part.shard task }
        ensures ok { OnOk result (IsWorked self.old.part self.new.part page.old page.new stamp) }
        // A refused call changes nothing.
        ensures err { OnErr result (self.new.part ≡ self.old.part) }
        ensures page { OnErr result (Holds page.old page.new page.old.book) }
        ensures said { (self.new.wanted ≡ self.old.wanted) × (self.new.called ≡ self.old.called)
            × (self.new.ending ≡ self.old.ending) }
    {
        self.part
            .work(&self.registry, page, task, stamp, &mut self.room)?;
        Ok(())
    }

    // The key that goes with an item in its plain form: that of the machine whose timer it arms.
    fn plain_key_for(&self, item: &Item) -> Result<Option<Key>, AllocError>
        ensures { IfOk result (λ key. key ≡ key_for self.now.part item.now) }
    {
        match item {
            Item::Arm { machine, .. } => self.part.key_numbered(*machine),
            Item::ToMachine(_)
            | Item::ToLine(_)
            | Item::Dial { .. }
            | Item::Undial { .. }
            | Item::Disarm { .. } => Ok(None),
        }
    }

    // The key that goes with an item. With an event or a deed none goes; the plain form of others is small.
    fn key_for(&self, item: &KeptItem) -> Result<Option<Key>, AllocError>
        ensures { IfOk result (λ key. key ≡ key_for self.now.part item.now) }
    {
        if is_large(item) {
            return Ok(None);
        }
        let plain = item.show(self.alloc)?;
        self.plain_key_for(&plain)
    }

    /// Looks up the key that goes with an item, where that was not done yet. Without memory it is still to be done.
    pub fn name(&self, hand: &mut Hand)
        ensures item { hand.new.item ≡ hand.old.item }
        ensures kept { IsTrue hand.old.is_named → (hand.new.is_named ≡ true) × (hand.new.key ≡ hand.old.key) }
        ensures named { hand.old.is_named ≡ false → IsTrue hand.new.is_named
            → hand.new.key ≡ key_for self.now.part hand.old.item }
    {
        if hand.is_named {
            return;
        }
        let Ok(key) = self.key_for(&hand.item) else {
            return;
        };
        hand.key = key;
        hand.is_named = true;
    }

    /// Lifts the oldest item that was put out, and hands it out; its key is still to be looked up.
    pub fn lift(&mut self, stamp: u64) -> Result<Hand, CarryFault>
        ensures item { IfOk result (λ hand. next_out self.old.part.shard.outbox ≡ Some hand.item) }
        ensures ok { IfOk result (λ hand. self.new.part ≡ with_lift self.old.part stamp hand.item) }
        ensures named { IfOk result (λ hand. hand.is_named ≡ false) }
        ensures fault { IfErr result (λ f. f ≡ unwrap_or (lift_refusal self.old.part) CarryFault.NoMemory) }
        // A refused call changes nothing.
        ensures err { OnErr result (self.new.part ≡ self.old.part) }
        ensures said { (self.new.wanted ≡ self.old.wanted) × (self.new.called ≡ self.old.called)
            × (self.new.ending ≡ self.old.ending) }
    {
        let item = self.part.lift(stamp)?;
        Ok(Hand {
            item,
            key: None,
            is_named: false,
        })
    }

    /// Stops, or goes on. Nothing else changes.
    pub fn set_paused(&mut self, paused: bool)
        ensures part { self.new.part ≡ paused_part self.old.part paused }
        ensures said { (self.new.wanted ≡ self.old.wanted) × (self.new.called ≡ self.old.called)
            × (self.new.ending ≡ self.old.ending) }
    {
        if paused {
            self.part.pause();
        } else {
            self.part.resume();
        }
    }

    /// Says to its worker that there may be room, or that the bench ends.
    pub fn say(&mut self, ending: bool)
        ensures part { self.new.part ≡ self.old.part }
        ensures called { self.new.called ≡ true }
        ensures ending { self.new.ending ≡ (self.old.ending || ending) }
        ensures wanted { self.new.wanted ≡ self.old.wanted }
    {
        self.called = true;
        self.ending = self.ending || ending;
    }

    /// Its worker hears that there may be room.
    pub fn hear(&mut self)
        ensures part { self.new.part ≡ self.old.part }
        ensures called { self.new.called ≡ false }
        ensures ending { self.new.ending ≡ self.old.ending }
        ensures wanted { self.new.wanted ≡ self.old.wanted }
    {
        self.called = false;
    }

    /// Whether an item found no room here since this was asked last.
    pub fn take_wanted(&mut self) -> bool
        ensures wanted { result ≡ self.old.wanted }
        ensures part { self.new.part ≡ self.old.part }
        ensures taken { self.new.wanted ≡ false }
        ensures said { (self.new.called ≡ self.old.called) × (self.new.ending ≡ self.old.ending) }
    {
        let wanted = self.wanted;
        self.wanted = false;
        wanted
    }

    /// Whether its worker has nothing to do: it was not called, nothing is to be worked, and nothing is to be lifted or
    /// its hand is full.
    pub fn is_idle(&self, has_hand: bool) -> bool
        ensures { result ≡ is_idle self.now.part self.now.called self.now.ending has_hand }
    {
        !self.ending
            && !self.called
            && self.part.work_refusal().is_some()
            && (has_hand || self.part.lift_refusal().is_some())
    }
}
