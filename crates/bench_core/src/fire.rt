//! A timer fires.
ghost use Rattle.std.specs.Prelude.{◌≡◌, ◌<◌, None, IfOk, OnOk, OnErr, length, option_to_list};
ghost use Rattle.bench_item.specs.Keys.{Configured, node_of};
ghost use Rattle.bench_item.specs.declared.step.Step.TheVariants as steps;
ghost use Rattle.bench_queue.specs.Outbox.{put_out, without_out};
ghost use Rattle.bench_spec.specs.Refusal.{refusal};
ghost use Rattle.bench_spec.specs.Taken.{Takes};
ghost use Rattle.bench_core.specs.Firings.{fired, numbered};

use crate::keeping::Core;
use crate::room::make_room;
use bench_item::{Entry, Item, Key, MAX_MACHINES, Step};
use bench_log::{KeptEntry, KeptItem};
use bench_move::firing_item;
use bench_queue::Outbox;
use bench_shard::ShardState;
use bench_undo::Undo;
use std::alloc::{AllocError, Global};
use tab_law::LawBook;

/// The machine of a number, if it is there.
pub(crate) fn key_numbered(
    alloc: Global,
    shards: &[ShardState],
    machine: u64,
) -> Result<Option<Key>, AllocError>
    ensures { IfOk result (λ key. key ≡ numbered shards.now machine) }
{
    let place = machine % MAX_MACHINES as u64;
    match shards.get((machine / MAX_MACHINES as u64) as usize) {
        None => Ok(None),
        Some(shard) => shard.key(alloc, place as usize),
    }
}

/// What a timer that was armed with a generation fires at the machine of a number.
fn fired_item(
    alloc: Global,
    laws: &LawBook,
    shards: &[ShardState],
    machine: u64,
    generation: u64,
) -> Result<Option<Item>, AllocError>
    ensures { IfOk result (λ item. (peers : Configured)
        → option_to_list item ≡ fired (node_of laws.now peers) shards.now machine generation) }
{
    match key_numbered(alloc, shards, machine)? {
        None => Ok(None),
        Some(key) => firing_item(alloc, laws, key, generation),
    }
}

/// The item as it is kept, if there is one.
fn keep_item(alloc: Global, item: &Option<Item>) -> Result<Option<KeptItem>, AllocError>
    ensures { IfOk result (λ kept. kept ≡ item.now) }
{
    match item {
        None => Ok(None),
        Some(item) => Ok(Some(KeptItem::keep(alloc, item)?)),
    }
}

/// The entry of a timer that fires, with what it puts out.
fn fired_entry(
    alloc: Global,
    machine: u64,
    generation: u64,
    item: Option<Item>,
) -> Result<KeptEntry, AllocError>
    ensures { IfOk result (λ kept. kept
        ≡ record { step = steps.Fired machine generation; item = item; handled = None }) }
{
    let entry = Entry {
        step: Step::Fired {
            machine,
            generation,
        },
        item,
        handled: None,
    };
    KeptEntry::keep(alloc, &entry)
}

/// Puts out an item for which there is room, if there is one. Says how many that are.
fn put_out(outbox: &mut Outbox, item: Option<KeptItem>) -> usize
    requires { 0 < outbox.old.room }
    ensures count { result ≡ length (option_to_list item) }
    ensures put { outbox.new.view ≡ put_out outbox.old.view (option_to_list item) }
    ensures undone { without_out outbox.new.view result ≡ outbox.old.view }
{
    match item {
        None => 0,
        Some(item) => {
            outbox.put(item);
            1
        }
    }
}

impl Core {
    /// A timer that is armed with that generation fires: it is armed no longer, and the clock puts its event out.
    pub(crate) fn fire(&mut self, machine: u64, generation: u64) -> Result<(), AllocError>
        requires { refusal self.old.settings self.old.log self.old.paused (steps.Fired machine generation) ≡ None }
        ensures ok { OnOk result (Takes self.old self.new (steps.Fired machine generation)) }
        ensures err { OnErr result (self.new ≡ self.old) }
    {
        let laws = self.roles.laws();
        let item = fired_item(self.alloc, laws, &self.shards, machine, generation)?;
        let post = keep_item(self.alloc, &item)?;
        let entry = fired_entry(self.alloc, machine, generation, item)?;
        make_room(&mut self.log, &mut self.undo)?;
        let outbox = &mut self.outboxes[0];
        outbox.reserve(1)?;
        let posted = put_out(outbox, post);
        let old = self.wheel.armed(machine);
        self.wheel.disarm(machine);
        self.log.put(entry);
        self.undo.put(Undo::Fired {
            machine,
            old,
            posted,
        });
        Ok(())
    }
}
