//! What a desk told a shard before a look, and whether an item is the next of it.
ghost use Rattle.std.specs.Prelude.{◌≡◌, ◌≢◌, ◌<◌, ◌≤◌, ◌+◌, ◌++◌, IfNone, IfOk, IfSome, List, OnOk, Some};
ghost use Rattle.std.specs.Prelude.{flat_map, map, option_copied, option_to_list, slice_get};
ghost use Rattle.std.specs.Bool.{Decides};
ghost use Rattle.bench_item.specs.declared.item.Item.{Item as AnyItem};
ghost use Rattle.bench_item.specs.declared.item.Item.TheVariants.{ToMachine};
ghost use Rattle.bench_item.specs.declared.limit.TheConstants.{MAX_SHARDS};
ghost use Rattle.bench_looks.specs.Before.{before};
ghost use Rattle.bench_looks.specs.Tallies.{AreMet, drops, tells, told_by};
ghost use Rattle.bench_parts.specs.Views.{kept_in};

use crate::before::{entry_before, places};
use crate::key::copy_key;
use base_list::Octets;
use bench_item::{Condition, Entry, Item, KeptEvent, MachineItem, Source, Step, home, is_same_key};
use bench_parts::Lent;
use std::alloc::{AllocError, Global};
use tab_step::Event;

/// What a step has a desk tell a machine of a shard, of so many.
fn tell_of(
    alloc: Global,
    shards: usize,
    shard: usize,
    desk: usize,
    step: &Step,
) -> Result<Option<MachineItem>, AllocError>
    requires some { 0 < shards }
    requires few { shards ≤ MAX_SHARDS }
    ensures { IfOk result (λ item. option_to_list item ≡ tells shards shard desk step.now) }
{
    match step {
        Step::Told {
            desk: own,
            key,
            event,
        } => {
            if *own as usize == desk && home(shards, key) == shard {
                Ok(Some(MachineItem {
                    key: copy_key(alloc, key)?,
                    event: KeptEvent::keep(alloc, event)?,
                    condition: None,
                    session: Octets::new(Vec::new(alloc)),
                }))
            } else {
                Ok(None)
            }
        }
        _ => Ok(None),
    }
}

/// Adds what an entry, if there is one, has a desk tell a machine of a shard.
fn add_told(
    alloc: Global,
    told: &mut Vec<MachineItem>,
    shards: usize,
    shard: usize,
    desk: usize,
    entry: &Option<Entry>,
) -> Result<(), AllocError>
    requires some { 0 < shards }
    requires few { shards ≤ MAX_SHARDS }
    ensures { OnOk result (told.new.items
        ≡ told.old.items ++ told_by shards shard desk (option_to_list entry.now)) }
{
    let Some(entry) = entry else {
        return Ok(());
    };
    match tell_of(alloc, shards, shard, desk, &entry.step)? {
        None => Ok(()),
        Some(item) => {
            told.push(item)?;
            Ok(())
        }
    }
}

/// What a desk, whose part this is, had told a shard before.
pub(crate) fn told_before(
    alloc: Global,
    part: &Lent<'_>,
    stamp: u64,
    shards: usize,
    shard: usize,
    desk: usize,
) -> Result<Vec<MachineItem>, AllocError>
    requires some { 0 < shards }
    requires few { shards ≤ MAX_SHARDS }
    ensures { IfOk result (λ told. told.items ≡ told_by shards shard desk (before stamp (kept_in part.now))) }
{
    let mut told = Vec::new(alloc);
    let count = places(part);
    for place in 0..count {
        let entry = entry_before(alloc, part, place, stamp)?;
        add_told(alloc, &mut told, shards, shard, desk, &entry)?;
    }
    Ok(told)
}

/// Whether two events are one.
fn is_same_event(one: &Event, other: &Event) -> bool
    ensures { Decides result (one.now ≡ other.now) }
{
    one.kind == other.kind && one.facts == other.facts
}

/// Whether two conditions are one.
fn is_same_condition(one: Option<Condition>, other: Option<Condition>) -> bool
    ensures { Decides result (one ≡ other) }
{
    match (one, other) {
        (None, None) => true,
        (Some(one), Some(other)) => one.register == other.register && one.value == other.value,
        _ => false,
    }
}

/// Whether two events for machines are one.
fn is_same(one: &MachineItem, other: &MachineItem) -> bool
    ensures { Decides result (one.now ≡ other.now) }
{
    let key = is_same_key(&one.key, &other.key);
    let event = is_same_event(&one.event.show(), &other.event.show());
    let condition = is_same_condition(one.condition, other.condition);
    let session = one.session.as_slice() == other.session.as_slice();
    key && event && condition && session
}

/// Whether an item is this event for a machine.
fn is_item(own: &MachineItem, item: &Item) -> bool
    ensures { Decides result (ToMachine own.now ≡ item.now) }
{
    match item {
        Item::ToMachine(other) => is_same(own, other),
        _ => false,
    }
}

/// How many items that were told are met with the next; none where it is another one.
fn meets_at(told: &[MachineItem], met: usize, item: &Item) -> Option<usize>
    ensures some { IfSome result (λ next. (next ≡ met + 1) × (slice_get (map ToMachine told.now) met ≡ Some item.now)) }
    ensures none { IfNone result (slice_get (map ToMachine told.now) met ≢ Some item.now) }
{
    match told.get(met) {
        None => None,
        Some(own) => {
            if is_item(own, item) {
                Some(met + 1)
            } else {
                None
            }
        }
    }
}

/// What an entry drops from a desk.
fn dropped_in(desk: usize, entry: &Entry) -> Option<&Item>
    ensures { option_to_list (option_copied result) ≡ drops desk entry.now }
{
    match entry.step {
        Step::Drop(Source::Desk(own)) => {
            if own as usize == desk {
                entry.item.as_ref()
            } else {
                None
            }
        }
        _ => None,
    }
}

/// How many items that a desk told are met after an entry, if there is one.
pub(crate) fn met_after(
    told: &[MachineItem],
    met: Option<usize>,
    desk: usize,
    entry: &Option<Entry>,
) -> Option<usize>
    ensures { (dropped : List AnyItem) → AreMet (map ToMachine told.now) dropped met
        → AreMet (map ToMachine told.now) (dropped ++ flat_map (drops desk) (option_to_list entry.now)) result }
{
    let Some(entry) = entry else {
        return met;
    };
    match (met, dropped_in(desk, entry)) {
        (None, _) => None,
        (met, None) => met,
        (Some(met), Some(item)) => meets_at(told, met, item),
    }
}
