//! What came to a shard and what was worked there, and whether the counts of a look are these.
ghost use Rattle.std.specs.Prelude.{◌≡◌, ◌<◌, ◌≤◌, ◌+◌, ◌++◌, OnOk, filter, flat_map, length, option_to_list, take};
ghost use Rattle.std.specs.Bool.{Decides};
ghost use Rattle.bench_item.specs.Steps.{is_same_source};
ghost use Rattle.bench_item.specs.declared.limit.TheConstants.{MAX_SHARDS};
ghost use Rattle.bench_item.specs.declared.source.Source.TheVariants.{Desk};
ghost use Rattle.bench_looks.specs.Tallies.{came, comes, works};
ghost use Rattle.bench_spec.specs.Machines.{machine_item};

use bench_item::{Entry, Item, Source, Step, home};
use std::alloc::{AllocError, Global};

/// Whether a source is the desk.
fn is_desk(desk: usize, source: Source) -> bool
    ensures { result ≡ is_same_source (Desk desk) source }
{
    match source {
        Source::Desk(own) => desk == own as usize,
        Source::Line(_) | Source::Shard(_) | Source::Clock => false,
    }
}

/// Of an item that comes to a machine of a shard, of so many, whether the desk dropped it.
fn comes_in(shards: usize, shard: usize, desk: usize, entry: &Entry) -> Option<bool>
    requires some { 0 < shards }
    requires few { shards ≤ MAX_SHARDS }
    ensures { option_to_list result ≡ comes shards shard desk entry.now }
{
    match (&entry.step, &entry.item) {
        (Step::Drop(source), Some(Item::ToMachine(item))) => {
            if home(shards, &item.key) == shard {
                Some(is_desk(desk, *source))
            } else {
                None
            }
        }
        _ => None,
    }
}

/// Adds whether the desk dropped what comes in an entry, if there is one.
pub(crate) fn add_came(
    all: &mut Vec<bool>,
    shards: usize,
    shard: usize,
    desk: usize,
    entry: &Option<Entry>,
) -> Result<(), AllocError>
    requires some { 0 < shards }
    requires few { shards ≤ MAX_SHARDS }
    ensures { OnOk result (all.new.items ≡ all.old.items ++ came shards shard desk (option_to_list entry.now)) }
{
    let Some(entry) = entry else {
        return Ok(());
    };
    match comes_in(shards, shard, desk, entry) {
        None => Ok(()),
        Some(own) => {
            all.push(own)?;
            Ok(())
        }
    }
}

/// How many events for machines an entry has: one or none.
fn events_in(entry: &Entry) -> usize
    ensures count { result ≡ length (flat_map machine_item (option_to_list entry.now.item)) }
    ensures few { result ≤ 1 }
{
    match &entry.item {
        Some(Item::ToMachine(_)) => 1,
        _ => 0,
    }
}

/// How many items an entry works in a shard.
fn worked_at(shard: usize, entry: &Entry) -> usize
    ensures count { result ≡ length (works shard entry.now) }
    ensures few { result ≤ 1 }
{
    match entry.step {
        Step::Work(own) => {
            if own as usize == shard {
                events_in(entry)
            } else {
                0
            }
        }
        _ => 0,
    }
}

/// How many items an entry, if there is one, works in a shard.
pub(crate) fn worked_in(shard: usize, entry: &Option<Entry>) -> usize
    ensures count { result ≡ length (flat_map (works shard) (option_to_list entry.now)) }
    ensures few { result ≤ 1 }
{
    match entry {
        None => 0,
        Some(entry) => worked_at(shard, entry),
    }
}

/// How many of the first, as many as `worked`, are so.
pub(crate) fn handled_of(came: &[bool], worked: usize) -> usize
    ensures { result ≡ length (filter (λ own. own) (take worked came.now)) }
{
    let first = worked.min(came.len());
    let mut handled = 0;
    for place in 0..first {
        handled += usize::from(came[place]);
    }
    handled
}

/// Whether the counts of a look are these: so many of the items that a desk told were handled, and the rest waits.
pub(crate) fn are_these(look_waiting: u64, look_handled: u64, told: usize, handled: usize) -> bool
    ensures { Decides result ((look_handled ≡ handled) × (look_waiting + look_handled ≡ told)) }
{
    let told = told as u64;
    look_handled == handled as u64 && look_handled <= told && look_waiting == told - look_handled
}
