//! What the entries of a shard that were stamped before a look say of it, one after the other.
ghost use Rattle.std.specs.Prelude.{◌≡◌, ◌<◌, ◌≤◌, ◌||◌, IfOk, None, length, map, option_to_list};
ghost use Rattle.std.specs.List.{list_any};
ghost use Rattle.bench_item.specs.declared.item.Item.TheVariants.{ToMachine};
ghost use Rattle.bench_item.specs.declared.limit.TheConstants.{MAX_SHARDS};
ghost use Rattle.bench_item.specs.declared.source.Source.TheVariants.{Desk};
ghost use Rattle.bench_looks.specs.Before.{before};
ghost use Rattle.bench_looks.specs.Tallies.{AreMet, came, is_key, left_after, taken_keys};
ghost use Rattle.bench_parts.specs.Views.{kept_in};
ghost use Rattle.bench_spec.specs.Items.{dropped, worked};
ghost use Rattle.bench_spec.specs.Machines.{moves_in, moves_of};

use crate::before::{entry_before, places};
use crate::counts::{add_came, worked_in};
use crate::key::taken_key;
use crate::told::met_after;
use bench_item::{Entry, Handled, Item, Key, MachineItem, is_same_key};
use bench_parts::{KeptLook, Lent};
use std::alloc::{AllocError, Global};
use tab_step::MachineState;

/// What the entries of a shard say of a look of a desk at a machine.
#[derive(Drop)]
pub(crate) struct Tally {
    /// How many of the items that the desk told were dropped, all in their order; none where others were.
    pub met: Option<usize>,
    /// Of each item that came, whether the desk dropped it.
    pub came: Vec<bool>,
    /// How many items were worked.
    pub worked: usize,
    /// Where the last move of the machine left it, if it moved.
    pub left: Option<MachineState>,
    /// Whether an item of the machine was handled.
    pub there: bool,
}

/// Where an entry leaves a machine.
fn left_in(left: Option<MachineState>, key: &Key, entry: &Entry) -> Option<MachineState>
    ensures { result ≡ left_after left (moves_in key.now entry.now) }
{
    match (&entry.item, &entry.handled) {
        (Some(Item::ToMachine(item)), Some(Handled::Move(moved))) => {
            if is_same_key(key, &item.key) {
                Some(moved.after)
            } else {
                left
            }
        }
        _ => left,
    }
}

/// Where an entry, if there is one, leaves a machine.
fn left_by(left: Option<MachineState>, key: &Key, entry: &Option<Entry>) -> Option<MachineState>
    ensures { result ≡ left_after left (moves_of (option_to_list entry.now) key.now) }
{
    match entry {
        None => left,
        Some(entry) => left_in(left, key, entry),
    }
}

/// Whether an entry, if there is one, handled an item of a machine.
fn is_taken(key: &Key, entry: &Option<Entry>) -> bool
    ensures { result ≡ list_any (is_key key.now) (taken_keys (option_to_list entry.now)) }
{
    let Some(entry) = entry else {
        return false;
    };
    match taken_key(entry) {
        None => false,
        Some(own) => is_same_key(own, key),
    }
}

/// Whether an item of a machine was handled before, or in an entry, if there is one.
fn is_there(there: bool, key: &Key, entry: &Option<Entry>) -> bool
    ensures { result ≡ (there || list_any (is_key key.now) (taken_keys (option_to_list entry.now))) }
{
    there || is_taken(key, entry)
}

/// What the entries of a shard, of so many, that were stamped before a look of a desk say of it, where the desk had
/// told the shard these items before.
pub(crate) fn tally_of(
    alloc: Global,
    part: &Lent<'_>,
    look: &KeptLook,
    told: &[MachineItem],
    shards: usize,
    shard: usize,
    desk: usize,
) -> Result<Tally, AllocError>
    requires some { 0 < shards }
    requires few { shards ≤ MAX_SHARDS }
    ensures met { IfOk result (λ tally.
        AreMet (map ToMachine told.now) (dropped (before look.now.stamp (kept_in part.now)) (Desk desk)) tally.met) }
    ensures came { IfOk result (λ tally.
        tally.came.items ≡ came shards shard desk (before look.now.stamp (kept_in part.now))) }
    ensures worked { IfOk result (λ tally.
        tally.worked ≡ length (worked (before look.now.stamp (kept_in part.now)) shard)) }
    ensures left { IfOk result (λ tally.
        tally.left ≡ left_after None (moves_of (before look.now.stamp (kept_in part.now)) look.now.key)) }
    ensures there { IfOk result (λ tally.
        tally.there ≡ list_any (is_key look.now.key) (taken_keys (before look.now.stamp (kept_in part.now)))) }
{
    let mut met = Some(0);
    let mut all = Vec::new(alloc);
    let mut count = 0;
    let mut left = None;
    let mut there = false;
    let end = places(part);
    for place in 0..end {
        let entry = entry_before(alloc, part, place, look.stamp)?;
        met = met_after(told, met, desk, &entry);
        add_came(&mut all, shards, shard, desk, &entry)?;
        count += worked_in(shard, &entry);
        left = left_by(left, &look.key, &entry);
        there = is_there(there, &look.key, &entry);
    }
    Ok(Tally {
        met,
        came: all,
        worked: count,
        left,
        there,
    })
}
