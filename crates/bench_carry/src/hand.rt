//! The item in the hand of a source, and whether there is room where it is for.
ghost use Rattle.std.specs.Prelude.{◌≡◌, ◌<◌, ◌≤◌, IfOk, false, is_some, length, option_copied, slice_get};
ghost use Rattle.std.specs.Option.{option_and_then, option_map_or};
ghost use Rattle.bench_item.specs.declared.limit.TheConstants.{MAX_SHARDS};
ghost use Rattle.bench_queue.specs.Outbox.{hand_out};
ghost use Rattle.bench_views.specs.Looks.{dropped_on, hand_of};
ghost use Rattle.bench_views.specs.Stored.{Stored};
ghost use Rattle.bench_carry.specs.Hands.{hand_on, is_home_crowded, lacks_room, with_hands};
ghost use Rattle.bench_carry.specs.Seen.{views_of};

use bench_item::{Item, Key, MAX_WAITING, Source, home};
use bench_line::Lines;
use bench_log::KeptItem;
use bench_queue::Outbox;
use bench_shard::ShardState;
use line_message::Listener;
use std::alloc::{AllocError, Global};

/// How many items of a connection were dropped, if it is there.
fn dropped_on(carried: &[usize], line: u32) -> Option<usize>
    ensures { result ≡ dropped_on carried.now line }
{
    if line == 0 {
        return None;
    }
    carried.get(line as usize - 1).copied()
}

/// The item in the hand of a connection, if one lies there.
fn held_on_line<'a>(
    lines: &'a Lines<Listener>,
    carried: &[usize],
    line: u32,
) -> Option<&'a KeptItem>
    ensures { option_copied result ≡ hand_on lines.now.lines carried.now line }
{
    let count = dropped_on(carried, line)?;
    if count >= lines.lifted(line as u64) {
        return None;
    }
    lines.item(line as u64, count)
}

/// The item in the hand at the outbox at a place, if one lies there.
fn held_at(outboxes: &[Outbox], place: usize) -> Option<&KeptItem>
    ensures { option_copied result ≡ option_and_then hand_out (slice_get (views_of outboxes.now) place) }
{
    match outboxes.get(place) {
        None => None,
        Some(outbox) => outbox.hand_kept(),
    }
}

/// The item in the hand of a shard, if one lies there.
fn held_in_shard(shards: &[ShardState], place: usize) -> Option<&KeptItem>
    ensures { option_copied result ≡ option_and_then (λ v. hand_out v.outbox) (slice_get shards.now place) }
{
    match shards.get(place) {
        None => None,
        Some(shard) => shard.hand_kept(),
    }
}

/// A copy of an item that is kept, if there is one.
pub(crate) fn copy(kept: Option<&KeptItem>) -> Result<Option<KeptItem>, AllocError>
    ensures { IfOk result (λ copy. copy ≡ option_copied kept.entry) }
{
    match kept {
        None => Ok(None),
        Some(kept) => Ok(Some(kept.copy()?)),
    }
}

/// An item that is kept, if there is one.
fn show(alloc: Global, kept: Option<&KeptItem>) -> Result<Option<Item>, AllocError>
    ensures { IfOk result (λ item. item ≡ option_copied kept.entry) }
{
    match kept {
        None => Ok(None),
        Some(kept) => Ok(Some(kept.show(alloc)?)),
    }
}

/// The item in the hand of a source as it is kept, if one lies there. Takes no memory.
pub fn hand_kept<'a>(
    shards: &'a [ShardState],
    outboxes: &'a [Outbox],
    lines: &'a Lines<Listener>,
    carried: &[usize],
    source: Source,
) -> Option<&'a KeptItem>
    ensures { (s : Stored) → option_copied result
        ≡ hand_of source (with_hands s shards.now outboxes.now lines.now.lines carried.now) }
{
    match source {
        Source::Line(line) => held_on_line(lines, carried, line),
        Source::Shard(shard) => held_in_shard(shards, shard as usize),
        Source::Desk(desk) => held_at(outboxes, desk as usize + 1),
        Source::Clock => held_at(outboxes, 0),
    }
}

/// The item in the hand of a source, if one lies there.
pub fn hand_item(
    alloc: Global,
    shards: &[ShardState],
    outboxes: &[Outbox],
    lines: &Lines<Listener>,
    carried: &[usize],
    source: Source,
) -> Result<Option<Item>, AllocError>
    ensures { IfOk result (λ item. (s : Stored)
        → item ≡ hand_of source (with_hands s shards.now outboxes.now lines.now.lines carried.now)) }
{
    show(alloc, hand_kept(shards, outboxes, lines, carried, source))
}

/// A copy of the item in the hand of a source, as it is kept, if one lies there.
pub fn hand_copy(
    shards: &[ShardState],
    outboxes: &[Outbox],
    lines: &Lines<Listener>,
    carried: &[usize],
    source: Source,
) -> Result<Option<KeptItem>, AllocError>
    ensures { IfOk result (λ item. (s : Stored)
        → item ≡ hand_of source (with_hands s shards.now outboxes.now lines.now.lines carried.now)) }
{
    copy(hand_kept(shards, outboxes, lines, carried, source))
}

/// Whether an item lies in the hand of a source. Takes no memory.
pub fn has_hand(
    shards: &[ShardState],
    outboxes: &[Outbox],
    lines: &Lines<Listener>,
    carried: &[usize],
    source: Source,
) -> bool
    ensures { (s : Stored)
        → result ≡ is_some (hand_of source (with_hands s shards.now outboxes.now lines.now.lines carried.now)) }
{
    hand_kept(shards, outboxes, lines, carried, source).is_some()
}

/// Whether as many items as may wait at the shard of a machine.
fn is_home_crowded(shards: &[ShardState], key: &Key) -> bool
    requires some { 0 < length shards.now }
    requires few { length shards.now ≤ MAX_SHARDS }
    ensures { result ≡ is_home_crowded shards.now key.now }
{
    match shards.get(home(shards.len(), key)) {
        None => false,
        Some(shard) => shard.waiting() >= MAX_WAITING,
    }
}

/// Whether there is no room where an item is for, if there is one: in the inbox of its machine's shard, or for one more
/// connection.
fn kept_lacks_room(shards: &[ShardState], lines: &Lines<Listener>, kept: Option<&KeptItem>) -> bool
    requires some { 0 < length shards.now }
    requires few { length shards.now ≤ MAX_SHARDS }
    ensures { result ≡ option_map_or (lacks_room shards.now lines.now.lines) (option_copied kept.entry) false }
{
    let Some(kept) = kept else {
        return false;
    };
    match kept.key() {
        Some(key) => is_home_crowded(shards, key),
        None => kept.is_dial() && lines.is_full(),
    }
}

/// Whether an item lies in the hand of a source for which there is no room where it is for. Takes no memory.
pub fn hand_lacks_room(
    shards: &[ShardState],
    outboxes: &[Outbox],
    lines: &Lines<Listener>,
    carried: &[usize],
    source: Source,
) -> bool
    requires some { 0 < length shards.now }
    requires few { length shards.now ≤ MAX_SHARDS }
    ensures { (s : Stored) → result ≡ option_map_or (lacks_room shards.now lines.now.lines)
        (hand_of source (with_hands s shards.now outboxes.now lines.now.lines carried.now)) false }
{
    let kept = hand_kept(shards, outboxes, lines, carried, source);
    kept_lacks_room(shards, lines, kept)
}
