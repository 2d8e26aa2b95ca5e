//! The item in the hand of a source is dropped where it is for.
ghost use Rattle.std.specs.Prelude.{◌≡◌, ◌+◌, ◌-◌, ◌<◌, ◌≤◌, ℕ, IfOk, OnErr, OnOk, Some, false};
ghost use Rattle.std.specs.Prelude.{length, slice_get, true};
ghost use Rattle.bench_item.specs.declared.limit.TheConstants.{MAX_SHARDS};
ghost use Rattle.bench_queue.specs.Outbox.{OutboxState, dropped_one, has_hand, undropped_one};
ghost use Rattle.bench_shard.specs.View.{ShardView, with_outbox};
ghost use Rattle.bench_undo.specs.declared.undo.Undo.{Undo};
ghost use Rattle.bench_views.specs.Behind.{changed_at, dropped_from};
ghost use Rattle.bench_views.specs.Looks.{dropped_on};
ghost use Rattle.bench_views.specs.Stored.{Stored};
ghost use Rattle.bench_carry.specs.Dropped.{DropsTo, meaning_to, with_parts};
ghost use Rattle.bench_carry.specs.Hands.{CanBeDropped, Holds, lacks_room, lifted_by, with_hands};
ghost use Rattle.bench_carry.specs.Placed.{IsPlaced};
ghost use Rattle.bench_carry.specs.Seen.{views_of};
ghost use Rattle.bench_carry.specs.Undone.{BooksNothing, undone, undropped};

use crate::arrive::arrive;
use bench_item::Source;
use bench_line::Lines;
use bench_log::KeptItem;
use bench_queue::Outbox;
use bench_shard::ShardState;
use bench_undo::Undo;
use line_message::Listener;
use std::alloc::{AllocError, Global};
use tick_wheel::Wheel;

/// How many items of a source were lifted, if it is a connection.
fn lifted_by(lines: &Lines<Listener>, source: Source) -> usize
    ensures { result ≡ lifted_by source lines.now.lines }
{
    match source {
        Source::Line(line) => lines.lifted(line as u64),
        _ => 0,
    }
}

// One more item of a connection is dropped, where fewer were than lifted.
fn drop_of_line(carried: &mut [usize], lifted: usize, line: u32)
    requires { (count : ℕ) × (dropped_on carried.old line ≡ Some count) × (count < lifted) }
    ensures dropped { carried.new ≡ changed_at (line - 1) (λ n. n + 1) carried.old }
    ensures undone { changed_at (line - 1) (λ n. n - 1) carried.new ≡ carried.old }
{
    let place = line as usize - 1;
    if carried[place] < lifted {
        carried[place] += 1;
    }
}

// Drops the item in a shard's hand.
fn drop_of_shard(shards: &mut [ShardState], place: usize)
    requires { (v : ShardView) × (slice_get shards.old place ≡ Some v) × (has_hand v.outbox ≡ true) }
    ensures dropped { shards.new ≡ changed_at place (λ v. with_outbox v (dropped_one v.outbox)) shards.old }
    ensures undone { changed_at place (λ v. with_outbox v (undropped_one v.outbox)) shards.new ≡ shards.old }
{
    shards[place].drop_hand();
}

// Drops the item in the hand at the outbox at a place.
fn drop_at_outbox(outboxes: &mut [Outbox], place: usize)
    requires { (o : OutboxState) × (slice_get outboxes.old place ≡ Some o) × (has_hand o.view ≡ true) }
    ensures dropped { views_of outboxes.new ≡ changed_at place dropped_one (views_of outboxes.old) }
    ensures undone { changed_at place undropped_one (views_of outboxes.new) ≡ views_of outboxes.old }
{
    outboxes[place].drop_hand();
}

// Empties the hand of a source. If it is a connection, so many of its items were lifted.
fn empty_hand(
    shards: &mut [ShardState],
    outboxes: &mut [Outbox],
    carried: &mut [usize],
    lifted: usize,
    source: Source,
)
    requires { Holds source shards.old outboxes.old lifted carried.old }
    ensures dropped { (s : Stored) → with_hands s shards.new outboxes.new s.lines carried.new
        ≡ dropped_from source (with_hands s shards.old outboxes.old s.lines carried.old) }
    ensures undone { (s : Stored) → undropped source (with_hands s shards.new outboxes.new s.lines carried.new)
        ≡ with_hands s shards.old outboxes.old s.lines carried.old }
{
    match source {
        Source::Line(line) => drop_of_line(carried, lifted, line),
        Source::Shard(shard) => drop_of_shard(shards, shard as usize),
        Source::Desk(desk) => drop_at_outbox(outboxes, desk as usize + 1),
        Source::Clock => drop_at_outbox(outboxes, 0),
    }
}

/// Drops the item in the hand of a source where it is for, where there is room for it. Answers what takes that back.
pub fn drop_at(
    alloc: Global,
    shards: &mut [ShardState],
    outboxes: &mut [Outbox],
    lines: &mut Lines<Listener>,
    carried: &mut Vec<usize>,
    wheel: &mut Wheel,
    source: Source,
    item: &KeptItem,
) -> Result<Undo, AllocError>
    requires some { 0 < length shards.old }
    requires few { length shards.old ≤ MAX_SHARDS }
    requires held { CanBeDropped source shards.old outboxes.old lines.old.lines carried.old.items }
    requires room { lacks_room shards.old lines.old.lines item.now ≡ false }
    ensures dropped { OnOk result ((s : Stored) → DropsTo (meaning_to lines.old.rules) source item.now
        (with_parts s shards.old outboxes.old lines.old.lines carried.old.items wheel.old.armed)
        (with_parts s shards.new outboxes.new lines.new.lines carried.new.items wheel.new.armed)) }
    ensures undone { IfOk result (λ undo. (s : Stored)
        → undone undo (with_parts s shards.new outboxes.new lines.new.lines carried.new.items wheel.new.armed)
        ≡ with_parts s shards.old outboxes.old lines.old.lines carried.old.items wheel.old.armed) }
    ensures placed { IfOk result (λ undo. IsPlaced wheel.new undo) }
    ensures unbooked { IfOk result BooksNothing }
    // What was placed before is placed still.
    ensures places { (undo : Undo) → IsPlaced wheel.old undo → IsPlaced wheel.new undo }
    ensures rules { lines.new.rules ≡ lines.old.rules }
    // A refused call changes nothing, of room in vectors apart.
    ensures err { OnErr result ((shards.new ≡ shards.old) × (outboxes.new ≡ outboxes.old) × (lines.new ≡ lines.old)
        × (carried.new.items ≡ carried.old.items) × (wheel.new ≡ wheel.old)) }
{
    let lifted = lifted_by(lines, source);
    let arrival = arrive(alloc, shards, lines, carried, wheel, item)?;
    empty_hand(shards, outboxes, carried, lifted, source);
    Ok(Undo::Dropped { source, arrival })
}
