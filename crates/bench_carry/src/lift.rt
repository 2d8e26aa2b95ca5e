//! The oldest item that waits at a source is lifted into its hand.
ghost use Rattle.std.specs.Prelude.{◌≡◌, true, IfOk, option_copied, slice_get, Some};
ghost use Rattle.std.specs.Option.{option_and_then};
ghost use Rattle.bench_queue.specs.Outbox.{OutboxState, can_lift, lifted_one, next_out, unlifted_one};
ghost use Rattle.bench_shard.specs.View.{ShardView, with_outbox};
ghost use Rattle.bench_views.specs.Behind.{changed_at, lifted_from};
ghost use Rattle.bench_views.specs.Looks.{next_of};
ghost use Rattle.bench_views.specs.Stored.{Stored};
ghost use Rattle.tick_wheel.specs.Timers.{Timers};
ghost use Rattle.bench_carry.specs.Placed.{IsPlaced};
ghost use Rattle.bench_carry.specs.Seen.{CanBeLifted, views_of, with_seen};
ghost use Rattle.bench_carry.specs.Undone.{BooksNothing, undone};

use crate::hand::copy;
use bench_item::Source;
use bench_line::Lines;
use bench_log::KeptItem;
use bench_queue::Outbox;
use bench_shard::ShardState;
use bench_undo::Undo;
use line_message::Listener;
use std::alloc::AllocError;

/// The oldest item that waits in the outbox at a place, if one does.
fn next_at(outboxes: &[Outbox], place: usize) -> Option<&KeptItem>
    ensures { option_copied result ≡ option_and_then next_out (slice_get (views_of outboxes.now) place) }
{
    match outboxes.get(place) {
        None => None,
        Some(outbox) => outbox.next_kept(),
    }
}

/// The oldest item that waits at a shard, if one does.
fn next_in_shard(shards: &[ShardState], place: usize) -> Option<&KeptItem>
    ensures { option_copied result ≡ option_and_then (λ v. next_out v.outbox) (slice_get shards.now place) }
{
    match shards.get(place) {
        None => None,
        Some(shard) => shard.next_post_kept(),
    }
}

/// A copy of the oldest item that waits at a source, if one does.
pub fn next_item(
    shards: &[ShardState],
    outboxes: &[Outbox],
    lines: &Lines<Listener>,
    source: Source,
) -> Result<Option<KeptItem>, AllocError>
    ensures { IfOk result (λ item. (s : Stored)
        → item ≡ next_of source (with_seen s shards.now outboxes.now lines.now.lines)) }
{
    match source {
        Source::Line(line) => copy(lines.next(line as u64)),
        Source::Shard(shard) => copy(next_in_shard(shards, shard as usize)),
        Source::Desk(desk) => copy(next_at(outboxes, desk as usize + 1)),
        Source::Clock => copy(next_at(outboxes, 0)),
    }
}

// Lifts from a shard's outbox.
fn lift_shard(shards: &mut [ShardState], place: usize)
    requires { (v : ShardView) × (slice_get shards.old place ≡ Some v) × (can_lift v.outbox ≡ true) }
    ensures lifted { shards.new ≡ changed_at place (λ v. with_outbox v (lifted_one v.outbox)) shards.old }
    ensures undone { changed_at place (λ v. with_outbox v (unlifted_one v.outbox)) shards.new ≡ shards.old }
{
    shards[place].lift();
}

// Lifts from the outbox at a place.
fn lift_outbox(outboxes: &mut [Outbox], place: usize)
    requires { (o : OutboxState) × (slice_get outboxes.old place ≡ Some o) × (can_lift o.view ≡ true) }
    ensures lifted { views_of outboxes.new ≡ changed_at place lifted_one (views_of outboxes.old) }
    ensures undone { changed_at place unlifted_one (views_of outboxes.new) ≡ views_of outboxes.old }
{
    outboxes[place].lift();
}

/// Lifts the oldest item that waits at a source. Answers what takes it back.
pub fn lift_at(
    shards: &mut [ShardState],
    outboxes: &mut [Outbox],
    lines: &mut Lines<Listener>,
    source: Source,
) -> Undo
    requires { CanBeLifted source shards.old outboxes.old }
    ensures lifted { (s : Stored) → with_seen s shards.new outboxes.new lines.new.lines
        ≡ lifted_from source (with_seen s shards.old outboxes.old lines.old.lines) }
    ensures undone { (s : Stored) → undone result (with_seen s shards.new outboxes.new lines.new.lines)
        ≡ with_seen s shards.old outboxes.old lines.old.lines }
    ensures placed { (wheel : Timers) → IsPlaced wheel result }
    ensures unbooked { BooksNothing result }
    ensures rules { lines.new.rules ≡ lines.old.rules }
{
    match source {
        Source::Line(line) => Undo::Lines(lines.lift(line as u64)),
        Source::Shard(shard) => {
            lift_shard(shards, shard as usize);
            Undo::Lifted(source)
        }
        Source::Desk(desk) => {
            lift_outbox(outboxes, desk as usize + 1);
            Undo::Lifted(source)
        }
        Source::Clock => {
            lift_outbox(outboxes, 0);
            Undo::Lifted(source)
        }
    }
}
