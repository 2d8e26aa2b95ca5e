//! Why an item is not carried, memory aside.
ghost use Rattle.std.specs.Prelude.{◌≡◌, is_some, slice_get};
ghost use Rattle.std.specs.Option.{option_and_then};
ghost use Rattle.bench_item.specs.declared.step.Step.TheVariants as steps;
ghost use Rattle.bench_line.specs.Lines.{next_on};
ghost use Rattle.bench_queue.specs.Outbox.{next_out};
ghost use Rattle.bench_spec.specs.Refusal.{refusal};
ghost use Rattle.bench_views.specs.Looks.{next_of};
ghost use Rattle.bench_views.specs.Stored.{Stored};
ghost use Rattle.bench_carry.specs.Seen.{views_of, with_seen};
ghost use Rattle.bench_core.specs.Carrying.{has_source};

use crate::keeping::Core;
use crate::refusal::held;
use bench_carry::{hand_lacks_room, has_hand};
use bench_item::{Source, StepFault};
use bench_line::Lines;
use bench_queue::Outbox;
use bench_shard::ShardState;
use line_message::Listener;

/// Whether a source is there.
fn has_source(
    shards: &[ShardState],
    outboxes: &[Outbox],
    lines: &Lines<Listener>,
    source: Source,
) -> bool
    ensures { result ≡ has_source source shards.now outboxes.now lines.now.lines }
{
    match source {
        Source::Line(line) => line > 0 && line as usize <= lines.count(),
        Source::Shard(shard) => (shard as usize) < shards.len(),
        Source::Desk(desk) => desk as usize + 1 < outboxes.len(),
        Source::Clock => true,
    }
}

/// Whether an item waits on a connection.
fn waits_on_line(lines: &Lines<Listener>, line: u32) -> bool
    ensures { result ≡ is_some (next_on lines.now.lines line) }
{
    match lines.next(line as u64) {
        None => false,
        Some(_) => true,
    }
}

/// Whether an item waits in an outbox.
fn waits(outbox: &Outbox) -> bool
    ensures { result ≡ is_some (next_out outbox.now.view) }
{
    outbox.waiting() > 0
}

/// Whether an item waits in the outbox at a place.
fn waits_at(outboxes: &[Outbox], place: usize) -> bool
    ensures { result ≡ is_some (option_and_then next_out (slice_get (views_of outboxes.now) place)) }
{
    match outboxes.get(place) {
        None => false,
        Some(outbox) => waits(outbox),
    }
}

/// Whether a shard has an item that waits to be lifted.
fn waits_in(shard: &ShardState) -> bool
    ensures { result ≡ is_some (next_out shard.now.outbox) }
{
    shard.posted() > 0
}

/// Whether the shard at a place has one.
fn waits_in_shard(shards: &[ShardState], place: usize) -> bool
    ensures { result ≡ is_some (option_and_then (λ v. next_out v.outbox) (slice_get shards.now place)) }
{
    match shards.get(place) {
        None => false,
        Some(shard) => waits_in(shard),
    }
}

/// Whether an item waits at a source.
fn has_next(
    shards: &[ShardState],
    outboxes: &[Outbox],
    lines: &Lines<Listener>,
    source: Source,
) -> bool
    ensures { (s : Stored) → result ≡ is_some (next_of source (with_seen s shards.now outboxes.now lines.now.lines)) }
{
    match source {
        Source::Line(line) => waits_on_line(lines, line),
        Source::Shard(shard) => waits_in_shard(shards, shard as usize),
        Source::Desk(desk) => waits_at(outboxes, desk as usize + 1),
        Source::Clock => waits_at(outboxes, 0),
    }
}

impl Core {
    // Why no item is lifted from a source.
    pub(crate) fn lift_fault(&self, source: Source) -> Option<StepFault>
        ensures { result ≡ refusal self.now.settings self.now.log self.now.paused (steps.Lift source) }
    {
        let there = has_source(&self.shards, &self.outboxes, &self.lines, source);
        let waits = has_next(&self.shards, &self.outboxes, &self.lines, source);
        let in_hand = has_hand(
            &self.shards,
            &self.outboxes,
            &self.lines,
            &self.carried,
            source,
        );
        let full = self.log.is_full();
        let late = held(full, StepFault::Full, None);
        let busy = held(in_hand, StepFault::Nothing, late);
        let idle = held(!waits, StepFault::Nothing, busy);
        held(!there, StepFault::Unknown, idle)
    }
    // Why the item in a source's hand is not dropped.
    pub(crate) fn drop_fault(&self, source: Source) -> Option<StepFault>
        ensures { result ≡ refusal self.now.settings self.now.log self.now.paused (steps.Drop source) }
    {
        let there = has_source(&self.shards, &self.outboxes, &self.lines, source);
        let in_hand = has_hand(
            &self.shards,
            &self.outboxes,
            &self.lines,
            &self.carried,
            source,
        );
        let crowded = hand_lacks_room(
            &self.shards,
            &self.outboxes,
            &self.lines,
            &self.carried,
            source,
        );
        let full = self.log.is_full();
        let jammed = held(crowded, StepFault::Full, None);
        let late = held(full, StepFault::Full, jammed);
        let idle = held(!in_hand, StepFault::Nothing, late);
        held(!there, StepFault::Unknown, idle)
    }
}
