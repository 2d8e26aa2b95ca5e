//! What waits at a source.
ghost use Rattle.std.specs.Prelude.{◌≡◌, [], IfOk, false, slice_get, true};
ghost use Rattle.bench_carry.specs.Seen.{views_of, with_seen};
ghost use Rattle.bench_spec.specs.Refusal.{is_source};
ghost use Rattle.bench_spec.specs.Taken.{shown};
ghost use Rattle.bench_views.specs.Stored.{Stored};
ghost use Rattle.bench_core.specs.Waiting.{waiting_at, waiting_in, waiting_of, waiting_on};

use crate::keeping::Core;
use bench_item::{Item, Series, Source};
use bench_line::Lines;
use bench_queue::Outbox;
use bench_shard::ShardState;
use line_message::Listener;
use std::alloc::{AllocError, Global};

/// The items that wait on a connection, oldest first; none where it is not there.
fn waiting_on(alloc: Global, lines: &Lines<Listener>, line: u64) -> Result<Vec<Item>, AllocError>
    ensures { IfOk result (λ items. items.items ≡ waiting_on lines.now.lines line) }
{
    let mut items = Vec::new(alloc);
    for place in lines.lifted(line)..usize::MAX {
        match lines.item(line, place) {
            None => return Ok(items),
            Some(item) => items.push(item.show(alloc)?)?,
        }
    }
    // No memory holds as many.
    Err(AllocError)
}

/// The items that wait in the outbox at a place, oldest first; none where it is not there.
fn waiting_in(alloc: Global, outboxes: &[Outbox], place: usize) -> Result<Series<Item>, AllocError>
    ensures { IfOk result (λ items. items ≡ waiting_in (slice_get (views_of outboxes.now) place)) }
{
    match outboxes.get(place) {
        None => Ok(Series::empty(alloc)),
        Some(outbox) => outbox.items(alloc),
    }
}

/// The items that wait at the shard of that number, oldest first; none where it is not there.
fn waiting_at(
    alloc: Global,
    shards: &[ShardState],
    place: usize,
) -> Result<Series<Item>, AllocError>
    ensures { IfOk result (λ items. items ≡ waiting_at (slice_get shards.now place)) }
{
    match shards.get(place) {
        None => Ok(Series::empty(alloc)),
        Some(shard) => shard.posts(alloc),
    }
}

/// The items that wait at a source, oldest first; none where it is not there.
fn waiting_of(
    alloc: Global,
    shards: &[ShardState],
    outboxes: &[Outbox],
    lines: &Lines<Listener>,
    source: Source,
) -> Result<Series<Item>, AllocError>
    ensures { IfOk result (λ items. (s : Stored)
        → items ≡ waiting_of source (with_seen s shards.now outboxes.now lines.now.lines)) }
{
    match source {
        Source::Line(line) => Ok(Series::new(waiting_on(alloc, lines, line as u64)?)),
        Source::Shard(shard) => waiting_at(alloc, shards, shard as usize),
        Source::Desk(desk) => waiting_in(alloc, outboxes, desk as usize + 1),
        Source::Clock => waiting_in(alloc, outboxes, 0),
    }
}

impl Core {
    /// The items that a source has put out and that were not lifted, oldest first; none where it is not there.
    pub fn outbox(&self, source: Source) -> Result<Series<Item>, AllocError>
        ensures there { IfOk result (λ items. is_source self.now.settings self.now.log source ≡ true
            → items ≡ (shown self.now).outbox_of source) }
        ensures none { IfOk result (λ items. is_source self.now.settings self.now.log source ≡ false → items ≡ []) }
    {
        waiting_of(
            self.alloc,
            &self.shards,
            &self.outboxes,
            &self.lines,
            source,
        )
    }
}
