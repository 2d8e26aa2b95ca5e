//! Whether an entry stands in its own part.
ghost use Rattle.std.specs.Prelude.{◌≡◌, ◌<◌, ◌≤◌, IfSome, None};
ghost use Rattle.bench_item.specs.declared.limit.TheConstants.{MAX_SHARDS};
ghost use Rattle.bench_log.specs.Moves.{entry_with};
ghost use Rattle.bench_spec.specs.Merged.{is_same_part, part_of, part_of_item, part_of_source};
ghost use Rattle.bench_parts.specs.Own.{is_of, part_at, part_named};

use crate::find::Brief;
use bench_item::{Item, Source, Step, home};

/// A part of a bench in threads.
#[derive(Clone, Copy)]
enum Part {
    Shard(u64),
    Lines,
    Clock,
    Desk(u64),
}

/// The part at a place: the shards stand first, then the lines, the clock and the desks.
fn part_at(shards: usize, place: usize) -> Part
    requires { shards ≤ MAX_SHARDS }
    ensures { part_named result ≡ part_at shards place }
{
    if place < shards {
        Part::Shard(place as u64)
    } else if place == shards {
        Part::Lines
    } else if place == shards + 1 {
        Part::Clock
    } else {
        Part::Desk((place - shards - 2) as u64)
    }
}

/// The part of what a source puts out.
fn part_of_source(source: Source) -> Part
    ensures { part_named result ≡ part_of_source source }
{
    match source {
        Source::Line(_) => Part::Lines,
        Source::Shard(shard) => Part::Shard(u64::from(shard)),
        Source::Desk(desk) => Part::Desk(u64::from(desk)),
        Source::Clock => Part::Clock,
    }
}

/// The part of what is dropped where an item is for.
fn part_of_item(shards: usize, item: &Item) -> Part
    requires some { 0 < shards }
    requires few { shards ≤ MAX_SHARDS }
    ensures { part_named result ≡ part_of_item shards item.now }
{
    match item {
        Item::ToMachine(item) => Part::Shard(home(shards, &item.key) as u64),
        Item::ToLine(_)
        | Item::Dial {
            peer: _,
            generation: _,
        }
        | Item::Undial {
            peer: _,
            generation: _,
        } => Part::Lines,
        Item::Arm {
            machine: _,
            generation: _,
            ticks: _,
        }
        | Item::Disarm { machine: _ } => Part::Clock,
    }
}

/// The part of what is dropped from a source.
fn part_of_drop(shards: usize, source: Source, item: &Option<Item>) -> Part
    requires some { 0 < shards }
    requires few { shards ≤ MAX_SHARDS }
    ensures none { item.now ≡ None → part_named result ≡ part_of_source source }
    ensures some { IfSome item.now (λ item. part_named result ≡ part_of_item shards item) }
{
    match item {
        None => part_of_source(source),
        Some(item) => part_of_item(shards, item),
    }
}

/// The part of an entry: where its step is taken; one that drops belongs to where it drops to.
fn part_of(shards: usize, brief: &Brief) -> Part
    requires some { 0 < shards }
    requires few { shards ≤ MAX_SHARDS }
    ensures { part_named result ≡ part_of shards (entry_with brief.now.step brief.now.item None) }
{
    match &brief.step {
        Step::Joined | Step::Dialled(_) | Step::Came { line: _, piece: _ } | Step::Lost(_) => {
            Part::Lines
        }
        Step::Told {
            desk,
            key: _,
            event: _,
        } => Part::Desk(u64::from(*desk)),
        Step::Fired {
            machine: _,
            generation: _,
        } => Part::Clock,
        Step::Lift(source) => part_of_source(*source),
        Step::Drop(source) => part_of_drop(shards, *source, &brief.item),
        Step::Work(shard) => Part::Shard(u64::from(*shard)),
    }
}

/// Whether two parts are one.
fn is_same(one: Part, other: Part) -> bool
    ensures { result ≡ is_same_part (part_named one) (part_named other) }
{
    match (one, other) {
        (Part::Shard(one), Part::Shard(other)) => one == other,
        (Part::Lines, Part::Lines) | (Part::Clock, Part::Clock) => true,
        (Part::Desk(one), Part::Desk(other)) => one == other,
        _ => false,
    }
}

/// Whether an entry stands in its own part, where it stands in the part at that place:
/// the shards are first, then the lines, the clock and the desks. Takes no memory.
pub fn is_of(shards: usize, place: usize, brief: &Brief) -> bool
    requires some { 0 < shards }
    requires few { shards ≤ MAX_SHARDS }
    ensures { result ≡ is_of shards place (entry_with brief.now.step brief.now.item None) }
{
    is_same(part_at(shards, place), part_of(shards, brief))
}
