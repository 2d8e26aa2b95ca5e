//! The next step that carries or handles what waits.
ghost use Rattle.std.specs.Prelude.{◌≡◌, ◌<◌, ◌≤◌, ◌+◌, ◌^◌, ◌∷◌, [], find, length, map};
ghost use Rattle.bench_item.specs.declared.limit.TheConstants.{MAX_ENTRIES, MAX_SHARDS};
ghost use Rattle.bench_spec.specs.Lines.{openings};
ghost use Rattle.bench_script.specs.Settled.{carried, is_free, next_settled, numbered, source_of, sources, works};

use bench_core::Core;
use bench_item::{MAX_DESKS, MAX_SHARDS, Source, Step};

/// Which way an item is carried.
#[derive(Clone, Copy)]
pub(crate) enum Carry {
    Drop,
    Lift,
}

/// Sources of one sort, each with a number.
#[derive(Clone, Copy)]
pub(crate) enum Sort {
    Line,
    Shard,
    Desk,
}

/// The step that carries an item of a source.
fn carried(carry: Carry, source: Source) -> Step
    ensures { result ≡ carried carry source }
{
    match carry {
        Carry::Drop => Step::Drop(source),
        Carry::Lift => Step::Lift(source),
    }
}

/// The source of a number.
fn source_of(sort: Sort, number: u32) -> Source
    ensures { result ≡ source_of sort number }
{
    match sort {
        Sort::Line => Source::Line(number),
        Sort::Shard => Source::Shard(number),
        Sort::Desk => Source::Desk(number),
    }
}

/// A step, if it may be taken.
#[tactic(auto, unfolding(crate::specs::Settled::is_free))]
fn if_free(core: &Core, step: Step) -> Option<Step>
    ensures { result ≡ find (is_free core.now) (step ∷ []) }
{
    match core.refusal(&step) {
        None => Some(step),
        Some(_) => None,
    }
}

/// The first carriage that may be made, of so many sources of a sort from a number on.
fn first_of(core: &Core, carry: Carry, sort: Sort, from: u32, count: u32) -> Option<Step>
    requires { from + count < 2 ^ 32 }
    ensures { result ≡ find (is_free core.now) (map (carried carry) (numbered sort from count)) }
{
    let mut number = from;
    let mut left = count;
    'numbers: while left > 0 {
        let step = if_free(core, carried(carry, source_of(sort, number)));
        if step.is_some() {
            return step;
        }
        number += 1;
        left -= 1;
    }
    None
}

/// The first carriage that may be made.
fn first_carried(core: &Core, carry: Carry, lines: u32) -> Option<Step>
    requires { lines ≤ MAX_ENTRIES }
    ensures { result ≡ find (is_free core.now) (map (carried carry) (sources lines)) }
{
    let line = first_of(core, carry, Sort::Line, 1, lines);
    if line.is_some() {
        return line;
    }
    let shard = first_of(core, carry, Sort::Shard, 0, MAX_SHARDS as u32);
    if shard.is_some() {
        return shard;
    }
    let desk = first_of(core, carry, Sort::Desk, 0, MAX_DESKS as u32);
    if desk.is_some() {
        return desk;
    }
    if_free(core, carried(carry, Source::Clock))
}

/// The first shard that may work.
fn first_work(core: &Core) -> Option<Step>
    ensures { result ≡ find (is_free core.now) (works 0 MAX_SHARDS) }
{
    let mut shard = 0;
    let mut left = MAX_SHARDS;
    'shards: while left > 0 {
        let step = if_free(core, Step::Work(shard));
        if step.is_some() {
            return step;
        }
        shard += 1;
        left -= 1;
    }
    None
}

/// How many lines were opened: they have the numbers from 1 on. Takes no memory.
pub fn line_count(core: &Core) -> u32
    ensures count { result ≡ length (openings core.now.log) }
    ensures within { result ≤ MAX_ENTRIES }
{
    // An entry opens one line at most.
    let _entries = core.log().len();
    core.lines() as u32
}

/// The next step that carries or handles what waits, if there is one.
#[tactic(auto, unfolding(crate::specs::Settled::next_settled))]
pub(crate) fn next_settled(core: &Core) -> Option<Step>
    ensures { result ≡ next_settled core.now }
{
    let lines = line_count(core);
    let drop = first_carried(core, Carry::Drop, lines);
    if drop.is_some() {
        return drop;
    }
    let lift = first_carried(core, Carry::Lift, lines);
    if lift.is_some() {
        return lift;
    }
    first_work(core)
}
