//! Whether each look of each desk is right at its stamp.
ghost use Rattle.std.specs.Prelude.{◌≡◌, ◌<◌, ◌≤◌, ◌+◌, ◌^◌, ◌&&◌, [], All, IfOk, flat_map, map};
ghost use Rattle.std.specs.Bool.{Decides};
ghost use Rattle.bench_item.specs.Keys.{home};
ghost use Rattle.bench_item.specs.declared.limit.TheConstants.{MAX_SHARDS};
ghost use Rattle.bench_looks.specs.Before.{before};
ghost use Rattle.bench_looks.specs.Parts.{AreRight, DeskIsRight, IsRightIn, kept_at};
ghost use Rattle.bench_looks.specs.Tallies.{is_all};
ghost use Rattle.bench_parts.specs.Views.{kept_in, kept_of, look_of};
ghost use Rattle.bench_spec.specs.Merged.{IsRight, looks_kept};

use crate::counts::{are_these, handled_of};
use crate::stands::stands_so;
use crate::tally::tally_of;
use crate::told::told_before;
use bench_core::Core;
use bench_item::home;
use bench_parts::{KeptLook, Lent, Note};
use std::alloc::{AllocError, Global};

/// The part at a place, which has nothing where there is none.
fn part_at<'a>(parts: &[Lent<'a>], place: usize) -> Lent<'a>
    ensures { kept_in result ≡ kept_at (map kept_in parts.now) place }
{
    match parts.get(place) {
        Some(part) => *part,
        None => Lent::Notes(&[]),
    }
}

/// Whether all that was told, so much, is met.
fn is_all(count: usize, met: Option<usize>) -> bool
    ensures { result ≡ is_all count met }
{
    match met {
        None => false,
        Some(met) => met == count,
    }
}

/// Whether all that was looked at is so.
fn are_all(all: bool, counted: bool, so: bool) -> bool
    ensures { result ≡ ((all && counted) && so) }
{
    all && counted && so
}

/// Whether a look of a desk is right, by the part of the machine's shard and that of the desk.
fn is_right(
    alloc: Global,
    core: &Core,
    of_shard: &Lent<'_>,
    of_desk: &Lent<'_>,
    desk: usize,
    look: &KeptLook,
) -> Result<bool, AllocError>
    requires opening { core.now.log ≡ [] }
    requires some { 0 < core.now.settings.node.shards }
    requires few { core.now.settings.node.shards ≤ MAX_SHARDS }
    ensures { IfOk result (λ right. Decides right
        (IsRight core.now.settings desk (home core.now.settings.node.shards look.now.key.name)
        (before look.now.stamp (kept_in of_shard.now)) (before look.now.stamp (kept_in of_desk.now))
        (look_of look.now))) }
{
    let shards = core.shards();
    let shard = home(shards, &look.key);
    let told = told_before(alloc, of_desk, look.stamp, shards, shard, desk)?;
    let tally = tally_of(alloc, of_shard, look, &told, shards, shard, desk)?;
    let handled = handled_of(&tally.came, tally.worked);
    let counted = are_these(look.waiting, look.handled, told.len(), handled);
    let so = stands_so(alloc, core, of_shard, look, tally.left, tally.there)?;
    let all = is_all(told.len(), tally.met);
    Ok(are_all(all, counted, so))
}

/// Whether what a desk kept is an entry, or a look that is right.
fn is_right_note(
    alloc: Global,
    core: &Core,
    parts: &[Lent<'_>],
    desk: usize,
    note: &Note,
) -> Result<bool, AllocError>
    requires opening { core.now.log ≡ [] }
    requires some { 0 < core.now.settings.node.shards }
    requires few { core.now.settings.node.shards ≤ MAX_SHARDS }
    requires within { core.now.settings.node.shards + 2 + desk < 2 ^ 64 }
    ensures { IfOk result (λ right. Decides right
        (All (IsRightIn core.now.settings (map kept_in parts.now) desk) (looks_kept (kept_of note.now)))) }
{
    match note {
        Note::Did { stamp: _, entry: _ } => Ok(true),
        Note::Saw(look) => {
            let shards = core.shards();
            let of_shard = part_at(parts, home(shards, &look.key));
            let of_desk = part_at(parts, shards + 2 + desk);
            is_right(alloc, core, &of_shard, &of_desk, desk, look)
        }
    }
}

/// Whether each look among what a desk kept is right.
fn are_right_notes(
    alloc: Global,
    core: &Core,
    parts: &[Lent<'_>],
    desk: usize,
    notes: &[Note],
) -> Result<bool, AllocError>
    requires opening { core.now.log ≡ [] }
    requires some { 0 < core.now.settings.node.shards }
    requires few { core.now.settings.node.shards ≤ MAX_SHARDS }
    requires within { core.now.settings.node.shards + 2 + desk < 2 ^ 64 }
    ensures { IfOk result (λ right. Decides right (All (IsRightIn core.now.settings (map kept_in parts.now) desk)
        (flat_map looks_kept (map kept_of notes.now)))) }
{
    for note in notes {
        if !is_right_note(alloc, core, parts, desk, note)? {
            return Ok(false);
        }
    }
    Ok(true)
}

/// Whether each look of the desk of that number is right.
fn is_right_desk(
    alloc: Global,
    core: &Core,
    parts: &[Lent<'_>],
    desk: usize,
) -> Result<bool, AllocError>
    requires opening { core.now.log ≡ [] }
    requires some { 0 < core.now.settings.node.shards }
    requires few { core.now.settings.node.shards ≤ MAX_SHARDS }
    requires within { core.now.settings.node.shards + 2 + desk < 2 ^ 64 }
    ensures { IfOk result (λ right. Decides right (DeskIsRight core.now.settings (map kept_in parts.now) desk)) }
{
    match part_at(parts, core.shards() + 2 + desk) {
        Lent::Entries { stamps: _, log: _ } => Ok(true),
        Lent::Notes(notes) => are_right_notes(alloc, core, parts, desk, notes),
    }
}

/// Whether each look of each desk is right at its stamp, by a world at its opening. The parts are those of the shards,
/// by their numbers, of the lines, of the clock, and of the desks, by their numbers.
pub fn are_right(alloc: Global, core: &Core, parts: &[Lent<'_>]) -> Result<bool, AllocError>
    requires opening { core.now.log ≡ [] }
    requires some { 0 < core.now.settings.node.shards }
    requires few { core.now.settings.node.shards ≤ MAX_SHARDS }
    ensures { IfOk result (λ right. Decides right (AreRight core.now.settings (map kept_in parts.now))) }
{
    let first = core.shards() + 2;
    let desks = parts.len().saturating_sub(first);
    for desk in 0..desks {
        if !is_right_desk(alloc, core, parts, desk)? {
            return Ok(false);
        }
    }
    Ok(true)
}
