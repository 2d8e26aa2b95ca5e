//! Whether what desks kept are their tells, and nothing that one told is on its way.
ghost use Rattle.std.specs.Prelude.{◌≡◌, ◌+◌, ◌<◌, ◌≤◌, ◌∷◌, ℕ, [], true, IfOk, None, fold, map};
ghost use Rattle.std.specs.Bool.{Decides};
ghost use Rattle.bench_item.specs.declared.limit.TheConstants.{MAX_SHARDS};
ghost use Rattle.bench_log.specs.Moves.{entry_with};
ghost use Rattle.bench_parts.specs.Views.{kept_in};
ghost use Rattle.bench_gather.specs.Checks.{are_tells, counts, desk_steps, ends, is_done, is_drop_of, is_lift_of};
ghost use Rattle.bench_gather.specs.Checks.{is_told_by};
ghost use Rattle.bench_gather.specs.Checks.{next_tell, opens, steps_at};
ghost use Rattle.bench_gather.specs.Ordered.{entries_at, entries_by};

use bench_item::{Source, Step};
use bench_merge::Placed;
use bench_parts::{Brief, Lent, brief_of, step_of};
use std::alloc::{AllocError, Global};

/// A desk tells: a tell is begun then.
fn opens(desk: u32, step: &Step) -> Option<bool>
    ensures { result ≡ opens desk step.now }
{
    match step {
        Step::Told {
            desk: own,
            key: _,
            event: _,
        } => { if *own == desk { Some(true) } else { None } }
        _ => None,
    }
}

/// What it told is lifted: the tell ends.
fn ends(desk: u32, step: &Step) -> Option<bool>
    ensures { result ≡ ends desk step.now }
{
    match step {
        Step::Lift(Source::Desk(own)) => { if *own == desk { Some(false) } else { None } }
        _ => None,
    }
}

/// Whether a tell is open after a step of a desk's part; none where another step stands there.
fn next_tell(desk: u32, begun: Option<bool>, step: &Step) -> Option<bool>
    ensures { result ≡ next_tell desk begun step.now }
{
    match begun {
        None => None,
        Some(false) => opens(desk, step),
        Some(true) => ends(desk, step),
    }
}

/// The same after what stands at a place, where that is one of the part.
fn tell_at(
    alloc: Global,
    parts: &[Lent<'_>],
    part: usize,
    desk: u32,
    at: Placed,
    begun: Option<bool>,
) -> Result<Option<bool>, AllocError>
    ensures { IfOk result (λ next. next ≡ fold (next_tell desk) begun (steps_at (map kept_in parts.now) part at)) }
{
    if at.part != part {
        return Ok(begun);
    }
    match step_of(alloc, parts, at.part, at.place)? {
        None => Ok(begun),
        Some(step) => Ok(next_tell(desk, begun, &step)),
    }
}

/// Whether the entries of a part are a desk's tells.
fn are_tells(
    alloc: Global,
    parts: &[Lent<'_>],
    order: &[Placed],
    part: usize,
    desk: u32,
) -> Result<bool, AllocError>
    ensures { IfOk result (λ tell. tell ≡ are_tells desk (desk_steps (map kept_in parts.now) part order.now)) }
{
    let mut begun = Some(false);
    for at in order {
        begun = tell_at(alloc, parts, part, desk, *at, begun)?;
    }
    Ok(begun == Some(false))
}

/// Whether the entries of each desk are its tells.
pub(crate) fn desks_tell(
    alloc: Global,
    parts: &[Lent<'_>],
    order: &[Placed],
    shards: usize,
    desks: u32,
) -> Result<bool, AllocError>
    requires { shards ≤ MAX_SHARDS }
    ensures { IfOk result (λ tell. Decides tell ((desk : ℕ) → desk < desks
        → are_tells desk (desk_steps (map kept_in parts.now) (shards + 2 + desk) order.now) ≡ true)) }
{
    for desk in 0..desks {
        if !are_tells(alloc, parts, order, shards + 2 + desk as usize, desk)? {
            return Ok(false);
        }
    }
    Ok(true)
}

/// Whether an entry is a tell of a desk.
fn is_told_by(desk: u32, brief: &Brief) -> bool
    ensures { result ≡ is_told_by desk (entry_with brief.now.step brief.now.item None) }
{
    match &brief.step {
        Step::Told {
            desk: own,
            key: _,
            event: _,
        } => *own == desk,
        _ => false,
    }
}

/// Whether an entry lifts an item from a desk.
fn is_lift_of(desk: u32, brief: &Brief) -> bool
    ensures { result ≡ is_lift_of desk (entry_with brief.now.step brief.now.item None) }
{
    match &brief.step {
        Step::Lift(Source::Desk(own)) => *own == desk && brief.item.is_some(),
        _ => false,
    }
}

/// Whether an entry drops an item from a desk.
fn is_drop_of(desk: u32, brief: &Brief) -> bool
    ensures { result ≡ is_drop_of desk (entry_with brief.now.step brief.now.item None) }
{
    match &brief.step {
        Step::Drop(Source::Desk(own)) => *own == desk && brief.item.is_some(),
        _ => false,
    }
}

/// How many items a desk told, and how many of them were lifted and dropped.
#[derive(Clone, Copy)]
struct Carried {
    told: usize,
    lifted: usize,
    dropped: usize,
}

/// The same of one entry.
fn carried_in(desk: u32, brief: &Brief) -> Carried
    ensures counts { result ≡ counts desk (entry_with brief.now.step brief.now.item None ∷ []) }
    ensures told { result.told ≤ 1 }
    ensures lifted { result.lifted ≤ 1 }
    ensures dropped { result.dropped ≤ 1 }
{
    Carried {
        told: usize::from(is_told_by(desk, brief)),
        lifted: usize::from(is_lift_of(desk, brief)),
        dropped: usize::from(is_drop_of(desk, brief)),
    }
}

/// The same at one place.
#[tactic(auto, using(crate::proofs::BriefLemmas::counts_brief))]
fn carried_at(
    alloc: Global,
    parts: &[Lent<'_>],
    desk: u32,
    at: Placed,
) -> Result<Carried, AllocError>
    ensures counts { IfOk result (λ carried. carried ≡ counts desk (entries_at (map kept_in parts.now) at)) }
    ensures told { IfOk result (λ carried. carried.told ≤ 1) }
    ensures lifted { IfOk result (λ carried. carried.lifted ≤ 1) }
    ensures dropped { IfOk result (λ carried. carried.dropped ≤ 1) }
{
    match brief_of(alloc, parts, at.part, at.place)? {
        None => Ok(Carried {
            told: 0,
            lifted: 0,
            dropped: 0,
        }),
        Some(brief) => Ok(carried_in(desk, &brief)),
    }
}

/// Whether nothing that a desk told is on its way: all of it was lifted, and all that was lifted was dropped.
fn is_done(
    alloc: Global,
    parts: &[Lent<'_>],
    order: &[Placed],
    desk: u32,
) -> Result<bool, AllocError>
    ensures { IfOk result (λ done. done ≡ is_done desk (entries_by (map kept_in parts.now) order.now)) }
{
    let mut told = 0;
    let mut lifted = 0;
    let mut dropped = 0;
    for at in order {
        let carried = carried_at(alloc, parts, desk, *at)?;
        told += carried.told;
        lifted += carried.lifted;
        dropped += carried.dropped;
    }
    Ok(told <= lifted && lifted <= dropped)
}

/// Whether nothing that any desk told is on its way.
pub(crate) fn desks_done(
    alloc: Global,
    parts: &[Lent<'_>],
    order: &[Placed],
    desks: u32,
) -> Result<bool, AllocError>
    ensures { IfOk result (λ done. Decides done ((desk : ℕ) → desk < desks
        → is_done desk (entries_by (map kept_in parts.now) order.now) ≡ true)) }
{
    for desk in 0..desks {
        if !is_done(alloc, parts, order, desk)? {
            return Ok(false);
        }
    }
    Ok(true)
}
