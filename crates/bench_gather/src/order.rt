//! The entries of parts are replayed in an order.
ghost use Rattle.std.specs.Prelude.{◌≡◌, ◌<◌, ◌≤◌, [], IfOk, map};
ghost use Rattle.std.specs.List.{list_all};
ghost use Rattle.bench_item.specs.declared.limit.TheConstants.{MAX_SHARDS};
ghost use Rattle.bench_parts.specs.Own.{is_of};
ghost use Rattle.bench_parts.specs.Views.{kept_in};
ghost use Rattle.bench_gather.specs.Gathered.{Adds, ReplaysParts, TakesAt};
ghost use Rattle.bench_gather.specs.Ordered.{are_own, entries_at};

use crate::fault::GatherFault;
use crate::unwind::unwind;
use bench_core::{Core, ReplayError};
use bench_item::Entry;
use bench_merge::Placed;
use bench_parts::{Lent, brief_of, entry_of, is_of};
use std::alloc::{AllocError, Global};
use tab_step::Stepped;

/// Adds an entry, where it may follow.
fn add(core: &mut Core, entry: Entry, room: &mut Stepped) -> Result<(), GatherFault>
    ensures { Adds core.old core.new entry result }
{
    let place = core.place();
    core.known();
    match core.replay(entry, room) {
        Ok(()) => Ok(()),
        Err(ReplayError::Illegal) => Err(GatherFault::Disagree(place)),
        Err(ReplayError::NoMemory) => Err(GatherFault::NoMemory),
    }
}

/// Whether the entry at a place of a part, if one stands there, stands in its own.
#[tactic(auto, using(crate::proofs::BriefLemmas::own_brief))]
fn is_own(alloc: Global, parts: &[Lent<'_>], shards: usize, at: Placed) -> Result<bool, AllocError>
    requires some { 0 < shards }
    requires few { shards ≤ MAX_SHARDS }
    ensures { IfOk result (λ own. own ≡ list_all (is_of shards at.part) (entries_at (map kept_in parts.now) at)) }
{
    match brief_of(alloc, parts, at.part, at.place)? {
        None => Ok(true),
        Some(brief) => Ok(is_of(shards, at.part, &brief)),
    }
}

/// Whether each entry of parts in an order stands in its own part.
pub(crate) fn are_own(
    alloc: Global,
    parts: &[Lent<'_>],
    order: &[Placed],
    shards: usize,
) -> Result<bool, AllocError>
    requires some { 0 < shards }
    requires few { shards ≤ MAX_SHARDS }
    ensures { IfOk result (λ own. own ≡ are_own shards (map kept_in parts.now) order.now) }
{
    let mut own = true;
    for placed in order {
        let stands = is_own(alloc, parts, shards, *placed)?;
        own = own && stands;
    }
    Ok(own)
}

/// Adds the entry that stands at a place of a part, if one does, where it may follow.
fn take_at(
    alloc: Global,
    core: &mut Core,
    parts: &[Lent<'_>],
    at: Placed,
    room: &mut Stepped,
) -> Result<(), GatherFault>
    ensures { TakesAt core.old core.new (entries_at (map kept_in parts.now) at) result }
{
    let Some(entry) = entry_of(alloc, parts, at.part, at.place)? else {
        return Ok(());
    };
    add(core, entry, room)
}

/// Replays the entries of parts in an order, on a world at its opening. Where they are not legal, the fault tells how
/// many of them are, the most; then, and where memory is refused, the world is as it was. No callback is asked. `room`
/// is where moves are checked, and what stands there is gone.
pub(crate) fn replay_parts(
    alloc: Global,
    core: &mut Core,
    parts: &[Lent<'_>],
    order: &[Placed],
    room: &mut Stepped,
) -> Result<(), GatherFault>
    requires { core.old.log ≡ [] }
    ensures { ReplaysParts core.old core.new (map kept_in parts.now) order.now result }
{
    for at in order {
        if let Err(fault) = take_at(alloc, core, parts, *at, room) {
            unwind(core);
            return Err(fault);
        }
    }
    core.known();
    Ok(())
}
