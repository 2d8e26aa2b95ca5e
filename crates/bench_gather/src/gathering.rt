//! The parts of a bench that ran in threads are gathered to one world.
ghost use Rattle.std.specs.Prelude.{◌≡◌, ◌<◌, ◌≤◌, [], IfOk, length, map, option_map};
ghost use Rattle.bench_item.specs.declared.limit.TheConstants.{MAX_SHARDS};
ghost use Rattle.bench_merge.specs.Order.{IsOrder, Merges};
ghost use Rattle.bench_parts.specs.Views.{kept_in};
ghost use Rattle.bench_gather.specs.Gathered.{Gathers};
ghost use Rattle.bench_gather.specs.Given.{handed_over};
ghost use Rattle.bench_gather.specs.Ordered.{stamps_of};

use crate::fault::GatherFault;
use crate::gives::gives;
use crate::order::replay_parts;
use acct_book::Page;
use bench_core::Core;
use bench_item::Step;
use bench_merge::{Placed, merge};
use bench_parts::{Lent, is_past, stamps_of};
use std::alloc::{AllocError, Global};
use tab_step::Stepped;

/// The order of all stamps, if they have one.
fn order_of(alloc: Global, parts: &[Lent<'_>]) -> Result<Option<Vec<Placed>>, AllocError>
    ensures { IfOk result (λ order. Merges (stamps_of (map kept_in parts.now)) (option_map (λ o. o.items) order)) }
{
    let stamps = stamps_of(alloc, parts)?;
    let order = merge(alloc, &stamps)?;
    Ok(order)
}

/// Gathers parts in the order of their stamps.
fn gather_by(
    alloc: Global,
    core: &mut Core,
    parts: &[Lent<'_>],
    fed: &[Step],
    pages: &[Page],
    order: &[Placed],
    room: &mut Stepped,
) -> Result<(), GatherFault>
    requires opening { core.old.log ≡ [] }
    requires some { 0 < core.old.settings.node.shards }
    requires few { core.old.settings.node.shards ≤ MAX_SHARDS }
    requires paged { length pages.now ≡ core.old.settings.pages }
    requires some_pages { 0 < core.old.settings.pages }
    requires ordered { IsOrder (stamps_of (map kept_in parts.now)) order.now }
    ensures { Gathers core.old core.new (handed_over (map kept_in parts.now) fed.now pages.now) result }
{
    if !gives(alloc, core, parts, fed, pages, order)? {
        return Err(GatherFault::Disagree(0));
    }
    replay_parts(alloc, core, parts, order, room)
}

/// Gathers the parts of a bench on a world at its opening: the world of the log that they give. The parts are those of
/// the shards, by their numbers, of the lines, of the clock, and of the desks, by their numbers; beside them are the
/// steps that were fed to connections, in order, and all pages of the account book, by their numbers. The first fault
/// that holds is told: they have more entries than a log may; they disagree; memory was refused. Then parts and world
/// are as they were. No callback is asked. `room` is where moves are checked, and what stands there is gone.
pub fn gather(
    alloc: Global,
    core: &mut Core,
    parts: &[Lent<'_>],
    fed: &[Step],
    pages: &[Page],
    room: &mut Stepped,
) -> Result<(), GatherFault>
    requires opening { core.old.log ≡ [] }
    requires some { 0 < core.old.settings.node.shards }
    requires few { core.old.settings.node.shards ≤ MAX_SHARDS }
    requires paged { length pages.now ≡ core.old.settings.pages }
    requires some_pages { 0 < core.old.settings.pages }
    ensures { Gathers core.old core.new (handed_over (map kept_in parts.now) fed.now pages.now) result }
{
    if is_past(parts) {
        return Err(GatherFault::Full);
    }
    match order_of(alloc, parts)? {
        None => Err(GatherFault::Disagree(0)),
        Some(order) => gather_by(alloc, core, parts, fed, pages, &order, room),
    }
}
