//! Whether parts give the log of an order.
ghost use Rattle.std.specs.Prelude.{◌≡◌, ◌<◌, ◌≤◌, ◌+◌, ◌&&◌, [], IfOk, length, map, nat_le};
ghost use Rattle.std.specs.Bool.{Decides};
ghost use Rattle.bench_item.specs.declared.limit.TheConstants.{MAX_SHARDS};
ghost use Rattle.bench_merge.specs.Order.{IsOrder};
ghost use Rattle.bench_parts.specs.Views.{kept_in};
ghost use Rattle.bench_gather.specs.Given.{Gives, handed_over};
ghost use Rattle.bench_gather.specs.Ordered.{stamps_of};

use crate::fed::are_fed;
use crate::order::are_own;
use crate::pages::are_booked;
use crate::stand::looks_stand;
use crate::tells::{desks_done, desks_tell};
use acct_book::Page;
use bench_core::Core;
use bench_item::Step;
use bench_looks::are_right;
use bench_merge::Placed;
use bench_parts::Lent;
use std::alloc::{AllocError, Global};

/// Whether there are no more parts than those of the shards, the lines, the clock and so many desks.
fn are_few(parts: &[Lent<'_>], shards: usize, desks: u32) -> bool
    requires { shards ≤ MAX_SHARDS }
    ensures { result ≡ nat_le (length parts.now) (shards + 2 + desks) }
{
    parts.len() <= shards + 2 + desks as usize
}

/// Whether all that was looked at is so.
fn are_all(
    looks: bool,
    few: bool,
    own: bool,
    tell: bool,
    done: bool,
    same: bool,
    booked: bool,
    right: bool,
) -> bool
    ensures { result ≡ (((((((looks && few) && own) && tell) && done) && same) && booked) && right) }
{
    looks && few && own && tell && done && same && booked && right
}

/// Whether parts give the log of an order.
pub(crate) fn gives(
    alloc: Global,
    core: &Core,
    parts: &[Lent<'_>],
    fed: &[Step],
    pages: &[Page],
    order: &[Placed],
) -> Result<bool, AllocError>
    requires opening { core.now.log ≡ [] }
    requires some { 0 < core.now.settings.node.shards }
    requires few { core.now.settings.node.shards ≤ MAX_SHARDS }
    requires paged { length pages.now ≡ core.now.settings.pages }
    requires some_pages { 0 < core.now.settings.pages }
    requires ordered { IsOrder (stamps_of (map kept_in parts.now)) order.now }
    ensures { IfOk result (λ given.
        Decides given (Gives core.now.settings (handed_over (map kept_in parts.now) fed.now pages.now) order.now)) }
{
    let shards = core.shards();
    let desks = core.desks();
    let looks = looks_stand(parts, shards);
    let few = are_few(parts, shards, desks);
    let own = are_own(alloc, parts, order, shards)?;
    let tell = desks_tell(alloc, parts, order, shards, desks)?;
    let done = desks_done(alloc, parts, order, desks)?;
    let same = are_fed(alloc, parts, order, fed)?;
    let booked = are_booked(alloc, core.laws(), parts, order, pages)?;
    let right = are_right(alloc, core, parts)?;
    Ok(are_all(looks, few, own, tell, done, same, booked, right))
}
