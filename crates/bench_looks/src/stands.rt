//! Whether a machine stands so, after the entries of its shard that were stamped before.
ghost use Rattle.std.specs.Prelude.{◌≡◌, ◌<◌, ◌≤◌, ◌+◌, [], IfOk, None};
ghost use Rattle.std.specs.Bool.{Decides};
ghost use Rattle.std.specs.List.{list_any};
ghost use Rattle.bench_item.specs.Keys.{number_at};
ghost use Rattle.bench_item.specs.declared.limit.TheConstants.{MAX_SHARDS};
ghost use Rattle.bench_looks.specs.Before.{before};
ghost use Rattle.bench_looks.specs.Brought.{StandsSo};
ghost use Rattle.bench_looks.specs.Tallies.{is_key, left_after, taken_keys};
ghost use Rattle.bench_parts.specs.Views.{kept_in};
ghost use Rattle.bench_spec.specs.Machines.{moves_of, number_of, start};
ghost use Rattle.bench_spec.specs.Merged.{not_there};

use crate::brought::{brought, place_of};
use base_codes::session_register::MACHINE;
use bench_core::Core;
use bench_item::{MAX_MACHINES, home};
use bench_parts::{KeptLook, Lent};
use std::alloc::{AllocError, Global};
use tab_law::PLACES;
use tab_step::MachineState;

/// Whether two machines stand alike.
fn are_same(one: &MachineState, other: &MachineState) -> bool
    ensures { Decides result (one.now ≡ other.now) }
{
    one.state == other.state && one.regs == other.regs
}

/// Whether a machine stands where one that is not there does.
fn is_nowhere(stands: &MachineState) -> bool
    ensures { Decides result (stands.now ≡ not_there) }
{
    let nowhere = MachineState {
        state: 0,
        regs: [0; PLACES],
    };
    are_same(stands, &nowhere)
}

/// Whether a machine stands at the start of the one of that number.
fn is_start(stands: &MachineState, number: u64) -> bool
    ensures { Decides result (stands.now ≡ start number) }
{
    let mut first = MachineState {
        state: 0,
        regs: [0; PLACES],
    };
    first.regs[MACHINE] = number;
    are_same(stands, &first)
}

/// Whether a number is that of the place behind so many machines of a shard.
fn is_behind(number: u64, shard: usize, machines: usize, place: usize) -> bool
    requires { shard ≤ MAX_SHARDS }
    ensures { Decides result (number ≡ number_at shard (machines + place)) }
{
    let first = (shard * MAX_MACHINES) as u64;
    number >= first
        && number - first >= machines as u64
        && number - first - machines as u64 == place as u64
}

/// Whether a machine stands at the start of the one at that place behind so many machines of a shard.
fn is_start_behind(stands: &MachineState, shard: usize, machines: usize, place: usize) -> bool
    requires { shard ≤ MAX_SHARDS }
    ensures { Decides result (stands.now ≡ start (number_at shard (machines + place))) }
{
    let number = stands.regs[MACHINE];
    is_start(stands, number) && is_behind(number, shard, machines, place)
}

/// Whether a look shows a machine that is none of a peer and has not moved as it stands.
fn stands_brought(
    alloc: Global,
    core: &Core,
    part: &Lent<'_>,
    look: &KeptLook,
) -> Result<bool, AllocError>
    requires opening { core.now.log ≡ [] }
    requires some { 0 < core.now.settings.node.shards }
    requires few { core.now.settings.node.shards ≤ MAX_SHARDS }
    requires no_peer { number_of core.now.settings.node [] look.now.key ≡ None }
    requires unmoved { moves_of (before look.now.stamp (kept_in part.now)) look.now.key ≡ [] }
    ensures { IfOk result (λ so. Decides so
        (StandsSo core.now.settings.node (before look.now.stamp (kept_in part.now)) look.now.key look.now.stands)) }
{
    let shard = home(core.shards(), &look.key);
    let keys = brought(alloc, core, part, look.stamp, shard)?;
    let machines = core.machines(shard as u32).unwrap_or(0);
    let stands = look.stands.show();
    match place_of(&keys, &look.key) {
        None => Ok(is_nowhere(&stands)),
        Some(place) => Ok(is_start_behind(&stands, shard, machines, place)),
    }
}

/// Whether a look shows a machine that has not moved as it stands; `there` says whether an item of it was handled.
fn stands_unmoved(
    alloc: Global,
    core: &Core,
    part: &Lent<'_>,
    look: &KeptLook,
    there: bool,
) -> Result<bool, AllocError>
    requires opening { core.now.log ≡ [] }
    requires some { 0 < core.now.settings.node.shards }
    requires few { core.now.settings.node.shards ≤ MAX_SHARDS }
    requires taken { there
        ≡ list_any (is_key look.now.key) (taken_keys (before look.now.stamp (kept_in part.now))) }
    requires unmoved { moves_of (before look.now.stamp (kept_in part.now)) look.now.key ≡ [] }
    ensures { IfOk result (λ so. Decides so
        (StandsSo core.now.settings.node (before look.now.stamp (kept_in part.now)) look.now.key look.now.stands)) }
{
    match core.number_of(&look.key) {
        Some(number) => Ok(is_start(&look.stands.show(), number)),
        None => {
            if there {
                stands_brought(alloc, core, part, look)
            } else {
                Ok(is_nowhere(&look.stands.show()))
            }
        }
    }
}

/// Whether a look shows a machine as it stands after the entries of its shard that were stamped before, where its last
/// move, if it moved, left it there; `there` says whether an item of it was handled.
pub(crate) fn stands_so(
    alloc: Global,
    core: &Core,
    part: &Lent<'_>,
    look: &KeptLook,
    left: Option<MachineState>,
    there: bool,
) -> Result<bool, AllocError>
    requires opening { core.now.log ≡ [] }
    requires some { 0 < core.now.settings.node.shards }
    requires few { core.now.settings.node.shards ≤ MAX_SHARDS }
    requires last { left ≡ left_after None (moves_of (before look.now.stamp (kept_in part.now)) look.now.key) }
    requires taken { there
        ≡ list_any (is_key look.now.key) (taken_keys (before look.now.stamp (kept_in part.now))) }
    ensures { IfOk result (λ so. Decides so
        (StandsSo core.now.settings.node (before look.now.stamp (kept_in part.now)) look.now.key look.now.stands)) }
{
    match left {
        Some(state) => Ok(are_same(&look.stands.show(), &state)),
        None => stands_unmoved(alloc, core, part, look, there),
    }
}
