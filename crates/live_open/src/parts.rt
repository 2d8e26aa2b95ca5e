//! The shards' parts of a bench that is opened.
ghost use Rattle.std.specs.Prelude.{◌≡◌, IfOk};
ghost use Rattle.std.specs.Arc.{arc_value};
ghost use Rattle.live_open.specs.Opening.{shards_at_start};

use bench_desk::ShardPart;
use bench_item::Peers;
use bench_move::Roles;
use bench_shard::ShardState;
use std::alloc::{AllocError, Global};
use std::sync::Arc;

/// The shards' parts of a node, each with its peers.
pub(crate) fn open_shards(
    alloc: Global,
    roles: &Arc<Roles, Global>,
    peers: &Peers,
    count: usize,
) -> Result<Vec<ShardPart>, AllocError>
    requires { count ≡ peers.now.shards }
    ensures { IfOk result (λ parts. parts.items ≡ shards_at_start (arc_value roles.now) peers.now count) }
{
    let mut parts = Vec::with_capacity(alloc, count)?;
    for number in 0..count {
        let own = peers.copy(alloc)?;
        let shard = ShardState::new(alloc, number, own)?;
        parts.push(ShardPart::new(alloc, Arc::try_clone(roles)?, shard))?;
    }
    Ok(parts)
}
