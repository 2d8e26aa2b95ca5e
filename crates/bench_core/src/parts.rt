//! The shards and outboxes of a world that is opened.
ghost use Rattle.std.specs.Prelude.{◌≡◌, IfOk, OnOk, replicate};
ghost use Rattle.bench_queue.specs.Outbox.{nothing_out};
ghost use Rattle.bench_core.specs.Starting.{AreStanding, shards_at_start};

use bench_item::Peers;
use bench_queue::Outbox;
use bench_shard::ShardState;
use std::alloc::{AllocError, Global};

/// The shards of a node, each with its peers.
pub(crate) fn open_shards(
    alloc: Global,
    peers: &Peers,
    count: usize,
) -> Result<Vec<ShardState>, AllocError>
    requires { count ≡ peers.now.shards }
    ensures shards { IfOk result (λ shards. shards.items ≡ shards_at_start peers.now count) }
    // Each is what a log without entries says.
    ensures stand { OnOk result (AreStanding peers.now count) }
{
    let mut shards = Vec::with_capacity(alloc, count)?;
    for number in 0..count {
        let own = peers.copy(alloc)?;
        let shard = ShardState::new(alloc, number, own)?;
        shards.push(shard)?;
    }
    Ok(shards)
}

/// Outboxes of which nothing was put out.
pub(crate) fn open_outboxes(alloc: Global, count: usize) -> Result<Vec<Outbox>, AllocError>
    ensures { IfOk result (λ outboxes. outboxes.items ≡ replicate count (record { view = nothing_out; room = 0 })) }
{
    let mut outboxes = Vec::with_capacity(alloc, count)?;
    for _place in 0..count {
        outboxes.push(Outbox::new(alloc))?;
    }
    Ok(outboxes)
}
