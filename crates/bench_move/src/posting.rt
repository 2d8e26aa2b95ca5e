//! What the deeds of a move post.

ghost use Rattle.std.specs.Prelude.{◌≡◌, flat_map, IfOk};
ghost use Rattle.bench_item.specs.Posts.{posts_of};
ghost use Rattle.bench_item.specs.Keys.{node_of};
ghost use Rattle.bench_post.specs.Nodes.{doer_of};
ghost use Rattle.bench_move.specs.Moves.{posts_for};

use crate::roles::Roles;
use bench_item::{MachineItem, Moved, Peers};
use bench_log::KeptItem;
use bench_post::posts_of;
use std::alloc::{AllocError, Global};
use tab_law::{Deed, LawBook};

/// What deeds of the machine of that number post, done as it handled that item, one after the other.
pub(crate) fn posts_of_all(
    alloc: Global,
    laws: &LawBook,
    peers: &Peers,
    machine: u64,
    item: &MachineItem,
    deeds: &[Deed],
) -> Result<Vec<KeptItem>, AllocError>
    ensures { IfOk result (λ posts. posts.items
        ≡ flat_map (posts_of (node_of laws.now peers.now) (doer_of machine item.now)) deeds.now) }
{
    let mut posts = Vec::new(alloc);
    for deed in deeds {
        if let Some(post) = posts_of(alloc, laws, peers, machine, item, deed)? {
            posts.push(KeptItem::new(alloc, post)?)?;
        }
    }
    Ok(posts)
}

impl Roles {
    /// What the deeds of a move post that an item led to, in order.
    pub fn posts_for(
        &self,
        alloc: Global,
        peers: &Peers,
        item: &MachineItem,
        moved: &Moved,
    ) -> Result<Vec<KeptItem>, AllocError>
        ensures { IfOk result (λ posts. posts.items ≡ posts_for self.now.laws peers.now item.now moved.now) }
    {
        let deeds = moved.deeds.as_slice();
        posts_of_all(alloc, self.laws(), peers, moved.machine, item, deeds)
    }
}
