//! The end of an election (RFC 6733 section 5.6.4).

ghost use Rattle.bench_post.specs.Made.{Makes};
ghost use Rattle.bench_post.specs.Groups.{elect_posts};
ghost use Rattle.bench_item.specs.Keys.{node_of};

use crate::event::{carry, event_of};
use crate::line::handed_on;
use base_codes::peer_register;
use bench_item::{Condition, Item, MachineItem, Peers};
use std::alloc::{AllocError, Global};
use tab_law::{Deed, LawBook, PLACES};

/// Tells the machine itself that it won, for as long as it keeps the line that argument 1 names. What its event handed
/// on is handed on.
pub(crate) fn elect(
    alloc: Global,
    laws: &LawBook,
    peers: &Peers,
    item: &MachineItem,
    deed: &Deed,
) -> Result<Option<Item>, AllocError>
    ensures { Makes result (elect_posts (node_of laws.now peers.now) item.now deed.now) }
{
    deed.known();
    if deed.a[0] != 1 {
        return Ok(None);
    }
    let event = event_of(laws, b"Win-Election", &[0; PLACES]);
    let kept = Condition {
        register: peer_register::R_LINE as u8,
        value: deed.a[1],
    };
    carry(
        alloc,
        item.key.role,
        item.key.name.as_slice(),
        event,
        Some(kept),
        handed_on(item),
    )
}
