//! A request that no row of its peer's table took.

ghost use Rattle.std.specs.Prelude.{◌≡◌};
ghost use Rattle.bench_post.specs.Made.{Makes};
ghost use Rattle.bench_post.specs.Groups.{is_unsent, unsent_posts};
ghost use Rattle.bench_item.specs.Keys.{node_of};

use crate::event::{carry, event_of, is_kind_of};
use crate::line::handed_on;
use base_codes::{message_class, session_fact};
use bench_item::{Item, MachineItem, Peers, Role};
use std::alloc::{AllocError, Global};
use tab_law::{Deed, LawBook};

/// Whether an event that no row took was a request of a session.
fn is_unsent(laws: &LawBook, item: &MachineItem, deed: &Deed) -> bool
    ensures { result ≡ is_unsent laws.now item.now deed.now }
{
    deed.known();
    is_kind_of(laws, item.event.kind(), b"Send-Message")
        && deed.a[session_fact::CLASS] == message_class::REQUEST
        && !handed_on(item).is_empty()
}

/// Tells the session of a request that it was not sent.
pub(crate) fn unsent(
    alloc: Global,
    laws: &LawBook,
    peers: &Peers,
    item: &MachineItem,
    deed: &Deed,
) -> Result<Option<Item>, AllocError>
    ensures { Makes result (unsent_posts (node_of laws.now peers.now) item.now deed.now) }
{
    if !is_unsent(laws, item, deed) {
        return Ok(None);
    }
    let session = handed_on(item);
    let event = event_of(laws, b"Send-Fail", &deed.a);
    carry(alloc, Role::Client, session, event, None, session)
}
