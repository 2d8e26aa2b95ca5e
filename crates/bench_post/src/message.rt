//! Messages of credit control for machines.

ghost use Rattle.bench_item.specs.Posts.{to_peer, to_session};
ghost use Rattle.bench_post.specs.Made.{Makes};
ghost use Rattle.bench_item.specs.Keys.{node_of};

use crate::event::{carry, event_of};
use crate::session::session_event;
use bench_item::{Item, Peers, Role};
use std::alloc::{AllocError, Global};
use tab_law::{LawBook, PLACES};

/// A message for the peer whose machine has that number; nothing where no peer's has.
pub(crate) fn to_peer(
    alloc: Global,
    laws: &LawBook,
    peers: &Peers,
    number: u64,
    facts: &[u64; PLACES],
    session: &[u8],
) -> Result<Option<Item>, AllocError>
    ensures { Makes result (to_peer (node_of laws.now peers.now) number facts.now session.now) }
{
    let Some(host) = peers.numbered(number) else {
        return Ok(None);
    };
    let event = event_of(laws, b"Send-Message", facts);
    carry(alloc, Role::Peer, host.as_slice(), event, None, session)
}

/// A message for the session of that name; nothing where its class or its type is no message of credit control.
pub(crate) fn to_session(
    alloc: Global,
    laws: &LawBook,
    peers: &Peers,
    session: &[u8],
    facts: &[u64; PLACES],
) -> Result<Option<Item>, AllocError>
    ensures { Makes result (to_session (node_of laws.now peers.now) session.now facts.now) }
{
    let Some(kind) = session_event(facts) else {
        return Ok(None);
    };
    let event = event_of(laws, kind.name(), facts);
    carry(alloc, kind.role(), session, event, None, session)
}
