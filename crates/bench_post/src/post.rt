//! What a deed posts.

ghost use Rattle.bench_item.specs.Posts.{posts_of, posts_by};
ghost use Rattle.bench_post.specs.Made.{Makes};
ghost use Rattle.bench_post.specs.Groups.{peer_posts, session_posts};
ghost use Rattle.bench_item.specs.Keys.{node_of};
ghost use Rattle.bench_post.specs.Nodes.{doer_of};

use crate::elect::elect;
use crate::line::{handed_on, message_to_line, to_line};
use crate::message::{to_peer, to_session};
use crate::timer::{arm, dial, undial};
use crate::unsent::unsent;
use base_codes::{DeedCode, session_fact};
use bench_item::{Item, MachineItem, Peers};
use std::alloc::{AllocError, Global};
use tab_law::{Deed, LawBook};

/// A message for the peer whose machine has the number of argument 0; nothing where no peer's has.
fn to_own_peer(
    alloc: Global,
    laws: &LawBook,
    peers: &Peers,
    item: &MachineItem,
    deed: &Deed,
) -> Result<Option<Item>, AllocError>
    ensures { Makes result (peer_posts (node_of laws.now peers.now) item.now deed.now) }
{
    deed.known();
    to_peer(
        alloc,
        laws,
        peers,
        deed.a[session_fact::PEER],
        &deed.a,
        handed_on(item),
    )
}

/// A message for the machine of the session that the deed hands on; nothing where it hands none on.
fn to_own_session(
    alloc: Global,
    laws: &LawBook,
    peers: &Peers,
    item: &MachineItem,
    deed: &Deed,
) -> Result<Option<Item>, AllocError>
    ensures { Makes result (session_posts (node_of laws.now peers.now) item.now deed.now) }
{
    let session = handed_on(item);
    if session.is_empty() {
        return Ok(None);
    }
    to_session(alloc, laws, peers, session, &deed.a)
}

/// What a deed posts, by its code.
fn posts_by(
    alloc: Global,
    laws: &LawBook,
    peers: &Peers,
    machine: u64,
    item: &MachineItem,
    deed: &Deed,
    code: DeedCode,
) -> Result<Option<Item>, AllocError>
    ensures { Makes result (posts_by (node_of laws.now peers.now) (doer_of machine item.now) deed.now code) }
{
    match code {
        DeedCode::Unlisted => unsent(alloc, laws, peers, item, deed),
        DeedCode::ToPeer => to_own_peer(alloc, laws, peers, item, deed),
        DeedCode::ToSession => to_own_session(alloc, laws, peers, item, deed),
        DeedCode::Dial => Ok(dial(peers, deed)),
        DeedCode::Undial => Ok(Some(undial(deed))),
        DeedCode::Arm => Ok(Some(arm(machine, deed))),
        DeedCode::Disarm => Ok(Some(Item::Disarm { machine })),
        DeedCode::Close
        | DeedCode::SndCer
        | DeedCode::SndCea
        | DeedCode::SndDwa
        | DeedCode::SndDpr
        | DeedCode::SndDpa => to_line(alloc, item, deed),
        DeedCode::SndMsg => message_to_line(alloc, item, deed),
        DeedCode::Elect => elect(alloc, laws, peers, item, deed),
        DeedCode::Reserve
        | DeedCode::Debit
        | DeedCode::Release
        | DeedCode::Charge
        | DeedCode::Refund
        | DeedCode::Service => Ok(None),
    }
}

/// What a deed posts, at most one item: a deed of the machine of that number, done as it handled that item. Deeds of
/// the account book, Service, and codes without a name post nothing. A post takes no memory whose names, and whose
/// numbers as they are kept, have at most 32 octets each.
pub fn posts_of(
    alloc: Global,
    laws: &LawBook,
    peers: &Peers,
    machine: u64,
    item: &MachineItem,
    deed: &Deed,
) -> Result<Option<Item>, AllocError>
    ensures { Makes result (posts_of (node_of laws.now peers.now) (doer_of machine item.now) deed.now) }
{
    match DeedCode::coded(deed.code) {
        Some(code) => posts_by(alloc, laws, peers, machine, item, deed, code),
        None => Ok(None),
    }
}
