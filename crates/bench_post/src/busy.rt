//! The answer to a request that finds no room.

ghost use Rattle.std.specs.Prelude.{◌≡◌};
ghost use Rattle.bench_item.specs.Posts.{busy_facts, busy_posts};
ghost use Rattle.bench_post.specs.Groups.{answer_posts};
ghost use Rattle.bench_post.specs.Made.{Makes};
ghost use Rattle.bench_item.specs.Keys.{node_of};

use crate::message::to_peer;
use base_codes::{ResultCode, message_class, session_fact};
use bench_item::{Item, MachineItem, Peers, Role};
use std::alloc::{AllocError, Global};
use tab_law::{LawBook, PLACES};

/// The facts of the answer DIAMETER_TOO_BUSY (RFC 6733 section 7.1.3): of the request the line, both identifiers, its
/// type and its number.
fn busy_facts(facts: &[u64; PLACES]) -> [u64; PLACES]
    ensures { result ≡ busy_facts facts.now }
{
    let mut answer = [0; PLACES];
    answer[session_fact::LINE] = facts[session_fact::LINE];
    answer[session_fact::HOP_BY_HOP] = facts[session_fact::HOP_BY_HOP];
    answer[session_fact::END_TO_END] = facts[session_fact::END_TO_END];
    answer[session_fact::CLASS] = message_class::FAULT;
    answer[session_fact::REQUEST_TYPE] = facts[session_fact::REQUEST_TYPE];
    answer[session_fact::REQUEST_NUMBER] = facts[session_fact::REQUEST_NUMBER];
    answer[session_fact::RESULT_CODE] = u64::from(ResultCode::TooBusy.number());
    answer
}

/// What is posted for an event of a session that finds no room: a request is answered.
fn answer_request(
    alloc: Global,
    laws: &LawBook,
    peers: &Peers,
    facts: &[u64; PLACES],
    session: &[u8],
) -> Result<Option<Item>, AllocError>
    ensures { Makes result (answer_posts (node_of laws.now peers.now) facts.now session.now) }
{
    if facts[session_fact::CLASS] != message_class::REQUEST {
        return Ok(None);
    }
    let answer = busy_facts(facts);
    to_peer(
        alloc,
        laws,
        peers,
        facts[session_fact::PEER],
        &answer,
        session,
    )
}

/// What is posted, at most one item, for an item whose session finds no room: a request is answered DIAMETER_TOO_BUSY,
/// all else is dropped. A post takes no memory whose names, and whose numbers as they are kept, have at most 32 octets
/// each.
pub fn busy_posts(
    alloc: Global,
    laws: &LawBook,
    peers: &Peers,
    item: &MachineItem,
) -> Result<Option<Item>, AllocError>
    ensures { Makes result (busy_posts (node_of laws.now peers.now) item.now) }
{
    match item.key.role {
        Role::Server => answer_request(
            alloc,
            laws,
            peers,
            &item.event.show().facts,
            item.key.name.as_slice(),
        ),
        Role::Peer | Role::Client => Ok(None),
    }
}
