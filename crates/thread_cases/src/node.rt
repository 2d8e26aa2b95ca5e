//! Nodes, machines and events in few words.

use base_codes::session_fact;
use base_list::Octets;
use bench_item::{Key, Role};
use bench_open::{Account, Config};
use dia_dict::Dictionary;
use dia_write::Identity;
use role_tables::{CLIENT_TABLE, PEER_TABLE, SERVER_TABLE};
use std::alloc::{AllocError, Global};
use std::test::Fail;
use tab_law::{LawBook, PLACES};
use tab_step::Event;
use tab_text::parse;

/// The most looks until something is so, 200 microseconds each.
pub const LOOKS: u64 = 20_000;

/// Fails, and says what was wanted, where that is not so.
pub fn right(is: bool, wanted: &'static str) -> Result<(), Fail> {
    if is {
        return Ok(());
    }
    Err(Fail::new(wanted))
}

/// Names as a configuration has them.
fn named(alloc: Global, names: &[&str]) -> Result<Vec<Octets>, AllocError> {
    let mut all = Vec::new(alloc);
    for name in names {
        all.push(Octets::from_slice(alloc, name.as_bytes())?)?;
    }
    Ok(all)
}

/// A node of so many shards and pages with two desks, and with 100 units on account 100.
pub fn config(alloc: Global, host: &str, peers: &[&str], shards: u64) -> Result<Config, Fail> {
    let identity = Identity {
        host: Octets::from_slice(alloc, host.as_bytes())?,
        realm: Octets::from_slice(alloc, b"example")?,
        address: [192, 0, 2, 1],
    };
    let mut accounts = Vec::new(alloc);
    let (id, given) = (100, 100);
    accounts.push(Account { id, given })?;
    Ok(Config {
        identity,
        peers: named(alloc, peers)?,
        accounts,
        shards,
        pages: shards,
        desks: 2,
        default_units: 500,
        dictionary: Dictionary::base(alloc)?,
        peer: parse(alloc, PEER_TABLE.as_bytes())?,
        client: parse(alloc, CLIENT_TABLE.as_bytes())?,
        server: parse(alloc, SERVER_TABLE.as_bytes())?,
    })
}

/// A machine by its role and its name.
pub fn key_of(alloc: Global, role: Role, name: &str) -> Result<Key, Fail> {
    let name = Octets::from_slice(alloc, name.as_bytes())?;
    Ok(Key { role, name })
}

/// An event of that name, with all facts 0.
pub fn event_of(laws: &LawBook, name: &str) -> Event {
    let kind = match laws.kinds().find(name.as_bytes()) {
        Some(place) if place < 255 => place as u8,
        _ => u8::MAX,
    };
    Event {
        kind,
        facts: [0; PLACES],
    }
}

/// The event that begins a session which wants 60 units of account 100 of the peer whose machine has that number. By
/// its failure handling, RETRY_AND_TERMINATE, the session stays where it is when its timer fires: only an answer moves
/// it, or that it was not sent, however long that takes.
pub fn begin_of(laws: &LawBook, peer: u64) -> Event {
    let mut begin = event_of(laws, "Begin");
    begin.facts[session_fact::PEER] = peer;
    begin.facts[session_fact::ACCOUNT] = 100;
    begin.facts[session_fact::WANT] = 60;
    begin.facts[session_fact::UNIT] = 3;
    begin.facts[session_fact::FAILURE_HANDLING] = 2;
    begin
}

/// The number of a state in a table; 255 where it has none of that name.
pub fn state_named(alloc: Global, table: &str, name: &str) -> Result<u8, Fail> {
    let table = parse(alloc, table.as_bytes())?;
    for (place, state) in table.states().as_slice().iter().enumerate() {
        if state.as_slice() == name.as_bytes() {
            return Ok(place.min(255) as u8);
        }
    }
    Ok(u8::MAX)
}
