//! A desk tells a shard that is lent, and looks at it.
ghost use Rattle.std.specs.Prelude.{◌≡◌, IsTrue};
ghost use Rattle.bench_item.specs.Keys.{home};

use base_list::Octets;
use bench_desk::{Desk, DeskFault, ShardPart};
use bench_item::{Key, Peers, Role, home};
use bench_move::Roles;
use bench_shard::ShardState;
use role_tables::{CLIENT_TABLE, PEER_TABLE, SERVER_TABLE, all_laws};
use std::alloc::Global;
use std::sync::Arc;
use std::test::Fail;
use tab_law::PLACES;
use tab_step::Event;
use tab_text::parse;

/// What a look is to answer: the state, how many items wait, and how many were handled; or the fault.
type Answer = Result<(u8, u64, u64), DeskFault>;

/// The part of the only shard of a node whose peer is `c.example`.
fn opened(alloc: Global) -> Result<ShardPart, Fail> {
    let laws = all_laws(alloc)?;
    let peer = parse(alloc, PEER_TABLE.as_bytes())?;
    let client = parse(alloc, CLIENT_TABLE.as_bytes())?;
    let server = parse(alloc, SERVER_TABLE.as_bytes())?;
    let roles = Arc::new(alloc, Roles::new(alloc, peer, client, server, &laws)?)?;
    let mut peers = Peers::new(alloc, 1);
    peers.add(b"c.example")?;
    let shard = ShardState::new(alloc, 0, peers)?;
    Ok(ShardPart::new(alloc, roles, shard))
}

/// A machine by its role and its name.
fn key_of(alloc: Global, role: Role, name: &str) -> Result<Key, Fail> {
    let name = Octets::from_slice(alloc, name.as_bytes())?;
    Ok(Key { role, name })
}

/// An event of that name, with all facts 0; of a kind that no book has where there is none.
fn event_of(part: &ShardPart, name: &str) -> Event {
    let kind = match part.roles().laws().kinds().find(name.as_bytes()) {
        Some(place) if place < 255 => place as u8,
        _ => u8::MAX,
    };
    Event {
        kind,
        facts: [0; PLACES],
    }
}

/// Whether the part is that of the machine's shard.
fn is_here(desk: &Desk, part: &ShardPart, key: &Key) -> bool
    ensures here { IsTrue result → home desk.now.shards key.now.name ≡ part.now.shard.number }
    ensures same { IsTrue result → part.now.shard.peers.shards ≡ desk.now.shards }
{
    let shards = desk.shards();
    home(shards, key) == part.shard().number() && part.shard().peers().shards() == shards
}

/// Tells the machine the event. None where the part is another shard's.
fn tell(
    desk: &mut Desk,
    part: &mut ShardPart,
    key: &Key,
    event: &Event,
) -> Option<Result<(), DeskFault>> {
    if !is_here(desk, part, key) {
        return None;
    }
    Some(desk.tell_in(part, [1, 2, 3], key, event))
}

/// Looks at the machine.
fn look(desk: &mut Desk, part: &ShardPart, key: &Key) -> Option<Answer> {
    if !is_here(desk, part, key) {
        return None;
    }
    Some(match desk.look_in(part, 4, key) {
        Ok(look) => Ok((look.state, look.waiting, look.handled)),
        Err(fault) => Err(fault),
    })
}

#[test]
fn what_a_desk_told_waits_there(rt: HostRuntime) -> Result<(), Fail> {
    let mut part = opened(rt.alloc())?;
    let mut desk = Desk::new(rt.alloc(), 0, 1);
    let session = key_of(rt.alloc(), Role::Client, "c1;1")?;
    let begin = event_of(&part, "Begin");
    assert!(rt; look(&mut desk, &part, &session) == Some(Ok((0, 0, 0))));
    assert!(rt; tell(&mut desk, &mut part, &session, &begin) == Some(Ok(())));
    assert!(rt; look(&mut desk, &part, &session) == Some(Ok((0, 1, 0))));
    // A Told, a Lift and two looks; and one Drop.
    assert!(rt; desk.len() == 4 && part.len() == 1 && part.shard().waiting() == 1);
    // Another desk has told nothing; one that says it is this desk is contradicted.
    let mut other = Desk::new(rt.alloc(), 1, 1);
    assert!(rt; look(&mut other, &part, &session) == Some(Ok((0, 0, 0))));
    let mut twin = Desk::new(rt.alloc(), 0, 1);
    assert!(rt; look(&mut twin, &part, &session) == Some(Err(DeskFault::Disagree)));
    assert!(rt; twin.len() == 0);
    Ok(())
}

#[test]
fn machines_and_events_that_are_not_told(rt: HostRuntime) -> Result<(), Fail> {
    let mut part = opened(rt.alloc())?;
    let mut desk = Desk::new(rt.alloc(), 0, 1);
    for (role, name, event, known) in [
        (Role::Peer, "c.example", "Begin", true),
        (Role::Peer, "C.example", "Start", false),
        (Role::Client, "", "Begin", false),
        (Role::Client, "c1;1", "Initial", true),
        (Role::Server, "c1;1", "Initial", false),
    ] {
        let key = key_of(rt.alloc(), role, name)?;
        let event = event_of(&part, event);
        assert!(rt; tell(&mut desk, &mut part, &key, &event) == Some(Err(DeskFault::Unknown)));
        let wanted = if known {
            Ok((0, 0, 0))
        } else {
            Err(DeskFault::Unknown)
        };
        assert!(rt; look(&mut desk, &part, &key) == Some(wanted));
    }
    assert!(rt; part.len() == 0);
    Ok(())
}

#[test]
fn an_inbox_has_1024_items(rt: HostRuntime) -> Result<(), Fail> {
    let mut part = opened(rt.alloc())?;
    let mut desk = Desk::new(rt.alloc(), 0, 1);
    let peer = key_of(rt.alloc(), Role::Peer, "c.example")?;
    let start = event_of(&part, "Start");
    for _turn in 0..1_024 {
        assert!(rt; tell(&mut desk, &mut part, &peer, &start) == Some(Ok(())));
    }
    assert!(rt; tell(&mut desk, &mut part, &peer, &start) == Some(Err(DeskFault::Full)));
    assert!(rt; look(&mut desk, &part, &peer) == Some(Ok((0, 1_024, 0))));
    assert!(rt; part.len() == 1_024 && desk.len() == 2_049);
    Ok(())
}
