//! What deeds and busy entries post.

use crate::node::put_item;
use base_list::{AddError, AddFault, Octets};
use bench_item::{Item, KeptEvent, Key, MachineItem, Role};
use bench_post::{Peers, busy_posts, home, posts_of};
use peer_rules::peer_laws;
use std::alloc::Global;
use std::test::Fail;
use tab_law::{Deed, LawBook, PLACES};
use tab_step::Event;

/// Numbers at the first places, and zeros.
fn places(numbers: &[u64]) -> [u64; PLACES] {
    let mut places = [0; PLACES];
    for (place, number) in places.iter_mut().zip(numbers.iter()) {
        *place = *number;
    }
    places
}

/// A request, by these facts, for the server's session c1;1.
fn request(alloc: Global, facts: &[u64]) -> Result<MachineItem, Fail> {
    let key = Key {
        role: Role::Server,
        name: Octets::from_slice(alloc, b"c1;1")?,
    };
    let event = Event {
        kind: 0,
        facts: places(facts),
    };
    Ok(MachineItem {
        key,
        event: KeptEvent::keep(alloc, &event)?,
        condition: None,
        session: Octets::new(Vec::new(alloc)),
    })
}

/// What an item says, nothing where there is none.
fn said(alloc: Global, laws: &LawBook, item: Option<&Item>) -> Result<Vec<u8>, Fail> {
    let mut text = Vec::new(alloc);
    if let Some(item) = item {
        put_item(alloc, laws, item, &mut text)?;
    }
    Ok(text)
}

/// A deed's code and first arguments, and what it posts.
const ROWS: &[(u16, &[u64], &str)] = &[
    (
        2,
        &[4096, 5],
        "told 0 p:c.example Send-Message 0=4096 1=5\n",
    ),
    (2, &[4097, 5], ""),
    (6, &[4096, 1], "to no machine\n"),
    (6, &[0, 1], ""),
    (8, &[1, 30], "to no machine\n"),
    (20, &[60], ""),
    (99, &[1], ""),
];

/// The place of the first row that isn't so.
fn wrong_row(alloc: Global, laws: &LawBook, peers: &Peers) -> Result<Option<usize>, Fail> {
    let item = request(alloc, &[])?;
    for (place, (code, arguments, text)) in ROWS.iter().enumerate() {
        let deed = Deed {
            code: *code,
            a: places(arguments),
        };
        let post = posts_of(alloc, laws, peers, 9, &item, &deed)?;
        if said(alloc, laws, post.as_ref())?.as_slice() != text.as_bytes() {
            return Ok(Some(place));
        }
    }
    Ok(None)
}

/// Two shards, of which the second has the one peer's machine.
fn peers(alloc: Global) -> Result<Peers, Fail> {
    let mut peers = Peers::new(alloc, 2);
    peers.add(b"c.example")?;
    Ok(peers)
}

/// The peer has its number by any spelling of its host, and is there but once.
fn is_numbered(alloc: Global) -> Result<bool, Fail> {
    let mut peers = peers(alloc)?;
    let taken = peers.add(b"C.example").err();
    let copy = peers.copy(alloc)?;
    let Some(host) = copy.numbered(4096) else {
        return Ok(false);
    };
    Ok(
        taken == Some(AddError::Fault(AddFault::Taken))
            && copy.hosts().len() == 1
            && copy.number(0) == Some(4096)
            && copy.number(1).is_none()
            && copy.find(b"C.EXAMPLE") == Some(4096)
            && copy.find(b"c.exampl").is_none()
            && host.as_slice() == b"c.example".as_slice()
            && copy.numbered(4097).is_none(),
    )
}

#[test]
fn a_host_in_another_case_is_the_same(rt: HostRuntime) -> Result<(), Fail> {
    let holds = is_numbered(rt.alloc())?;
    assert!(rt; holds);
    Ok(())
}

#[test]
fn each_deed_posts(rt: HostRuntime) -> Result<(), Fail> {
    let laws = peer_laws(rt.alloc())?;
    let peers = peers(rt.alloc())?;
    let wrong = wrong_row(rt.alloc(), &laws, &peers)?;
    assert!(rt; wrong.is_none(), "{wrong:?}");
    Ok(())
}

/// A request that finds no room is answered 3004; an answer is not.
fn is_answered(alloc: Global) -> Result<bool, Fail> {
    let laws = peer_laws(alloc)?;
    let peers = peers(alloc)?;
    let asked = request(alloc, &[4096, 1, 7, 8, 1, 1, 1, 100])?;
    let answered = busy_posts(alloc, &laws, &peers, &asked)?;
    let text = said(alloc, &laws, answered.as_ref())?;
    let other = request(alloc, &[4096, 1, 7, 8, 2, 1, 1, 100])?;
    let wanted = "told 0 p:c.example Send-Message 1=1 2=7 3=8 4=3 5=1 6=1 12=3004\n";
    Ok(
        text.as_slice() == wanted.as_bytes()
            && busy_posts(alloc, &laws, &peers, &other)?.is_none()
            && home(peers.shards(), &asked.key) == 0,
    )
}

#[test]
fn a_request_without_room_is_answered(rt: HostRuntime) -> Result<(), Fail> {
    let holds = is_answered(rt.alloc())?;
    assert!(rt; holds);
    Ok(())
}
