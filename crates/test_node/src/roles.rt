//! The machines of a server's node: callbacks of all roles,
//! and the tables of a peer and of a server's session bound to them.

ghost use Rattle.std.specs.Prelude.{IfOk};
ghost use Rattle.tab_step.specs.Bind.{IsBoundTo};
ghost use Rattle.test_node.specs.Binding.{IsBoundTo-prop};

use peer_rules::PeerKind;
use role_tables::{PEER_TABLE, SERVER_TABLE};
use server_rules::ServerKind;
use std::alloc::Global;
use std::test::Fail;
use tab_call::Registry;
use tab_law::{LawBook, PLACES};
use tab_step::{Bound, Event, MachineState, Stepped, bind, step_into};
use tab_text::parse;

/// Callbacks, and the tables that are bound to their laws.
pub struct Roles<'a> {
    registry: &'a Registry,
    peer: Bound,
    server: Bound,
    /// Where the kinds of a peer begin.
    first_of_peer: u8,
    /// Where those of a server begin.
    first_of_server: u8,
    ghost peer_is_bound: { IsBoundTo peer registry.now.book } by { Prim.hlevel IsBoundTo-prop },
    ghost server_is_bound: { IsBoundTo server registry.now.book } by { Prim.hlevel IsBoundTo-prop },
}

impl<'a> Drop for Roles<'a> {
    fn drop(self) {
        let Roles {
            registry: _,
            peer,
            server,
            first_of_peer: _,
            first_of_server: _,
        } = self;
    }
}

/// The place of a kind of events; behind all of them where it is not there.
fn place_of(book: &LawBook, name: &str) -> u8 {
    match book.kinds().find(name.as_bytes()) {
        Some(place) => place.min(255) as u8,
        None => 255,
    }
}

/// A table's text, bound to a book.
fn bound_to(alloc: Global, book: &LawBook, text: &str) -> Result<Bound, Fail>
    ensures { IfOk result (λ bound. IsBoundTo bound book.now) }
{
    let table = parse(alloc, text.as_bytes())?;
    Ok(bind(alloc, table, book)?)
}

impl<'a> Roles<'a> {
    /// The tables bound to callbacks of all roles.
    pub fn new(alloc: Global, registry: &'a Registry) -> Result<Roles<'a>, Fail> {
        let book = registry.laws();
        let peer = bound_to(alloc, book, PEER_TABLE)?;
        let server = bound_to(alloc, book, SERVER_TABLE)?;
        let first_of_peer = place_of(book, PeerKind::Start.name());
        let first_of_server = place_of(book, ServerKind::Initial.name());
        Ok(Roles {
            registry,
            peer,
            server,
            first_of_peer,
            first_of_server,
        })
    }

    /// One step of a peer's machine, written into room that the caller keeps.
    pub fn step_peer(
        &self,
        machine: &MachineState,
        kind: PeerKind,
        facts: &[u64; PLACES],
        room: &mut Stepped,
    ) {
        let event = Event {
            kind: self.first_of_peer.saturating_add(kind.place()),
            facts: *facts,
        };
        step_into(&self.peer, self.registry, machine, &event, room);
    }

    /// One step of a session's machine by an event whose kind is its place among those of a server,
    /// written into room that the caller keeps.
    pub fn step_server(&self, machine: &MachineState, event: &Event, room: &mut Stepped) {
        let event = Event {
            kind: self.first_of_server.saturating_add(event.kind),
            facts: event.facts,
        };
        step_into(&self.server, self.registry, machine, &event, room);
    }
}
