//! Events for a peer's machine.

ghost use Rattle.std.specs.Prelude.{◌≡◌, Some, IfOk};
ghost use Rattle.line_message.specs.Posts.{peer_of, kind_at, event_for, side_of, has_line, at_line, of_message};

use crate::listener::Listener;
use base_codes::{peer_fact, peer_register};
use base_list::Octets;
use bench_item::{Condition, Item, KeptEvent, Key, MachineItem, Opening, Role};
use dia_command::Header;
use peer_rules::Side;
use std::alloc::{AllocError, Global};
use tab_law::PLACES;
use tab_step::Event;

/// Who opened a connection.
pub(crate) fn side_of(opening: Opening) -> Side
    ensures { result ≡ side_of opening }
{
    match opening {
        Opening::Accepted => Side::R,
        Opening::Dialled { .. } => Side::I,
    }
}

/// That the peer's machine still has a connection as its own.
pub(crate) fn has_line(side: Side, line: u64) -> Condition
    ensures { result ≡ has_line side line }
{
    match side {
        Side::I => Condition {
            register: peer_register::I_LINE as u8,
            value: line,
        },
        Side::R => Condition {
            register: peer_register::R_LINE as u8,
            value: line,
        },
    }
}

/// Facts with the peer's machine and the connection.
#[tactic(auto, unfolding(crate::specs::Posts::at_line))]
pub(crate) fn at_line(peer: u64, line: u64, facts: [u64; PLACES]) -> [u64; PLACES]
    ensures { result ≡ at_line peer line facts }
{
    let mut facts = facts;
    facts[peer_fact::PEER] = peer;
    facts[peer_fact::LINE] = line;
    facts
}

/// The facts of a message: its identifiers.
#[tactic(auto, unfolding(crate::specs::Posts::of_message))]
pub(crate) fn of_message(header: &Header) -> [u64; PLACES]
    ensures { result ≡ of_message header.now }
{
    let mut facts = [0; PLACES];
    facts[peer_fact::HOP_BY_HOP] = u64::from(header.hop_by_hop);
    facts[peer_fact::END_TO_END] = u64::from(header.end_to_end);
    facts
}

/// An event for a peer's machine: its kind by its place among a peer's, its facts, the condition on the machine.
#[derive(Clone, Copy)]
pub(crate) struct PeerEvent<'a> {
    pub place: Option<u8>,
    pub facts: [u64; PLACES],
    pub condition: Option<Condition>,
    pub session: &'a [u8],
}

impl Listener {
    /// The number of the machine of the configured peer that a message names so.
    pub(crate) fn peer_of(&self, host: &[u8]) -> Option<u64>
        ensures { result ≡ peer_of self.now host.now }
    {
        self.peers.find(host)
    }

    /// The place in the laws of a kind of a peer's events, by its place among those.
    fn kind_at(&self, place: Option<u8>) -> Option<u8>
        ensures { result ≡ kind_at self.now place }
    {
        match self.places.get(usize::from(place?)) {
            Some(kind) => *kind,
            None => None,
        }
    }

    /// An event for the machine of that number.
    #[tactic(auto, unfolding(crate::specs::Posts::event_for))]
    pub(crate) fn event_for(
        &self,
        alloc: Global,
        number: u64,
        told: &PeerEvent<'_>,
    ) -> Result<Option<Item>, AllocError>
        ensures { IfOk result (λ item. item
            ≡ event_for self.now number told.now.place told.now.facts told.now.condition told.now.session.now) }
    {
        let Some(host) = self.peers.numbered(number) else {
            return Ok(None);
        };
        let Some(kind) = self.kind_at(told.place) else {
            return Ok(None);
        };
        let facts = told.facts;
        let event = Event { kind, facts };
        Ok(Some(Item::ToMachine(MachineItem {
            key: Key {
                role: Role::Peer,
                name: host.copy(alloc)?,
            },
            event: KeptEvent::keep(alloc, &event)?,
            condition: told.condition,
            session: Octets::from_slice(alloc, told.session)?,
        })))
    }
}
