//! Events that are no messages (RFC 6733 section 5.6.2).

ghost use Rattle.std.specs.Prelude.{◌≡◌, IfOk};
ghost use Rattle.peer_rules.specs.Kinds.{name_of};
ghost use Rattle.line_message.specs.Turned.{told, has_dial, lost_by, turned};

use crate::listener::Listener;
use crate::post::{PeerEvent, at_line, has_line};
use base_codes::peer_register;
use bench_item::{Condition, Heard, Item, LineEvent, Opening};
use peer_rules::{PeerKind, Side};
use std::alloc::{AllocError, Global};
use tab_law::PLACES;

/// That the peer's machine still waits for a dial.
fn has_dial(generation: u64) -> Condition
    ensures { result ≡ has_dial generation }
{
    Condition {
        register: peer_register::DIAL as u8,
        value: generation,
    }
}

impl Listener {
    /// An event of a connection for the machine of a peer.
    #[tactic(auto, unfolding(crate::specs::Turned::told))]
    fn told(
        &self,
        alloc: Global,
        line: u64,
        peer: u64,
        kind: PeerKind,
        condition: Condition,
    ) -> Result<Option<Item>, AllocError>
        ensures { IfOk result (λ post. post ≡ told self.now line peer (name_of kind) condition) }
    {
        let told = PeerEvent {
            place: Some(kind.place()),
            facts: at_line(peer, line, [0; PLACES]),
            condition: Some(condition),
            session: &[],
        };
        self.event_for(alloc, peer, &told)
    }

    /// An accepted connection is lost: it has a peer once it is greeted.
    fn lost(
        &self,
        alloc: Global,
        line: u64,
        greeted: Option<u64>,
    ) -> Result<Option<Item>, AllocError>
        ensures { IfOk result (λ post. post ≡ lost_by self.now line greeted) }
    {
        match greeted {
            Some(peer) => {
                self.told(
                    alloc,
                    line,
                    peer,
                    PeerKind::RPeerDisc,
                    has_line(Side::R, line),
                )
            }
            None => Ok(None),
        }
    }

    /// What a connection puts out at an event.
    #[tactic(auto, unfolding(crate::specs::Turned::turned))]
    pub(crate) fn turned(
        &self,
        alloc: Global,
        at: Heard,
        event: LineEvent,
    ) -> Result<Option<Item>, AllocError>
        ensures { IfOk result (λ post. post ≡ turned self.now at event) }
    {
        let line = at.line;
        match (event, at.opening) {
            (LineEvent::Acknowledged, Opening::Dialled { peer, generation }) => {
                self.told(
                    alloc,
                    line,
                    peer,
                    PeerKind::IRcvConnAck,
                    has_dial(generation),
                )
            }
            (LineEvent::Refused, Opening::Dialled { peer, generation }) => {
                self.told(
                    alloc,
                    line,
                    peer,
                    PeerKind::IRcvConnNack,
                    has_dial(generation),
                )
            }
            (
                LineEvent::Disconnected,
                Opening::Dialled {
                    peer,
                    generation: _,
                },
            ) => {
                self.told(
                    alloc,
                    line,
                    peer,
                    PeerKind::IPeerDisc,
                    has_line(Side::I, line),
                )
            }
            (LineEvent::Disconnected, Opening::Accepted) => self.lost(alloc, line, at.greeted),
            (_, Opening::Accepted) => Ok(None),
        }
    }
}
