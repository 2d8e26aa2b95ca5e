//! All of it as `bench_item::Hears`.

ghost use Rattle.std.specs.Prelude.{◌≡◌, ◌≤◌, length, IfOk};
ghost use Rattle.line_message.specs.Heard.{heard as heard_by_octets, heard_by as heard_by_meaning};
ghost use Rattle.line_message.specs.Turned.{turned as turned_by_event};
ghost use Rattle.line_message.specs.Sent.{message_octets as message_octets_of};

use crate::listener::Listener;
use crate::octets::message_octets;
use crate::reply::posting;
use base_codes::HEADER_LEN;
use bench_item::{Heard, Hears, Item, LineEvent, LineItem, Opening, Turn};
use dia_command::Command;
use dia_tree::MsgFault;
use msg_meaning::meant;
use std::alloc::{AllocError, Global};

impl Listener {
    /// What a connection makes of a message that means this.
    fn made_of(
        &self,
        alloc: Global,
        at: Heard,
        octets: &[u8],
        message: &Result<Command, MsgFault>,
    ) -> Result<Turn, AllocError>
        requires { 20 ≤ length octets.now }
        ensures { IfOk result (λ turn. turn
            ≡ heard_by_meaning self.now at octets.now message.now at.greeted at.opening) }
    {
        if let Some(peer) = at.greeted {
            return self.later(alloc, at, octets, peer, message);
        }
        match at.opening {
            Opening::Accepted => self.first(alloc, at, octets, message),
            Opening::Dialled {
                peer,
                generation: _,
            } => { self.replied(alloc, at, octets, peer, message) }
        }
    }
}

impl Hears for Listener {
    ghost heard = { heard_by_octets };

    ghost turned = { turned_by_event };

    ghost octets_of = { λ l item. message_octets_of l.identity item };

    #[tactic(auto, unfolding(crate::specs::Heard::heard))]
    fn on_message(&self, alloc: Global, at: Heard, octets: &[u8]) -> Result<Turn, AllocError> {
        if octets.len() < HEADER_LEN {
            return Ok(posting(alloc, None));
        }
        let message = meant(alloc, &self.dictionary, octets)?;
        self.made_of(alloc, at, octets, &message)
    }

    fn on_event(
        &self,
        alloc: Global,
        at: Heard,
        event: LineEvent,
    ) -> Result<Option<Item>, AllocError> {
        self.turned(alloc, at, event)
    }

    fn write(&self, alloc: Global, item: &LineItem, out: &mut Vec<u8>) -> Result<(), AllocError> {
        let octets = message_octets(alloc, &self.identity, item)?;
        out.extend_from_slice(octets.as_slice())?;
        Ok(())
    }
}
