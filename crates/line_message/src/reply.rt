//! Messages of a dialled connection that is not greeted (RFC 6733 section 5.6).

ghost use Rattle.std.specs.Prelude.{◌≡◌, ◌≤◌, Some, length, IfOk};
ghost use Rattle.peer_rules.specs.Kinds.{name_of};
ghost use Rattle.line_message.specs.Heard.{is_welcome, reply, reply_by, posting};

use crate::listener::Listener;
use crate::post::{PeerEvent, at_line, has_line, of_message, side_of};
use base_codes::ResultCode;
use base_list::Octets;
use bench_item::{Heard, Item, Turn};
use dia_command::{Command, header_of};
use dia_tree::MsgFault;
use peer_rules::PeerKind;
use std::alloc::{AllocError, Global};

/// Whether a message is a CEA with success.
fn is_welcome(message: &Result<Command, MsgFault>) -> bool
    ensures { result ≡ is_welcome message.now }
{
    match message {
        Ok(Command::Cea(cea)) => cea.result_code.value == ResultCode::Success.number(),
        _ => false,
    }
}

/// Something is put out, or nothing.
pub(crate) fn posting(alloc: Global, post: Option<Item>) -> Turn
    ensures { result ≡ posting post }
{
    Turn {
        post,
        answer: Octets::new(Vec::new(alloc)),
        greeted: None,
        closes: false,
    }
}

impl Listener {
    /// An event of a message for the dialled peer.
    #[tactic(auto, unfolding(crate::specs::Heard::reply))]
    fn reply(
        &self,
        alloc: Global,
        at: Heard,
        octets: &[u8],
        peer: u64,
        kind: PeerKind,
    ) -> Result<Option<Item>, AllocError>
        requires { 20 ≤ length octets.now }
        ensures { IfOk result (λ post. post ≡ reply self.now at octets.now peer (name_of kind)) }
    {
        let told = PeerEvent {
            place: Some(kind.place()),
            facts: at_line(peer, at.line, of_message(&header_of(octets))),
            condition: Some(has_line(side_of(at.opening), at.line)),
            session: &[],
        };
        self.event_for(alloc, peer, &told)
    }

    /// A message of a dialled connection that is not greeted.
    pub(crate) fn replied(
        &self,
        alloc: Global,
        at: Heard,
        octets: &[u8],
        peer: u64,
        message: &Result<Command, MsgFault>,
    ) -> Result<Turn, AllocError>
        requires { 20 ≤ length octets.now }
        ensures { IfOk result (λ turn. turn ≡ reply_by self.now at octets.now peer message.now) }
    {
        if is_welcome(message) {
            return Ok(Turn {
                post: self.reply(alloc, at, octets, peer, PeerKind::IRcvCea)?,
                answer: Octets::new(Vec::new(alloc)),
                greeted: Some(peer),
                closes: false,
            });
        }
        let post = self.reply(alloc, at, octets, peer, PeerKind::IRcvNonCea)?;
        Ok(posting(alloc, post))
    }
}
