//! The first message of an accepted connection (RFC 6733 section 5.3).

ghost use Rattle.std.specs.Prelude.{◌≡◌, ◌≤◌, length, IfOk};
ghost use Rattle.std.specs.Prelude.{[], if◌then◌else◌};
ghost use Rattle.line_message.specs.Answers.{answer_octets};
ghost use Rattle.line_message.specs.Heard.{wins, accepted, cer_by, is_cer, first_by, closing};
ghost use Rattle.line_message.specs.Posts.{peer_of};

use crate::application::shares;
use crate::listener::Listener;
use crate::post::{PeerEvent, at_line, of_message};
use base_codes::{CommandCode, ResultCode, peer_fact};
use base_list::Octets;
use bench_item::{Heard, Turn};
use dia_command::{CapabilitiesExchangeRequest, Command, header_of};
use dia_tree::MsgFault;
use peer_rules::{PeerKind, elect};
use std::alloc::{AllocError, Global};

/// 1 where the local host wins an election.
fn wins(local: &[u8], remote: &[u8]) -> u64
    ensures { result ≡ wins local.now remote.now }
{
    if elect(local, remote) { 1 } else { 0 }
}

/// Answers, or not, and closes.
pub(crate) fn closing(answer: Octets) -> Turn
    ensures { result ≡ closing answer }
{
    Turn {
        post: None,
        answer,
        greeted: None,
        closes: true,
    }
}

impl Listener {
    /// A good CER.
    #[tactic(auto, unfolding(crate::specs::Heard::accepted))]
    fn accepted(
        &self,
        alloc: Global,
        at: Heard,
        octets: &[u8],
        host: &[u8],
        peer: u64,
    ) -> Result<Turn, AllocError>
        requires { 20 ≤ length octets.now }
        ensures { IfOk result (λ turn. turn ≡ accepted self.now at octets.now host.now peer) }
    {
        let mut facts = at_line(peer, at.line, of_message(&header_of(octets)));
        facts[peer_fact::LOCAL_WINS] = wins(self.identity.host.as_slice(), host);
        let told = PeerEvent {
            place: Some(PeerKind::RConnCer.place()),
            facts,
            condition: None,
            session: &[],
        };
        Ok(Turn {
            post: self.event_for(alloc, peer, &told)?,
            answer: Octets::new(Vec::new(alloc)),
            greeted: Some(peer),
            closes: false,
        })
    }

    /// A CER without a fault.
    fn cer(
        &self,
        alloc: Global,
        at: Heard,
        octets: &[u8],
        cer: &CapabilitiesExchangeRequest,
    ) -> Result<Turn, AllocError>
        requires { 20 ≤ length octets.now }
        ensures { IfOk result (λ turn. turn
            ≡ cer_by self.now at octets.now cer.now (peer_of self.now cer.now.origin_host.value)) }
    {
        let host = cer.origin_host.value.as_slice();
        let Some(peer) = self.peer_of(host) else {
            return Ok(closing(self.refusal(alloc, octets, ResultCode::UnknownPeer)?));
        };
        if shares(cer) {
            return self.accepted(alloc, at, octets, host, peer);
        }
        Ok(closing(self.refusal(alloc, octets, ResultCode::NoCommonApplication)?))
    }

    /// A message with a fault: a CER is answered.
    fn first_fault(
        &self,
        alloc: Global,
        octets: &[u8],
        fault: &MsgFault,
    ) -> Result<Octets, AllocError>
        requires { 20 ≤ length octets.now }
        ensures { IfOk result (λ answer. answer
            ≡ (if is_cer octets.now then answer_octets self.now.identity octets.now fault.now else [])) }
    {
        let header = header_of(octets);
        if header.command == CommandCode::CapabilitiesExchange.number() && header.flags.request {
            return self.answer(alloc, octets, fault);
        }
        Ok(Octets::new(Vec::new(alloc)))
    }

    /// The first message of an accepted connection.
    pub(crate) fn first(
        &self,
        alloc: Global,
        at: Heard,
        octets: &[u8],
        message: &Result<Command, MsgFault>,
    ) -> Result<Turn, AllocError>
        requires { 20 ≤ length octets.now }
        ensures { IfOk result (λ turn. turn ≡ first_by self.now at octets.now message.now) }
    {
        match message {
            Ok(Command::Cer(cer)) => self.cer(alloc, at, octets, cer),
            Ok(_) => Ok(closing(Octets::new(Vec::new(alloc)))),
            Err(fault) => Ok(closing(self.first_fault(alloc, octets, fault)?)),
        }
    }
}
