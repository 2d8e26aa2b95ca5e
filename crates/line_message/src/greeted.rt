//! Messages of a greeted connection (RFC 6733 section 5.6, RFC 8506 section 3).

ghost use Rattle.std.specs.Prelude.{◌≡◌, ◌≤◌, [], length, IfOk, if◌then◌else◌};
ghost use Rattle.dia_command.specs.Header.{header_in};
ghost use Rattle.line_message.specs.Answers.{answer_octets};
ghost use Rattle.line_message.specs.Heard.{message_facts, session_of, message, greeted_by, answering};

use crate::listener::Listener;
use crate::post::{PeerEvent, at_line, has_line, of_message, side_of};
use crate::reply::posting;
use base_codes::ResultCode;
use base_list::Octets;
use bench_item::{Heard, Item, Turn};
use charge_facts::{answer_facts, request_facts};
use dia_command::{Command, header_of};
use dia_tree::MsgFault;
use peer_rules::peer_event;
use std::alloc::{AllocError, Global};
use tab_law::PLACES;

/// The Session-Id that a message hands on.
fn session_of(command: &Command) -> &[u8]
    ensures { result.now ≡ session_of command.now }
{
    match command {
        Command::Ccr(c) => c.session_id.value.as_str().as_bytes(),
        Command::Cca(c) => c.session_id.value.as_str().as_bytes(),
        Command::ErrorAnswer(c) => match &c.session_id {
            Some(session) => session.value.as_str().as_bytes(),
            None => &[],
        },
        _ => &[],
    }
}

/// A connection answers by itself, or not.
fn answering(answer: Octets) -> Turn
    ensures { result ≡ answering answer }
{
    Turn {
        post: None,
        answer,
        greeted: None,
        closes: false,
    }
}

impl Listener {
    /// The facts of a message.
    fn message_facts(&self, octets: &[u8], command: &Command) -> [u64; PLACES]
        requires { 20 ≤ length octets.now }
        ensures { result ≡ message_facts self.now octets.now command.now }
    {
        match command {
            Command::Ccr(request) => request_facts(request, self.default_units),
            _ => match answer_facts(command) {
                Some(facts) => facts,
                None => of_message(&header_of(octets)),
            },
        }
    }

    /// The event that a message is for the peer's machine.
    #[tactic(auto, unfolding(crate::specs::Heard::message))]
    fn message(
        &self,
        alloc: Global,
        at: Heard,
        octets: &[u8],
        peer: u64,
        command: &Command,
    ) -> Result<Option<Item>, AllocError>
        requires { 20 ≤ length octets.now }
        ensures { IfOk result (λ post. post ≡ message self.now at octets.now peer command.now) }
    {
        let side = side_of(at.opening);
        let told = PeerEvent {
            place: peer_event(command, side),
            facts: at_line(peer, at.line, self.message_facts(octets, command)),
            condition: Some(has_line(side, at.line)),
            session: session_of(command),
        };
        self.event_for(alloc, peer, &told)
    }

    /// A message with a fault: a request is answered.
    fn later_fault(
        &self,
        alloc: Global,
        octets: &[u8],
        fault: &MsgFault,
    ) -> Result<Octets, AllocError>
        requires { 20 ≤ length octets.now }
        ensures { IfOk result (λ answer. answer ≡ (if (header_in octets.now).flags.request
            then answer_octets self.now.identity octets.now fault.now else [])) }
    {
        if header_of(octets).flags.request {
            return self.answer(alloc, octets, fault);
        }
        Ok(Octets::new(Vec::new(alloc)))
    }

    /// A message of a greeted connection.
    pub(crate) fn later(
        &self,
        alloc: Global,
        at: Heard,
        octets: &[u8],
        peer: u64,
        message: &Result<Command, MsgFault>,
    ) -> Result<Turn, AllocError>
        requires { 20 ≤ length octets.now }
        ensures { IfOk result (λ turn. turn ≡ greeted_by self.now at octets.now peer message.now) }
    {
        match message {
            Ok(Command::Cer(_)) => {
                Ok(answering(self.refusal(alloc, octets, ResultCode::UnableToComply)?))
            }
            Ok(Command::Rar(_)) => {
                Ok(answering(self.refusal(alloc, octets, ResultCode::CommandUnsupported)?))
            }
            Ok(Command::Cea(_)) => Ok(posting(alloc, None)),
            Ok(command) => Ok(posting(alloc, self.message(alloc, at, octets, peer, command)?)),
            Err(fault) => Ok(answering(self.later_fault(alloc, octets, fault)?)),
        }
    }
}
