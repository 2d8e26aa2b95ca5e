//! From a command to the event of a client's session.

ghost use Rattle.std.specs.Prelude.{◌≡◌};
ghost use Rattle.client_rules.specs.Kinds.{name_of};
ghost use Rattle.charge_session.specs.Events.{client_name, client_event};

use crate::kind::answer_kind;
use charge_facts::answer_facts;
use client_rules::ClientKind;
use dia_command::Command;
use tab_step::Event;

/// The kind of event that an answer is.
fn kind_of(command: &Command) -> ClientKind
    ensures { name_of result ≡ client_name command.now }
{
    match command {
        Command::Cca(answer) => answer_kind(answer.cc_request_type.value),
        _ => ClientKind::CcaFault,
    }
}

/// The event that a command is for a session of a credit-control client: a Credit-Control-Answer by its CC-Request-Type
/// (RFC 8506 section 8.3), or an answer that tells a fault of credit control to a session (RFC 6733 section 7.2), with
/// the facts of `answer_facts`; no other command is one. The kind is its place in the laws of a client. Facts of peer
/// and line are 0. Takes no memory.
pub fn client_event(command: &Command) -> Option<Event>
    ensures { result ≡ client_event command.now }
{
    let facts = answer_facts(command)?;
    Some(Event {
        kind: kind_of(command).place(),
        facts,
    })
}
