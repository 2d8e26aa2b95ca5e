//! From a command to the event of a server's session.

ghost use Rattle.std.specs.Prelude.{◌≡◌};
ghost use Rattle.charge_session.specs.Events.{server_event};

use crate::kind::request_kind;
use charge_facts::request_facts;
use dia_command::Command;
use tab_step::Event;

/// The event that a command is for a session of a credit-control server: a Credit-Control-Request by its
/// CC-Request-Type (RFC 8506 section 8.3), with the facts of `request_facts`; no other command is one. The kind is its
/// place in the laws of a server. Facts of peer and line, and those of a quote, are 0. Takes no memory.
pub fn server_event(command: &Command, default_units: u64) -> Option<Event>
    ensures { result ≡ server_event command.now default_units }
{
    let Command::Ccr(request) = command else {
        return None;
    };
    Some(Event {
        kind: request_kind(request.cc_request_type.value).place(),
        facts: request_facts(request, default_units),
    })
}
