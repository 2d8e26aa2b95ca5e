//! From a command to the kind of its event.

ghost use Rattle.std.specs.Prelude.{◌≡◌};
ghost use Rattle.std.specs.Option.{option_map};
ghost use Rattle.peer_rules.specs.Kinds.{name_of};
ghost use Rattle.peer_rules.specs.Events.{is_message, event_name, event_place};

use crate::kind::PeerKind;
use base_codes::{CommandCode, ResultCode};
use dia_command::{Command, ErrorAnswer};

/// Who opened a connection (RFC 6733 section 5.6).
#[derive(Clone, Copy, PartialEq, Eq)]
pub enum Side {
    /// This node, the initiator.
    I,
    /// Its peer, the responder's connection.
    R,
}

impl Side {
    ghost use Rattle.peer_rules.specs.Sides.{either};

    /// The one of two kinds that is of this side.
    fn of(self, initiator: PeerKind, responder: PeerKind) -> PeerKind
        ensures { result ≡ either self initiator responder }
    {
        match self {
            Side::I => initiator,
            Side::R => responder,
        }
    }
}

/// Whether an error answer is one of credit control to a session.
fn is_message(answer: &ErrorAnswer) -> bool
    ensures { result ≡ is_message answer.now }
{
    answer.header.command == CommandCode::CreditControl.number() && answer.session_id.is_some()
}

/// The kind of event that a command is.
fn kind_of(command: &Command, side: Side) -> Option<PeerKind>
    ensures { option_map name_of result ≡ event_name command.now side }
{
    let kind = match command {
        Command::Dwr(_) => side.of(PeerKind::IRcvDwr, PeerKind::RRcvDwr),
        Command::Dwa(_) => side.of(PeerKind::IRcvDwa, PeerKind::RRcvDwa),
        Command::Dpr(_) => side.of(PeerKind::IRcvDpr, PeerKind::RRcvDpr),
        Command::Dpa(_) => side.of(PeerKind::IRcvDpa, PeerKind::RRcvDpa),
        Command::Ccr(_) | Command::Cca(_) => side.of(PeerKind::IRcvMessage, PeerKind::RRcvMessage),
        Command::ErrorAnswer(answer) if is_message(answer) => {
            side.of(PeerKind::IRcvMessage, PeerKind::RRcvMessage)
        }
        Command::Cer(_) if side == Side::R => PeerKind::RConnCer,
        Command::Cea(answer) if side == Side::I => {
            if answer.result_code.value == ResultCode::Success.number() {
                PeerKind::IRcvCea
            } else {
                PeerKind::IRcvNonCea
            }
        }
        _ => return None,
    };
    Some(kind)
}

/// The kind of event that a command is where it comes on a connection of that side, as its place in the laws of a
/// peer's machine; none where it is no event (RFC 6733 section 5.6.2). Takes no memory.
///
/// DWR, DWA, DPR and DPA are events of their own, CCR, CCA and the error answers of credit control with a Session-Id
/// are messages; the connection must have exchanged capabilities, which is not looked at. A CER is one from the
/// responder's side alone, a CEA from the initiator's.
pub fn peer_event(command: &Command, side: Side) -> Option<u8>
    ensures { result ≡ event_place command.now side }
{
    match kind_of(command, side) {
        Some(kind) => Some(kind.place()),
        None => None,
    }
}
