//! What a message's header says of it, without memory.

ghost use Rattle.std.specs.Prelude.{◌≡◌, ◌≤◌, [], None, Some, length, IfOk, IfErr, OnOk, slice_get};
ghost use Rattle.dia_tree.specs.Faults.{fault as message_fault};
ghost use Rattle.dia_command.specs.Header.{header_in};
ghost use Rattle.dia_msg.specs.Faults.{kind_in, header_faults, is_credit};

use base_codes::{CommandCode, HEADER_LEN, ResultCode, VERSION};
use dia_command::{CommandKind, Header, application_of, header_of};

/// The header of a message and the kind of its command, or the first fault of the header.
pub(crate) fn checked_header(octets: &[u8]) -> Result<(Header, CommandKind), ResultCode>
    ensures header { IfOk result (λ x. x.0 ≡ header_in octets.now) }
    ensures kind { IfOk result (λ x. kind_in octets.now ≡ Some x.1) }
    ensures whole { OnOk result (20 ≤ length octets.now) }
    ensures none { OnOk result (header_faults octets.now ≡ []) }
    ensures first { IfErr result (λ code. slice_get (header_faults octets.now) 0 ≡ Some (message_fault code None)) }
{
    if octets.len() < HEADER_LEN {
        return Err(ResultCode::InvalidMessageLength);
    }
    let header = header_of(octets);
    if header.length as usize != octets.len() || octets.len() % 4 != 0 {
        return Err(ResultCode::InvalidMessageLength);
    }
    if octets[0] != VERSION {
        return Err(ResultCode::UnsupportedVersion);
    }
    let Some(kind) = CommandKind::coded(header.command, header.flags.request) else {
        return Err(ResultCode::CommandUnsupported);
    };
    if header.application != application_of(header.command) {
        return Err(ResultCode::ApplicationUnsupported);
    }
    Ok((header, kind))
}

/// Whether a header is that of a Credit-Control-Request.
pub(crate) fn is_credit(header: &Header) -> bool
    ensures { result ≡ is_credit header.now }
{
    header.command == CommandCode::CreditControl.number() && header.flags.request
}
