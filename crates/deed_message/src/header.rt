//! The headers of the requests and answers that deeds send.
ghost use Rattle.std.specs.Prelude.{◌≡◌};
ghost use Rattle.deed_message.specs.Headers.{is_proxiable, header, lowest, identifier, request_header, answer_header};

use base_codes::CommandCode;
use dia_command::{Flags, Header, application_of};

fn is_proxiable(command: CommandCode) -> bool
    ensures { result ≡ is_proxiable command }
{
    match command {
        CommandCode::CreditControl => true,
        _ => false,
    }
}

fn header(
    command: CommandCode,
    request: bool,
    error: bool,
    hop_by_hop: u32,
    end_to_end: u32,
) -> Header
    ensures { result ≡ header command request error hop_by_hop end_to_end }
{
    Header {
        length: 0,
        flags: Flags {
            request,
            proxiable: is_proxiable(command),
            error,
            retransmitted: false,
        },
        command: command.number(),
        application: application_of(command.number()),
        hop_by_hop,
        end_to_end,
    }
}

/// The lowest 32 bits, as which a number stands in four octets.
pub fn lowest(number: u64) -> u32
    ensures { result ≡ lowest number }
{
    (number % 0x1_0000_0000) as u32
}

fn identifier(machine: u64, count: u64) -> u32
    ensures { result ≡ identifier machine count }
{
    (machine % 0x1_0000 * 0x1_0000 + count % 0x1_0000) as u32
}

/// The header of a request that a machine sends. Both identifiers are the machine's number times 65,536 and the count
/// of its requests modulo 65,536, modulo 2^32 (RFC 6733 section 3). Application-Id is the command's; flag P is set in
/// credit control alone. `length` is 0: writing computes it.
pub fn request_header(command: CommandCode, machine: u64, count: u64) -> Header
    ensures { result ≡ request_header command machine count }
{
    let identifier = identifier(machine, count);
    header(command, true, false, identifier, identifier)
}

/// The header of an answer that a machine sends, with its request's identifiers modulo 2^32, and with flag E where
/// `error` says so (RFC 6733 section 7.1.3). Application-Id is the command's; flag P is set in credit control alone,
/// whatever the request had. `length` is 0: writing computes it.
pub fn answer_header(command: CommandCode, error: bool, hop_by_hop: u64, end_to_end: u64) -> Header
    ensures { result ≡ answer_header command error hop_by_hop end_to_end }
{
    header(
        command,
        false,
        error,
        lowest(hop_by_hop),
        lowest(end_to_end),
    )
}
