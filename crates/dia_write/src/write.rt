//! The encoding of a command: how long it is, and its octets.

ghost use Rattle.std.specs.Prelude.{◌≡◌, ◌+◌, ◌<◌, ◌≤◌, ◌^◌, ◌↔◌, ◌++◌, List, ℕ, length, map, replicate, vec_len};
ghost use Rattle.std.specs.Prelude.{vec_capacity, OnOk, OnErr, IsErrOf};
ghost use Rattle.std.specs.Option.{SomeIff};
ghost use Rattle.dia_avp.specs.Encoding.{encoded, encoding};
ghost use Rattle.dia_command.specs.Header.{header_octets};
ghost use Rattle.dia_command.specs.Command.{fields};
ghost use Rattle.dia_command.specs.Field.{avp_of};
ghost use Rattle.dia_write.specs.Framing.{IsWholeMessage, IsFirstFrame};
ghost use Rattle.dia_write.specs.Values.{field_of, value_avps, values_avps};
ghost use Rattle.dia_write.specs.Filling.{IsFilled};
ghost use Rattle.dia_write.specs.Encoding.{message_len, encode, IsTooLong, Writes};

use crate::fill::{put, put_avps};
use crate::values::{Content, Values, total};
use base_codes::{AVP_HEADER_LEN, HEADER_LEN};
use dia_avp::{AvpList, WriteError};
use dia_command::{
    AvpFormat, CapabilitiesExchangeAnswer, CapabilitiesExchangeRequest, Command,
    CreditControlAnswer, CreditControlRequest, DeviceWatchdogAnswer, DeviceWatchdogRequest,
    DisconnectPeerAnswer, DisconnectPeerRequest, ErrorAnswer, Header, ReAuthAnswer, ReAuthRequest,
    TypedAvp, format_of,
};
use std::slice::from_ref;

// A length and the octets of a value's AVP, where 24 bits hold their sum.
#[tactic(auto, using(crate::proofs::WriteLemmas::length_with))]
fn with_value<T: Content>(start: usize, code: u32, avp: &TypedAvp<T>) -> Option<usize>
    requires { start < 2 ^ 24 }
    ensures { let len = start + length (encoded (avp_of T.data_of code avp.now)) in SomeIff result (len < 2 ^ 24) len }
{
    let data = avp.value.data_len()?;
    total(start, (AVP_HEADER_LEN + data).div_ceil(4) * 4)
}

// A length and the octets of the AVPs of values of one type, where 24 bits hold their sum.
fn with_each<T: Content>(start: usize, code: u32, list: &[TypedAvp<T>]) -> Option<usize>
    requires { start < 2 ^ 24 }
    ensures { let len = start + length (encoding (map (avp_of T.data_of code) list.now)) in
        SomeIff result (len < 2 ^ 24) len }
{
    let mut len = start;
    for avp in list {
        len = with_value(len, code, avp)?;
    }
    Some(len)
}

// A length and the octets of the values of a code, where 24 bits hold their sum.
fn with_values(start: usize, code: u32, values: &Values<'_>) -> Option<usize>
    requires { start < 2 ^ 24 }
    ensures { let len = start + length (encoding (value_avps code values.now)) in SomeIff result (len < 2 ^ 24) len }
{
    match *values {
        Values::Octets(list) => with_each(start, code, list),
        Values::Texts(list) => with_each(start, code, list),
        Values::Numbers(list) => with_each(start, code, list),
        Values::Types(list) => with_each(start, code, list),
        Values::Actions(list) => with_each(start, code, list),
        Values::Groups(list) => with_each(start, code, list),
    }
}

// A length and the octets of fields, where 24 bits hold their sum.
fn with_fields(start: usize, format: &[AvpFormat], fields: &[Values<'_>]) -> Option<usize>
    requires { start < 2 ^ 24 }
    ensures { let len = start + length (encoding (values_avps format.now fields.now)) in
        SomeIff result (len < 2 ^ 24) len }
{
    let mut len = start;
    let mut format = format;
    let mut fields = fields;
    'fields: while !format.is_empty() && !fields.is_empty() {
        len = with_values(len, format[0].code, &fields[0])?;
        format = &format[1..];
        fields = &fields[1..];
    }
    Some(len)
}

// How many octets a message of these fields and this rest has, where 24 bits hold the number.
fn length_of(format: &[AvpFormat], fields: &[Values<'_>], rest: &AvpList) -> Option<usize>
    ensures { let len = 20 + length (encoding (values_avps format.now fields.now ++ rest.now)) in
        SomeIff result (len < 2 ^ 24) len }
{
    let len = with_fields(HEADER_LEN, format, fields)?;
    total(len, rest.encoded_len()?)
}

// Puts the AVPs of values of one type under a code at a place, and says where they end.
fn put_each<T: Content>(code: u32, list: &[TypedAvp<T>], room: &mut [u8], at: usize) -> usize
    requires short { length (encoding (map (avp_of T.data_of code) list.now)) < 2 ^ 24 }
    requires fits { at + length (encoding (map (avp_of T.data_of code) list.now)) ≤ length room.old }
    ensures filled { (front : List ℕ) → IsFilled room.old front at
        → IsFilled room.new (front ++ encoding (map (avp_of T.data_of code) list.now)) result }
    ensures end { result ≡ at + length (encoding (map (avp_of T.data_of code) list.now)) }
    ensures len { length room.new ≡ length room.old }
{
    let mut to = at;
    for avp in list {
        to = avp.value.put(code, avp.mandatory, avp.protected, room, to);
    }
    to
}

// Puts the AVPs of the values of a code at a place, and says where they end.
fn put_values(code: u32, values: &Values<'_>, room: &mut [u8], at: usize) -> usize
    requires short { length (encoding (value_avps code values.now)) < 2 ^ 24 }
    requires fits { at + length (encoding (value_avps code values.now)) ≤ length room.old }
    ensures filled { (front : List ℕ) → IsFilled room.old front at
        → IsFilled room.new (front ++ encoding (value_avps code values.now)) result }
    ensures end { result ≡ at + length (encoding (value_avps code values.now)) }
    ensures len { length room.new ≡ length room.old }
{
    match *values {
        Values::Octets(list) => put_each(code, list, room, at),
        Values::Texts(list) => put_each(code, list, room, at),
        Values::Numbers(list) => put_each(code, list, room, at),
        Values::Types(list) => put_each(code, list, room, at),
        Values::Actions(list) => put_each(code, list, room, at),
        Values::Groups(list) => put_each(code, list, room, at),
    }
}

// Puts the AVPs of fields at a place, and says where they end.
fn put_fields(format: &[AvpFormat], fields: &[Values<'_>], room: &mut [u8], at: usize) -> usize
    requires short { length (encoding (values_avps format.now fields.now)) < 2 ^ 24 }
    requires fits { at + length (encoding (values_avps format.now fields.now)) ≤ length room.old }
    ensures filled { (front : List ℕ) → IsFilled room.old front at
        → IsFilled room.new (front ++ encoding (values_avps format.now fields.now)) result }
    ensures end { result ≡ at + length (encoding (values_avps format.now fields.now)) }
    ensures len { length room.new ≡ length room.old }
{
    match (format.split_first(), fields.split_first()) {
        (Some((entry, format)), Some((values, fields))) => {
            let to = put_values(entry.code, values, room, at);
            put_fields(format, fields, room, to)
        }
        _ => at,
    }
}

// Puts a message of these fields and this rest into room of its length.
fn put_all(
    header: &Header,
    format: &[AvpFormat],
    fields: &[Values<'_>],
    rest: &AvpList,
    room: &mut [u8],
)
    requires short { length room.old < 2 ^ 24 }
    requires len { length room.old ≡ 20 + length (encoding (values_avps format.now fields.now ++ rest.now)) }
    requires zeros { room.old ≡ replicate (length room.old) 0 }
    ensures { room.new ≡ header_octets header.now (length room.old)
        ++ encoding (values_avps format.now fields.now ++ rest.now) }
{
    let len = room.len();
    put(room, 0, &header.octets(len as u32));
    let to = put_fields(format, fields, room, HEADER_LEN);
    put_avps(rest.as_slice(), room, to);
}

// Appends a command whose fields these are.
fn write_fields(
    command: &Command,
    values: &[Values<'_>],
    out: &mut Vec<u8>,
) -> Result<(), WriteError>
    requires { map field_of values.now ≡ fields command.now }
    ensures { Writes command.now result out.old.items out.new.items (vec_len out.old) (vec_capacity out.old)
        (vec_capacity out.new) }
{
    let format = format_of(command.kind(), false);
    let Some(len) = length_of(format, values, command.rest()) else {
        return Err(WriteError::LengthOver24Bits);
    };
    out.reserve(len)?;
    let start = out.len();
    out.resize(start + len, 0).unwrap();
    let room = &mut out.as_mut_slice()[start..];
    put_all(command.header(), format, values, command.rest(), room);
    Ok(())
}

// A command's fields, each with the type of its values: `[field]` has one, `field` none or more.
macro_rules! listed {
    ($c:ident: $($of:ident $field:tt),*) => {
        [$(Values::$of(values!($c $field))),*]
    };
}

macro_rules! values {
    ($c:ident [$field:ident]) => {
        from_ref(&$c.$field)
    };
    ($c:ident $field:ident) => {
        $c.$field.as_slice()
    };
}

fn capabilities_exchange_request_fields(c: &CapabilitiesExchangeRequest) -> [Values<'_>; 6]
    ensures { map field_of result ≡ fields (Command.Cer c.now) }
{
    listed![c:
        Octets [origin_host], Octets [origin_realm], Octets host_ip_address,
        Numbers [vendor_id], Texts [product_name], Numbers auth_application_id
    ]
}

fn capabilities_exchange_answer_fields(c: &CapabilitiesExchangeAnswer) -> [Values<'_>; 7]
    ensures { map field_of result ≡ fields (Command.Cea c.now) }
{
    listed![c:
        Numbers [result_code], Octets [origin_host], Octets [origin_realm],
        Octets host_ip_address, Numbers [vendor_id], Texts [product_name],
        Numbers auth_application_id
    ]
}

fn device_watchdog_request_fields(c: &DeviceWatchdogRequest) -> [Values<'_>; 2]
    ensures { map field_of result ≡ fields (Command.Dwr c.now) }
{
    listed![c: Octets [origin_host], Octets [origin_realm]]
}

fn device_watchdog_answer_fields(c: &DeviceWatchdogAnswer) -> [Values<'_>; 3]
    ensures { map field_of result ≡ fields (Command.Dwa c.now) }
{
    listed![c: Numbers [result_code], Octets [origin_host], Octets [origin_realm]]
}

fn disconnect_peer_request_fields(c: &DisconnectPeerRequest) -> [Values<'_>; 3]
    ensures { map field_of result ≡ fields (Command.Dpr c.now) }
{
    listed![c: Octets [origin_host], Octets [origin_realm], Numbers [disconnect_cause]]
}

fn disconnect_peer_answer_fields(c: &DisconnectPeerAnswer) -> [Values<'_>; 3]
    ensures { map field_of result ≡ fields (Command.Dpa c.now) }
{
    listed![c: Numbers [result_code], Octets [origin_host], Octets [origin_realm]]
}

fn re_auth_request_fields(c: &ReAuthRequest) -> [Values<'_>; 7]
    ensures { map field_of result ≡ fields (Command.Rar c.now) }
{
    listed![c:
        Texts [session_id], Octets [origin_host], Octets [origin_realm],
        Octets [destination_realm], Octets [destination_host], Numbers [auth_application_id],
        Numbers [re_auth_request_type]
    ]
}

fn re_auth_answer_fields(c: &ReAuthAnswer) -> [Values<'_>; 4]
    ensures { map field_of result ≡ fields (Command.Raa c.now) }
{
    listed![c:
        Texts [session_id], Numbers [result_code], Octets [origin_host], Octets [origin_realm]
    ]
}

fn credit_control_request_fields(c: &CreditControlRequest) -> [Values<'_>; 14]
    ensures { map field_of result ≡ fields (Command.Ccr c.now) }
{
    listed![c:
        Texts [session_id], Octets [origin_host], Octets [origin_realm],
        Octets [destination_realm], Numbers [auth_application_id], Texts [service_context_id],
        Types [cc_request_type], Numbers [cc_request_number], Groups subscription_id,
        Actions requested_action, Groups requested_service_unit, Groups used_service_unit,
        Numbers multiple_services_indicator, Groups multiple_services_credit_control
    ]
}

fn credit_control_answer_fields(c: &CreditControlAnswer) -> [Values<'_>; 11]
    ensures { map field_of result ≡ fields (Command.Cca c.now) }
{
    listed![c:
        Texts [session_id], Numbers [result_code], Octets [origin_host], Octets [origin_realm],
        Numbers [auth_application_id], Types [cc_request_type], Numbers [cc_request_number],
        Groups granted_service_unit, Groups final_unit_indication, Numbers check_balance_result,
        Groups multiple_services_credit_control
    ]
}

fn error_answer_fields(c: &ErrorAnswer) -> [Values<'_>; 5]
    ensures { map field_of result ≡ fields (Command.ErrorAnswer c.now) }
{
    listed![c:
        Texts session_id, Octets [origin_host], Octets [origin_realm], Numbers [result_code],
        Octets failed_avp
    ]
}

// A command of each kind, written by a function of its own:
// the room of a list of values is made, and cleared, only where it is used.
#[inline(never)]
fn write_capabilities_exchange_request(
    command: &Command,
    c: &CapabilitiesExchangeRequest,
    out: &mut Vec<u8>,
) -> Result<(), WriteError>
    requires { command.now ≡ Command.Cer c.now }
    ensures { Writes command.now result out.old.items out.new.items (vec_len out.old) (vec_capacity out.old)
        (vec_capacity out.new) }
{
    write_fields(command, &capabilities_exchange_request_fields(c), out)
}

#[inline(never)]
fn write_capabilities_exchange_answer(
    command: &Command,
    c: &CapabilitiesExchangeAnswer,
    out: &mut Vec<u8>,
) -> Result<(), WriteError>
    requires { command.now ≡ Command.Cea c.now }
    ensures { Writes command.now result out.old.items out.new.items (vec_len out.old) (vec_capacity out.old)
        (vec_capacity out.new) }
{
    write_fields(command, &capabilities_exchange_answer_fields(c), out)
}

#[inline(never)]
fn write_device_watchdog_request(
    command: &Command,
    c: &DeviceWatchdogRequest,
    out: &mut Vec<u8>,
) -> Result<(), WriteError>
    requires { command.now ≡ Command.Dwr c.now }
    ensures { Writes command.now result out.old.items out.new.items (vec_len out.old) (vec_capacity out.old)
        (vec_capacity out.new) }
{
    write_fields(command, &device_watchdog_request_fields(c), out)
}

#[inline(never)]
fn write_device_watchdog_answer(
    command: &Command,
    c: &DeviceWatchdogAnswer,
    out: &mut Vec<u8>,
) -> Result<(), WriteError>
    requires { command.now ≡ Command.Dwa c.now }
    ensures { Writes command.now result out.old.items out.new.items (vec_len out.old) (vec_capacity out.old)
        (vec_capacity out.new) }
{
    write_fields(command, &device_watchdog_answer_fields(c), out)
}

#[inline(never)]
fn write_disconnect_peer_request(
    command: &Command,
    c: &DisconnectPeerRequest,
    out: &mut Vec<u8>,
) -> Result<(), WriteError>
    requires { command.now ≡ Command.Dpr c.now }
    ensures { Writes command.now result out.old.items out.new.items (vec_len out.old) (vec_capacity out.old)
        (vec_capacity out.new) }
{
    write_fields(command, &disconnect_peer_request_fields(c), out)
}

#[inline(never)]
fn write_disconnect_peer_answer(
    command: &Command,
    c: &DisconnectPeerAnswer,
    out: &mut Vec<u8>,
) -> Result<(), WriteError>
    requires { command.now ≡ Command.Dpa c.now }
    ensures { Writes command.now result out.old.items out.new.items (vec_len out.old) (vec_capacity out.old)
        (vec_capacity out.new) }
{
    write_fields(command, &disconnect_peer_answer_fields(c), out)
}

#[inline(never)]
fn write_re_auth_request(
    command: &Command,
    c: &ReAuthRequest,
    out: &mut Vec<u8>,
) -> Result<(), WriteError>
    requires { command.now ≡ Command.Rar c.now }
    ensures { Writes command.now result out.old.items out.new.items (vec_len out.old) (vec_capacity out.old)
        (vec_capacity out.new) }
{
    write_fields(command, &re_auth_request_fields(c), out)
}

#[inline(never)]
fn write_re_auth_answer(
    command: &Command,
    c: &ReAuthAnswer,
    out: &mut Vec<u8>,
) -> Result<(), WriteError>
    requires { command.now ≡ Command.Raa c.now }
    ensures { Writes command.now result out.old.items out.new.items (vec_len out.old) (vec_capacity out.old)
        (vec_capacity out.new) }
{
    write_fields(command, &re_auth_answer_fields(c), out)
}

#[inline(never)]
fn write_credit_control_request(
    command: &Command,
    c: &CreditControlRequest,
    out: &mut Vec<u8>,
) -> Result<(), WriteError>
    requires { command.now ≡ Command.Ccr c.now }
    ensures { Writes command.now result out.old.items out.new.items (vec_len out.old) (vec_capacity out.old)
        (vec_capacity out.new) }
{
    write_fields(command, &credit_control_request_fields(c), out)
}

#[inline(never)]
fn write_credit_control_answer(
    command: &Command,
    c: &CreditControlAnswer,
    out: &mut Vec<u8>,
) -> Result<(), WriteError>
    requires { command.now ≡ Command.Cca c.now }
    ensures { Writes command.now result out.old.items out.new.items (vec_len out.old) (vec_capacity out.old)
        (vec_capacity out.new) }
{
    write_fields(command, &credit_control_answer_fields(c), out)
}

#[inline(never)]
fn write_error_answer(
    command: &Command,
    c: &ErrorAnswer,
    out: &mut Vec<u8>,
) -> Result<(), WriteError>
    requires { command.now ≡ Command.ErrorAnswer c.now }
    ensures { Writes command.now result out.old.items out.new.items (vec_len out.old) (vec_capacity out.old)
        (vec_capacity out.new) }
{
    write_fields(command, &error_answer_fields(c), out)
}

// Appends a command, its fields in the order of its format.
fn write_command(command: &Command, out: &mut Vec<u8>) -> Result<(), WriteError>
    ensures { Writes command.now result out.old.items out.new.items (vec_len out.old) (vec_capacity out.old)
        (vec_capacity out.new) }
{
    match command {
        Command::Cer(c) => write_capabilities_exchange_request(command, c, out),
        Command::Cea(c) => write_capabilities_exchange_answer(command, c, out),
        Command::Dwr(c) => write_device_watchdog_request(command, c, out),
        Command::Dwa(c) => write_device_watchdog_answer(command, c, out),
        Command::Dpr(c) => write_disconnect_peer_request(command, c, out),
        Command::Dpa(c) => write_disconnect_peer_answer(command, c, out),
        Command::Rar(c) => write_re_auth_request(command, c, out),
        Command::Raa(c) => write_re_auth_answer(command, c, out),
        Command::Ccr(c) => write_credit_control_request(command, c, out),
        Command::Cca(c) => write_credit_control_answer(command, c, out),
        Command::ErrorAnswer(c) => write_error_answer(command, c, out),
    }
}

/// Appends the canonical encoding of a command (RFC 6733 sections 3 and 4): the AVPs of its fields in the
/// order of its format, then `rest`. Reserved bits and padding are zero, and the length is computed. `out`
/// grows by its own allocator, once.
pub fn write_message(command: &Command, out: &mut Vec<u8>) -> Result<(), WriteError>
    ensures ok { OnOk result (out.new.items ≡ out.old.items ++ encode command.now) }

    // A length that 24 bits don't hold is refused, whatever the memory.
    ensures too_long { IsErrOf result WriteError.LengthOver24Bits ↔ IsTooLong command.now }
    ensures err { OnErr result (out.new.items ≡ out.old.items) }

    // Memory is wanting only where there is no room for it, and the room stays.
    ensures memory { IsErrOf result WriteError.NoMemory
        → vec_capacity out.old < vec_len out.old + message_len command.now }
    ensures room { vec_capacity out.old ≤ vec_capacity out.new }

    // What was written is one message by its own header.
    ensures message { OnOk result (IsWholeMessage (encode command.now)) }

    // Within a framer's limit it is the first frame of itself, whatever comes behind it.
    ensures frame { OnOk result (IsFirstFrame (encode command.now)) }
{
    write_command(command, out)
}
