//! The line of a message.
ghost use Rattle.std.specs.Prelude.{◌≡◌, ◌≤◌, ◌++◌, OnOk, length};
ghost use Rattle.dia_command.specs.Header.{header_in};
ghost use Rattle.msg_explain.specs.Messages.{header_letters, session_in, session_text, numbered, of_line, command_line};
ghost use Rattle.msg_explain.specs.Messages.{front_fields, application_text, identifiers, fields_text, short_text};
ghost use Rattle.msg_explain.specs.Messages.{whole_text, header_text, message_line, bytes_of};

use crate::lines::flag_letter;
use base_codes::{HEADER_LEN, avp_code};
use base_text::put_number;
use dia_avp::first_in;
use dia_command::{Header, header_of};
use dia_show::{put_command, put_octets, put_quoted};
use std::alloc::AllocError;

#[tactic(auto, unfolding(crate::specs::Messages::header_letters))]
fn put_letters(out: &mut Vec<u8>, flags: u8) -> Result<(), AllocError>
    ensures { OnOk result (out.new.items ≡ out.old.items ++ header_letters flags) }
{
    out.extend_from_slice(&[
        flag_letter(flags, 0x80, b'R'),
        flag_letter(flags, 0x40, b'P'),
        flag_letter(flags, 0x20, b'E'),
        flag_letter(flags, 0x10, b'T'),
    ])
}

/// The data of the first Session-Id among the AVPs that octets are, as far as they are AVPs.
pub fn session_in(octets: &[u8]) -> Option<&[u8]>
    ensures { bytes_of result ≡ session_in octets.now }
{
    match first_in(octets, avp_code::SESSION_ID) {
        Some(avp) => Some(avp.octets),
        None => None,
    }
}

fn put_session(out: &mut Vec<u8>, session: Option<&[u8]>) -> Result<(), AllocError>
    ensures { OnOk result (out.new.items ≡ out.old.items ++ session_text (bytes_of session.entry)) }
{
    match session {
        None => Ok(()),
        Some(name) => {
            out.extend_from_slice(b", session ")?;
            put_quoted(out, name)
        }
    }
}

fn put_of_line(out: &mut Vec<u8>, line: Option<u64>) -> Result<(), AllocError>
    ensures { OnOk result (out.new.items ≡ out.old.items ++ of_line line) }
{
    match line {
        None => Ok(()),
        Some(line) => put_number(out, b" of line ", line),
    }
}

/// Puts the number of a message, and where it begins.
#[tactic(auto, unfolding(crate::specs::Messages::numbered))]
pub(crate) fn put_numbered(
    out: &mut Vec<u8>,
    line: Option<u64>,
    number: u64,
    offset: u64,
) -> Result<(), AllocError>
    ensures { OnOk result (out.new.items ≡ out.old.items ++ numbered line number offset) }
{
    put_number(out, b"message ", number)?;
    put_number(out, b" at octet ", offset)?;
    put_of_line(out, line)?;
    out.extend_from_slice(b": ")
}

#[tactic(auto, unfolding(crate::specs::Messages::command_line))]
fn put_command_line(out: &mut Vec<u8>, header: &Header, octets: &[u8]) -> Result<(), AllocError>
    requires whole { 20 ≤ length octets.now }
    requires header { header.now ≡ header_in octets.now }
    ensures { OnOk result (out.new.items ≡ out.old.items ++ command_line octets.now) }
{
    put_command(out, header.command, header.flags.request)?;
    out.extend_from_slice(b" ")?;
    put_letters(out, octets[4])
}

#[tactic(auto, unfolding(crate::specs::Messages::front_fields))]
fn put_front_fields(out: &mut Vec<u8>, version: u8, header: &Header) -> Result<(), AllocError>
    ensures { OnOk result (out.new.items ≡ out.old.items ++ front_fields version header.now) }
{
    put_number(out, b", version ", u64::from(version))?;
    put_number(out, b", length ", u64::from(header.length))?;
    put_number(out, b", command ", u64::from(header.command))
}

#[tactic(auto, unfolding(crate::specs::Messages::application_text))]
fn put_application(out: &mut Vec<u8>, header: &Header) -> Result<(), AllocError>
    ensures { OnOk result (out.new.items ≡ out.old.items ++ application_text header.now) }
{
    put_number(out, b", application ", u64::from(header.application))
}

#[tactic(auto, unfolding(crate::specs::Messages::identifiers))]
fn put_identifiers(out: &mut Vec<u8>, header: &Header) -> Result<(), AllocError>
    ensures { OnOk result (out.new.items ≡ out.old.items ++ identifiers header.now) }
{
    put_number(out, b", hop-by-hop ", u64::from(header.hop_by_hop))?;
    put_number(out, b", end-to-end ", u64::from(header.end_to_end))
}

#[tactic(auto, unfolding(crate::specs::Messages::fields_text))]
fn put_fields(out: &mut Vec<u8>, version: u8, header: &Header) -> Result<(), AllocError>
    ensures { OnOk result (out.new.items ≡ out.old.items ++ fields_text version header.now) }
{
    put_front_fields(out, version, header)?;
    put_application(out, header)?;
    put_identifiers(out, header)
}

#[tactic(auto, unfolding(crate::specs::Messages::short_text))]
fn put_short(out: &mut Vec<u8>, octets: &[u8]) -> Result<(), AllocError>
    ensures { OnOk result (out.new.items ≡ out.old.items ++ short_text octets.now) }
{
    out.extend_from_slice(b"no whole header ")?;
    put_octets(out, octets)
}

#[tactic(auto, unfolding(crate::specs::Messages::whole_text))]
fn put_whole(out: &mut Vec<u8>, octets: &[u8]) -> Result<(), AllocError>
    requires { 20 ≤ length octets.now }
    ensures { OnOk result (out.new.items ≡ out.old.items ++ whole_text octets.now) }
{
    let header = header_of(octets);
    let (_, avps) = octets.split_at(HEADER_LEN);
    put_command_line(out, &header, octets)?;
    put_fields(out, octets[0], &header)?;
    put_session(out, session_in(avps))
}

fn put_header(out: &mut Vec<u8>, octets: &[u8]) -> Result<(), AllocError>
    ensures { OnOk result (out.new.items ≡ out.old.items ++ header_text octets.now) }
{
    if octets.len() < HEADER_LEN {
        return put_short(out, octets);
    }
    put_whole(out, octets)
}

/// Puts the first line of a message, the `number`th of an input, which begins at `offset` in it.
#[tactic(auto, unfolding(crate::specs::Messages::message_line))]
pub(crate) fn put_message_line(
    out: &mut Vec<u8>,
    line: Option<u64>,
    number: u64,
    offset: u64,
    octets: &[u8],
) -> Result<(), AllocError>
    ensures { OnOk result (out.new.items ≡ out.old.items ++ message_line line number offset octets.now) }
{
    put_numbered(out, line, number, offset)?;
    put_header(out, octets)?;
    out.extend_from_slice(b"\n")
}
