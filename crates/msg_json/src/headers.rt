//! A message's header (RFC 6733 section 3) and session.

use crate::members::{no_memory, put_digits, put_made, put_null, put_number, put_text};
use base_codes::HEADER_LEN;
use dia_command::{Header, header_of};
use dia_show::{command_letters, put_command};
use msg_explain::{flag_letter, session_in};
use serde::Serializer;
use std::alloc::Global;

fn put_flags<S: Serializer>(out: &mut S, flags: u8) -> Result<(), S::Error> {
    let letters = [
        flag_letter(flags, 0x80, b'R'),
        flag_letter(flags, 0x40, b'P'),
        flag_letter(flags, 0x20, b'E'),
        flag_letter(flags, 0x10, b'T'),
    ];
    put_made(out, "flags", &letters)
}

// The abbreviation of a command has three letters, and its name stands one blank behind them.
fn put_names<S: Serializer>(out: &mut S, alloc: Global, header: &Header) -> Result<(), S::Error> {
    if command_letters(header.command).is_empty() {
        put_null(out, "abbreviation")?;
        return put_null(out, "name");
    }
    let mut text = Vec::new(alloc);
    if put_command(&mut text, header.command, header.flags.request).is_err() {
        return Err(no_memory(out));
    }
    let (letters, name) = text.split_at(3.min(text.len()));
    put_made(out, "abbreviation", letters)?;
    put_made(out, "name", &name[1.min(name.len())..])
}

fn put_session<S: Serializer>(
    out: &mut S,
    alloc: Global,
    session: Option<&[u8]>,
) -> Result<(), S::Error> {
    match session {
        None => put_null(out, "session"),
        Some(name) => put_text(out, alloc, ("session", "session_hex"), name),
    }
}

fn put_fields<S: Serializer>(out: &mut S, version: u8, header: &Header) -> Result<(), S::Error> {
    put_number(out, "version", u64::from(version))?;
    put_number(out, "length", u64::from(header.length))?;
    put_number(out, "command", u64::from(header.command))?;
    put_number(out, "application", u64::from(header.application))?;
    put_number(out, "hop_by_hop", u64::from(header.hop_by_hop))?;
    put_number(out, "end_to_end", u64::from(header.end_to_end))
}

/// The fields of a whole header, and the session behind them, or the octets of a message that has none.
pub(crate) fn put_header<S: Serializer>(
    out: &mut S,
    alloc: Global,
    octets: &[u8],
) -> Result<(), S::Error> {
    if octets.len() < HEADER_LEN {
        return put_digits(out, alloc, "hex", octets);
    }
    let header = header_of(octets);
    let (_, avps) = octets.split_at(HEADER_LEN);
    put_names(out, alloc, &header)?;
    put_flags(out, octets[4])?;
    put_fields(out, octets[0], &header)?;
    put_session(out, alloc, session_in(avps))
}
