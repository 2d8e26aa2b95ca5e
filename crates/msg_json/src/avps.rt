//! The AVPs of a message in the order of the octets, those of a group inside it.

use crate::members::{put_made, put_null, put_number, put_word};
use crate::values::{put_value, put_wrong, type_name};
use dia_avp::{AvpView, FaultCode, MAX_DEPTH, avp_at};
use dia_dict::{AvpKind, Definition};
use dia_show::Glossary;
use dia_tree::{cut_avp, number_at, octet_at};
use msg_explain::{Part, broken_words, flag_letter, length_at};
use serde::Serializer;
use std::alloc::Global;

/// The Vendor-ID, null where there is none.
pub(crate) fn put_vendor<S: Serializer>(out: &mut S, vendor: Option<u32>) -> Result<(), S::Error> {
    match vendor {
        None => put_null(out, "vendor"),
        Some(vendor) => put_number(out, "vendor", u64::from(vendor)),
    }
}

// With flag V, also where it is 0.
fn vendor_at(octets: &[u8]) -> Option<u32> {
    if octet_at(octets, 4) & 0x80 == 0 {
        return None;
    }
    Some(number_at(octets, 8))
}

/// The name that the dictionary has, null where it has none.
pub(crate) fn put_name<S: Serializer>(
    out: &mut S,
    definition: Option<&Definition>,
) -> Result<(), S::Error> {
    match definition {
        None => put_null(out, "name"),
        Some(definition) => put_made(out, "name", definition.name.as_slice()),
    }
}

fn put_type<S: Serializer>(out: &mut S, definition: Option<&Definition>) -> Result<(), S::Error> {
    match definition {
        None => put_null(out, "type"),
        Some(definition) => put_word(out, "type", type_name(definition.kind)),
    }
}

fn put_flags<S: Serializer>(out: &mut S, flags: u8) -> Result<(), S::Error> {
    let letters = [
        flag_letter(flags, 0x80, b'V'),
        flag_letter(flags, 0x40, b'M'),
        flag_letter(flags, 0x20, b'P'),
    ];
    put_made(out, "flags", &letters)
}

// What an AVP's header and the dictionary say of it.
fn put_title<S: Serializer>(
    out: &mut S,
    part: &Part<'_>,
    definition: Option<&Definition>,
) -> Result<(), S::Error> {
    put_number(out, "place", part.place as u64)?;
    put_number(out, "code", u64::from(number_at(part.octets, 0)))?;
    put_vendor(out, vendor_at(part.octets))?;
    put_name(out, definition)?;
    put_flags(out, octet_at(part.octets, 4))?;
    put_number(out, "length", u64::from(length_at(part.octets)))?;
    put_type(out, definition)
}

fn is_opened(definition: Option<&Definition>, room: u8) -> bool {
    match definition {
        None => false,
        Some(definition) => definition.kind == AvpKind::Grouped && room > 0,
    }
}

// A whole AVP. The object of a group that is opened stays open, with the list in it.
fn put_whole<S: Serializer>(
    out: &mut S,
    alloc: Global,
    glossary: &Glossary,
    part: &Part<'_>,
    avp: &AvpView<'_>,
) -> Result<u8, S::Error> {
    let definition = glossary.definitions().find(avp.code, avp.vendor);
    put_title(out, part, definition)?;
    if is_opened(definition, part.room) {
        out.key("avps")?;
        out.begin_seq(None)?;
        return Ok(part.room.saturating_sub(1));
    }
    put_value(out, alloc, glossary, definition, avp)?;
    out.end_map()?;
    Ok(part.room)
}

// An AVP that is broken, with all octets behind it.
fn put_broken<S: Serializer>(
    out: &mut S,
    alloc: Global,
    glossary: &Glossary,
    part: &Part<'_>,
    code: FaultCode,
) -> Result<(), S::Error> {
    let cut = cut_avp(part.octets);
    put_title(out, part, glossary.definitions().find(cut.code, cut.vendor))?;
    put_wrong(out, alloc, broken_words(code), part.octets)?;
    out.end_map()
}

// Says how many levels of groups may still be opened in the list that is open behind it.
fn put_part<S: Serializer>(
    out: &mut S,
    alloc: Global,
    glossary: &Glossary,
    part: &Part<'_>,
) -> Result<u8, S::Error> {
    out.begin_map(None)?;
    match avp_at(part.octets) {
        Ok((avp, _)) => put_whole(out, alloc, glossary, part, &avp),
        Err(code) => {
            put_broken(out, alloc, glossary, part, code)?;
            Ok(part.room)
        }
    }
}

// Ends the groups that are open below a level.
fn end_groups<S: Serializer>(out: &mut S, room: u8, level: u8) -> Result<(), S::Error> {
    for _ in room..level {
        out.end_seq()?;
        out.end_map()?;
    }
    Ok(())
}

/// The list of AVPs, each with what it says.
pub(crate) fn put_avps<S: Serializer>(
    out: &mut S,
    alloc: Global,
    glossary: &Glossary,
    parts: &[Part<'_>],
) -> Result<(), S::Error> {
    out.key("avps")?;
    out.begin_seq(None)?;
    let mut room = MAX_DEPTH;
    for part in parts {
        end_groups(out, room, part.room)?;
        room = put_part(out, alloc, glossary, part)?;
    }
    end_groups(out, room, MAX_DEPTH)?;
    out.end_seq()
}
