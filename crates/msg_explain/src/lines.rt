//! The line of an AVP.
ghost use Rattle.std.specs.Prelude.{◌≡◌, ◌++◌, OnOk, map};
ghost use Rattle.std.specs.List.{flat_map};
ghost use Rattle.std.specs.Option.{option_copied};
ghost use Rattle.dia_avp.specs.Reading.{avp_at};
ghost use Rattle.dia_tree.specs.Kind.{is_grouped};
ghost use Rattle.dia_dict.specs.Dictionary.{known};
ghost use Rattle.msg_explain.specs.Parts.{seen_part};
ghost use Rattle.msg_explain.specs.Lines.{place_text, flag_letter, flag_letters, vendor_text, name_text};
ghost use Rattle.msg_explain.specs.Lines.{code_text, title_text, data_text, broken_words};
ghost use Rattle.msg_explain.specs.Lines.{broken_text, front_text, part_line};

use crate::parts::{Part, length_at};
use base_text::put_number;
use dia_avp::{FaultCode, avp_at};
use dia_dict::{AvpKind, Definition};
use dia_show::{Glossary, put_octets, put_value};
use dia_tree::{cut_avp, number_at, octet_at};
use std::alloc::AllocError;

#[tactic(auto, unfolding(crate::specs::Lines::place_text))]
fn put_place(out: &mut Vec<u8>, part: &Part<'_>) -> Result<(), AllocError>
    ensures { OnOk result (out.new.items ≡ out.old.items ++ place_text (seen_part part.now)) }
{
    let blanks = b"          ";
    out.extend_from_slice(&blanks[..10 - 2 * part.room.min(4) as usize])?;
    put_number(out, b"", part.place as u64)?;
    out.extend_from_slice(b": ")
}

/// A flag's letter, or `-` where it isn't set.
#[tactic(auto, unfolding(crate::specs::Lines::flag_letter))]
pub fn flag_letter(flags: u8, mask: u8, sign: u8) -> u8
    ensures { result ≡ flag_letter flags mask sign }
{
    if flags & mask != 0 { sign } else { b'-' }
}

#[tactic(auto, unfolding(crate::specs::Lines::flag_letters))]
fn put_flags(out: &mut Vec<u8>, flags: u8) -> Result<(), AllocError>
    ensures { OnOk result (out.new.items ≡ out.old.items ++ flag_letters flags) }
{
    out.extend_from_slice(&[
        flag_letter(flags, 0x80, b'V'),
        flag_letter(flags, 0x40, b'M'),
        flag_letter(flags, 0x20, b'P'),
    ])
}

#[tactic(auto, unfolding(crate::specs::Lines::vendor_text))]
fn put_vendor(out: &mut Vec<u8>, octets: &[u8]) -> Result<(), AllocError>
    ensures { OnOk result (out.new.items ≡ out.old.items ++ vendor_text octets.now) }
{
    if octet_at(octets, 4) & 0x80 == 0 {
        return Ok(());
    }
    put_number(out, b"/", u64::from(number_at(octets, 8)))
}

/// Puts the name of an AVP by its definition.
pub(crate) fn put_name(out: &mut Vec<u8>, definition: Option<&Definition>) -> Result<(), AllocError>
    ensures { OnOk result (out.new.items ≡ out.old.items ++ name_text (option_copied definition.entry)) }
{
    match definition {
        None => out.extend_from_slice(b"unknown"),
        Some(definition) => out.extend_from_slice(definition.name.as_slice()),
    }
}

// Puts the code, the vendor and the name of an AVP, of which its octets and all behind are given.
#[tactic(auto, unfolding(crate::specs::Lines::code_text))]
fn put_code(
    out: &mut Vec<u8>,
    definition: Option<&Definition>,
    octets: &[u8],
) -> Result<(), AllocError>
    ensures { OnOk result (out.new.items ≡ out.old.items ++ code_text (option_copied definition.entry) octets.now) }
{
    put_number(out, b"", u64::from(number_at(octets, 0)))?;
    put_vendor(out, octets)?;
    out.extend_from_slice(b" ")?;
    put_name(out, definition)
}

#[tactic(auto, unfolding(crate::specs::Lines::title_text))]
fn put_title(
    out: &mut Vec<u8>,
    definition: Option<&Definition>,
    octets: &[u8],
) -> Result<(), AllocError>
    ensures { OnOk result (out.new.items ≡ out.old.items ++ title_text (option_copied definition.entry) octets.now) }
{
    put_code(out, definition, octets)?;
    out.extend_from_slice(b" ")?;
    put_flags(out, octet_at(octets, 4))?;
    put_number(out, b" ", u64::from(length_at(octets)))
}

fn is_group(definition: Option<&Definition>) -> bool
    ensures { result ≡ is_grouped (option_copied definition.entry) }
{
    match definition {
        None => false,
        Some(definition) => definition.kind == AvpKind::Grouped,
    }
}

#[tactic(auto, unfolding(crate::specs::Lines::data_text))]
fn put_data(
    out: &mut Vec<u8>,
    glossary: &Glossary,
    definition: Option<&Definition>,
    room: u8,
    octets: &[u8],
) -> Result<(), AllocError>
    ensures { OnOk result (out.new.items
        ≡ out.old.items ++ data_text glossary.now.namings (option_copied definition.entry) room octets.now) }
{
    if is_group(definition) && room > 0 {
        return Ok(());
    }
    out.extend_from_slice(b" ")?;
    put_value(out, glossary, definition, octets)
}

/// What is wrong with an AVP that is broken.
#[tactic(auto, unfolding(crate::specs::Lines::broken_words))]
pub fn broken_words(code: FaultCode) -> &'static [u8]
    ensures { result.now ≡ broken_words code }
{
    match code {
        FaultCode::ShortHeader => b"its header is cut off",
        FaultCode::LengthBelowHeader => b"its length is below that of its header",
        FaultCode::PastEnd => b"it runs past the end",
        FaultCode::TooMany => b"it is one AVP too many",
        FaultCode::TooDeep => b"it opens one level too many",
    }
}

#[tactic(auto, unfolding(crate::specs::Lines::broken_text))]
fn put_broken(out: &mut Vec<u8>, code: FaultCode, octets: &[u8]) -> Result<(), AllocError>
    ensures { OnOk result (out.new.items ≡ out.old.items ++ broken_text code octets.now) }
{
    out.extend_from_slice(b": broken, ")?;
    out.extend_from_slice(broken_words(code))?;
    out.extend_from_slice(b": ")?;
    put_octets(out, octets)
}

// The AVP at the front, or what is broken there.
fn put_front(
    out: &mut Vec<u8>,
    glossary: &Glossary,
    room: u8,
    octets: &[u8],
) -> Result<(), AllocError>
    ensures { OnOk result (out.new.items ≡ out.old.items
        ++ front_text glossary.now.namings (known glossary.now.definitions) room octets.now (avp_at octets.now)) }
{
    match avp_at(octets) {
        Ok((avp, _)) => {
            let definition = glossary.definitions().find(avp.code, avp.vendor);
            put_title(out, definition, octets)?;
            put_data(out, glossary, definition, room, avp.octets)
        }
        Err(code) => {
            let avp = cut_avp(octets);
            put_title(
                out,
                glossary.definitions().find(avp.code, avp.vendor),
                octets,
            )?;
            put_broken(out, code, octets)
        }
    }
}

#[tactic(auto, unfolding(crate::specs::Lines::part_line))]
fn put_part(out: &mut Vec<u8>, glossary: &Glossary, part: &Part<'_>) -> Result<(), AllocError>
    ensures { OnOk result (out.new.items
        ≡ out.old.items ++ part_line glossary.now.namings (known glossary.now.definitions) (seen_part part.now)) }
{
    put_place(out, part)?;
    put_front(out, glossary, part.room, part.octets)?;
    out.extend_from_slice(b"\n")
}

/// Puts the lines of parts.
pub(crate) fn put_parts(
    out: &mut Vec<u8>,
    glossary: &Glossary,
    parts: &[Part<'_>],
) -> Result<(), AllocError>
    ensures { OnOk result (out.new.items ≡ out.old.items
        ++ flat_map (part_line glossary.now.namings (known glossary.now.definitions)) (map seen_part parts.now)) }
{
    for part in parts {
        put_part(out, glossary, part)?;
    }
    Ok(())
}
