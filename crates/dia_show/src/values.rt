//! What an AVP's data says, by its type.
ghost use Rattle.std.specs.Prelude.{◌≡◌, ◌++◌, ◌<◌, OnOk};
ghost use Rattle.std.specs.Option.{option_copied};
ghost use Rattle.dia_show.specs.Values.{name_behind, ill_sized, number_name, named_text, long_text, moment_text};
ghost use Rattle.dia_show.specs.Values.{address_text, typed_text, names_code, standard_name, value_name, value_text};

use crate::dates::put_time;
use crate::enumerations::enumerated_name;
use crate::glossary::Glossary;
use crate::parts::{put_address, put_octets, put_quoted};
use base_codes::{avp_code, result_name};
use base_text::put_number;
use byteorder::{BigEndian, ByteOrder};
use dia_avp::AvpView;
use dia_dict::{AvpKind, Definition};
use std::alloc::AllocError;

fn put_ill_sized(out: &mut Vec<u8>, octets: &[u8]) -> Result<(), AllocError>
    ensures { OnOk result (out.new.items ≡ out.old.items ++ ill_sized octets.now) }
{
    put_octets(out, octets)?;
    out.extend_from_slice(b" (a size that its type does not have)")
}

fn put_name_behind(out: &mut Vec<u8>, name: &[u8]) -> Result<(), AllocError>
    ensures { OnOk result (out.new.items ≡ out.old.items ++ name_behind name.now) }
{
    if name.is_empty() {
        return Ok(());
    }
    out.extend_from_slice(b" ")?;
    out.extend_from_slice(name)
}

fn number_name(code: u32, number: u32) -> &'static str
    ensures { result.now ≡ number_name code number }
{
    if code == avp_code::RESULT_CODE {
        result_name(number)
    } else {
        ""
    }
}

fn put_long(out: &mut Vec<u8>, octets: &[u8]) -> Result<(), AllocError>
    ensures { OnOk result (out.new.items ≡ out.old.items ++ long_text octets.now) }
{
    if octets.len() != 8 {
        return put_ill_sized(out, octets);
    }
    put_number(out, b"", BigEndian::read_u64(octets))
}

fn put_moment(out: &mut Vec<u8>, octets: &[u8]) -> Result<(), AllocError>
    ensures { OnOk result (out.new.items ≡ out.old.items ++ moment_text octets.now) }
{
    if octets.len() != 4 {
        return put_ill_sized(out, octets);
    }
    put_time(out, BigEndian::read_u32(octets))
}

fn put_address_in(out: &mut Vec<u8>, octets: &[u8]) -> Result<(), AllocError>
    ensures { OnOk result (out.new.items ≡ out.old.items ++ address_text octets.now) }
{
    let avp = AvpView {
        octets,
        ..AvpView::default()
    };
    match avp.as_address() {
        Ok(address) => put_address(out, &address),
        Err(_) => put_ill_sized(out, octets),
    }
}

fn names_code(definition: &Definition) -> u32
    ensures { result ≡ names_code definition.now }
{
    if definition.vendor.unwrap_or(0) == 0 {
        definition.code
    } else {
        0
    }
}

// The name of a number in the AVP of this definition, empty where the standards have none.
fn standard_name(definition: &Definition, number: u32) -> &'static str
    ensures { result.now ≡ standard_name definition.now number }
{
    match definition.kind {
        AvpKind::Unsigned32 => number_name(names_code(definition), number),
        AvpKind::Enumerated => enumerated_name(names_code(definition), number),
        _ => "",
    }
}

/// The name of a number in the AVP of this definition:
/// that of the standards, or else the one that the glossary has, empty where it has none.
pub fn value_name<'a>(glossary: &'a Glossary, definition: &Definition, number: u32) -> &'a [u8]
    ensures { result.now ≡ value_name glossary.now.namings definition.now number }
{
    match standard_name(definition, number).as_bytes() {
        [] => glossary.name_of(definition, number),
        name => name,
    }
}

fn put_named(
    out: &mut Vec<u8>,
    glossary: &Glossary,
    definition: &Definition,
    octets: &[u8],
) -> Result<(), AllocError>
    ensures { OnOk result (out.new.items
        ≡ out.old.items ++ named_text (value_name glossary.now.namings definition.now) octets.now) }
{
    if octets.len() != 4 {
        return put_ill_sized(out, octets);
    }
    let number = BigEndian::read_u32(octets);
    put_number(out, b"", u64::from(number))?;
    put_name_behind(out, value_name(glossary, definition, number))
}

fn put_typed(
    out: &mut Vec<u8>,
    glossary: &Glossary,
    definition: &Definition,
    octets: &[u8],
) -> Result<(), AllocError>
    ensures { OnOk result (out.new.items
        ≡ out.old.items ++ typed_text (value_name glossary.now.namings definition.now) definition.now.kind octets.now) }
{
    match definition.kind {
        AvpKind::Unsigned32 | AvpKind::Enumerated => put_named(out, glossary, definition, octets),
        AvpKind::Unsigned64 => put_long(out, octets),
        AvpKind::Utf8String | AvpKind::DiameterIdentity => put_quoted(out, octets),
        AvpKind::Address => put_address_in(out, octets),
        AvpKind::Time => put_moment(out, octets),
        AvpKind::Grouped | AvpKind::OctetString => put_octets(out, octets),
    }
}

/// Puts what an AVP's data says by its definition: text in quotes, numbers in decimal and with their name where the
/// standards or the glossary have one, an Address in its usual notation, a Time with its date, and all else, also
/// without a definition, in hexadecimal.
pub fn put_value(
    out: &mut Vec<u8>,
    glossary: &Glossary,
    definition: Option<&Definition>,
    octets: &[u8],
) -> Result<(), AllocError>
    ensures { OnOk result (out.new.items
        ≡ out.old.items ++ value_text glossary.now.namings (option_copied definition.entry) octets.now) }
{
    match definition {
        None => put_octets(out, octets),
        Some(definition) => put_typed(out, glossary, definition, octets),
    }
}
