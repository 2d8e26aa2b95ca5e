//! An AVP's data by its type (RFC 6733 sections 4.2 and 4.3.1). What its type does not have is in hexadecimal.

use crate::members::{no_memory, put_digits, put_made, put_number, put_text, put_word};
use dia_avp::{Address, AvpView};
use dia_dict::{AvpKind, Definition};
use dia_show::{Glossary, put_utc, value_name};
use serde::Serializer;
use std::alloc::Global;
use std::net::{Ipv4Addr, Ipv6Addr};

/// The name of a type in the standard.
pub(crate) fn type_name(kind: AvpKind) -> &'static str {
    match kind {
        AvpKind::Unsigned32 => "Unsigned32",
        AvpKind::Unsigned64 => "Unsigned64",
        AvpKind::Enumerated => "Enumerated",
        AvpKind::Utf8String => "UTF8String",
        AvpKind::DiameterIdentity => "DiameterIdentity",
        AvpKind::Address => "Address",
        AvpKind::Grouped => "Grouped",
        AvpKind::Time => "Time",
        AvpKind::OctetString => "OctetString",
    }
}

/// Octets that can't be read, and why.
pub(crate) fn put_wrong<S: Serializer>(
    out: &mut S,
    alloc: Global,
    words: &[u8],
    octets: &[u8],
) -> Result<(), S::Error> {
    put_made(out, "wrong", words)?;
    put_digits(out, alloc, "hex", octets)
}

fn put_ill_sized<S: Serializer>(out: &mut S, alloc: Global, octets: &[u8]) -> Result<(), S::Error> {
    put_wrong(
        out,
        alloc,
        b"its data has a size that its type does not have",
        octets,
    )
}

fn put_named<S: Serializer>(
    out: &mut S,
    alloc: Global,
    glossary: &Glossary,
    definition: &Definition,
    avp: &AvpView<'_>,
) -> Result<(), S::Error> {
    let Ok(number) = avp.as_u32() else {
        return put_ill_sized(out, alloc, avp.octets);
    };
    put_number(out, "value", u64::from(number))?;
    let name = value_name(glossary, definition, number);
    if name.is_empty() {
        return Ok(());
    }
    put_made(out, "value_name", name)
}

// A number of 64 bits is text, since readers of JSON lose its digits past 2^53.
fn put_long<S: Serializer>(out: &mut S, alloc: Global, avp: &AvpView<'_>) -> Result<(), S::Error> {
    let Ok(number) = avp.as_u64() else {
        return put_ill_sized(out, alloc, avp.octets);
    };
    let mut digits = itoa::Buffer::new();
    put_word(out, "value", digits.format(number))
}

fn put_time<S: Serializer>(out: &mut S, alloc: Global, avp: &AvpView<'_>) -> Result<(), S::Error> {
    let Ok(number) = avp.as_u32() else {
        return put_ill_sized(out, alloc, avp.octets);
    };
    let mut date = Vec::new(alloc);
    if put_utc(&mut date, number).is_err() {
        return Err(no_memory(out));
    }
    put_number(out, "value", u64::from(number))?;
    put_made(out, "utc", &date)
}

fn put_address<S: Serializer>(
    out: &mut S,
    alloc: Global,
    avp: &AvpView<'_>,
) -> Result<(), S::Error> {
    match avp.as_address() {
        Ok(Address::V4(four)) => {
            out.key("value")?;
            out.collect_str(&Ipv4Addr::from(four))
        }
        Ok(Address::V6(sixteen)) => {
            out.key("value")?;
            out.collect_str(&Ipv6Addr::from(sixteen))
        }
        Ok(Address::Other { family, octets }) => {
            put_number(out, "family", u64::from(family))?;
            put_digits(out, alloc, "hex", octets)
        }
        Err(_) => put_ill_sized(out, alloc, avp.octets),
    }
}

/// The members of an AVP's data: `value`, with what else its type says, or `hex`.
pub(crate) fn put_value<S: Serializer>(
    out: &mut S,
    alloc: Global,
    glossary: &Glossary,
    definition: Option<&Definition>,
    avp: &AvpView<'_>,
) -> Result<(), S::Error> {
    let Some(definition) = definition else {
        return put_digits(out, alloc, "hex", avp.octets);
    };
    match definition.kind {
        AvpKind::Unsigned32 | AvpKind::Enumerated => {
            put_named(out, alloc, glossary, definition, avp)
        }
        AvpKind::Unsigned64 => put_long(out, alloc, avp),
        AvpKind::Utf8String | AvpKind::DiameterIdentity => {
            put_text(out, alloc, ("value", "hex"), avp.octets)
        }
        AvpKind::Address => put_address(out, alloc, avp),
        AvpKind::Time => put_time(out, alloc, avp),
        AvpKind::Grouped | AvpKind::OctetString => put_digits(out, alloc, "hex", avp.octets),
    }
}
