//! Texts of dictionaries: what they add, and what is told of a wrong line. The expected ones are written by hand.

use dia_dict::AvpKind;
use dia_show::{Glossary, put_value};
use dict_text::{DictError, read_dictionary, wrong_text};
use std::alloc::Global;

/// A text, and what is told of its first wrong line.
const WRONG: &[(&str, &str)] = &[
    (
        "# nothing\n\nx Name Grouped",
        "dictionary line 3: \"x\"\n  wanted: CODE[/VENDOR] NAME KIND [VALUE=NAME ..]: \
            the AVP Code and the Vendor-ID as numbers below 2^32\n",
    ),
    (
        "1/2/3 Name Grouped",
        "dictionary line 1: \"1/2/3\"\n  wanted: CODE[/VENDOR] NAME KIND [VALUE=NAME ..]: \
            the AVP Code and the Vendor-ID as numbers below 2^32\n",
    ),
    (
        "9 # Name",
        "dictionary line 1\n  wanted: a NAME behind the code, of printable characters\n",
    ),
    (
        "9 A\tB Time",
        "dictionary line 1: \"A\\x09B\"\n  wanted: a NAME behind the code, of printable characters\n",
    ),
    (
        "9 Name Time32",
        "dictionary line 1: \"Time32\"\n  wanted: a KIND behind the name: Unsigned32, Unsigned64, Enumerated, \
            UTF8String, DiameterIdentity, Address, Grouped, Time or OctetString\n",
    ),
    (
        "9 Name Enumerated 1=A 2=B 1=C",
        "dictionary line 1: \"1=C\"\n  wanted: VALUE=NAME, each VALUE once and below 2^32, \
            behind Enumerated and Unsigned32 alone\n",
    ),
    (
        "9 Name Time 1=A",
        "dictionary line 1: \"1=A\"\n  wanted: VALUE=NAME, each VALUE once and below 2^32, \
            behind Enumerated and Unsigned32 alone\n",
    ),
    (
        "9/7 A Time\n9/8 B Time\n9/7 C Time",
        "dictionary line 3\n  wanted: a code and vendor that neither a line before nor the built-in dictionary has\n",
    ),
    (
        "264/0 Host Time",
        "dictionary line 1\n  wanted: a code and vendor that neither a line before nor the built-in dictionary has\n",
    ),
    (
        "9/7 A Time\n9/8 A Time",
        "dictionary line 2\n  wanted: a name that neither a line before nor the built-in dictionary has\n",
    ),
];

/// Whether this is told of a text's first wrong line.
fn is_told(alloc: Global, text: &str, wanted: &str) -> bool {
    match read_dictionary(alloc, text.as_bytes()) {
        Err(DictError::Wrong(line)) => match wrong_text(alloc, &line) {
            Ok(told) => told.as_slice() == wanted.as_bytes(),
            Err(_) => false,
        },
        _ => false,
    }
}

/// Two AVPs of a vendor, one of them without names, and one without a vendor.
const TEXT: &str = "\
# CODE[/VENDOR] NAME KIND [VALUE=NAME ..]
9001/32473  Tenant       UTF8String
9002/32473  Tenant-Kind  Enumerated  0=PREPAID 7=POSTPAID  # two kinds

9002 Other Unsigned32 4294967295=ALL";

/// Whether data of an AVP of the text has these words.
fn says(
    alloc: Global,
    glossary: &Glossary,
    code: u32,
    vendor: Option<u32>,
    data: &[u8],
    text: &str,
) -> bool {
    let mut out = Vec::new(alloc);
    let definition = glossary.definitions().find(code, vendor);
    put_value(&mut out, glossary, definition, data).is_ok() && out.as_slice() == text.as_bytes()
}

/// Whether the AVPs of the text are there, with the names of their numbers.
fn are_added(alloc: Global) -> bool {
    let Ok(glossary) = read_dictionary(alloc, TEXT.as_bytes()) else {
        return false;
    };
    let tenant = glossary.definitions().by_name("Tenant");
    let vendor = Some(32473);
    tenant.is_some_and(|d| d.code == 9001 && d.kind == AvpKind::Utf8String)
        && says(alloc, &glossary, 9001, vendor, b"gold", "\"gold\"")
        && says(alloc, &glossary, 9002, vendor, &[0, 0, 0, 7], "7 POSTPAID")
        && says(alloc, &glossary, 9002, vendor, &[0, 0, 0, 1], "1")
        && says(alloc, &glossary, 9002, None, &[0, 0, 0, 7], "7")
        && says(
            alloc,
            &glossary,
            9002,
            Some(0),
            &[0xff; 4],
            "4294967295 ALL",
        )
        && says(
            alloc,
            &glossary,
            416,
            None,
            &[0, 0, 0, 1],
            "1 INITIAL_REQUEST",
        )
}

#[test]
fn a_dictionary_adds_its_lines_or_tells_the_first_wrong_one(rt: HostRuntime) {
    let alloc = rt.alloc();
    assert!(rt; are_added(alloc));
    for (text, wanted) in WRONG {
        assert!(rt; is_told(alloc, text, wanted), "{text}");
    }
}
