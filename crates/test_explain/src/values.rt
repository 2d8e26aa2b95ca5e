//! Values by their type: the expected texts are those of the standards, or worked out by hand.

use dia_show::{Glossary, put_command, put_value};
use std::alloc::Global;
use std::test::Fail;

/// Whether the data of an AVP of this code has this text.
fn says(alloc: Global, glossary: &Glossary, code: u32, data: &[u8], text: &str) -> bool {
    let mut out = Vec::new(alloc);
    put_value(
        &mut out,
        glossary,
        glossary.definitions().find(code, None),
        data,
    )
    .is_ok()
        && out.as_slice() == text.as_bytes()
}

/// Code, data and text.
const ROWS: &[(u32, &[u8], &str)] = &[
    (263, b"c1;1", "\"c1;1\""),
    (264, b"a\"b\\\n\x7f~", "\"a\\\"b\\\\\\x0a\\x7f~\""),
    (281, &[0xc3, 0xa9], "\"\\xc3\\xa9\""),
    (281, b"", "\"\""),
    (268, &[0, 0, 0x07, 0xd1], "2001 DIAMETER_SUCCESS"),
    (268, &[0, 0, 0x0f, 0xa3], "4003 ELECTION_LOST"),
    (
        268,
        &[0, 0, 0x0f, 0xac],
        "4012 DIAMETER_CREDIT_LIMIT_REACHED",
    ),
    (268, &[0, 0, 0x13, 0x99], "5017 DIAMETER_NO_COMMON_SECURITY"),
    (268, &[0, 0, 0x13, 0xa7], "5031 DIAMETER_RATING_FAILED"),
    (268, &[0, 0, 0x0b, 0xb7], "2999"),
    (268, &[0], "0x00 (a size that its type does not have)"),
    (416, &[0, 0, 0, 1], "1 INITIAL_REQUEST"),
    (416, &[0, 0, 0, 5], "5"),
    (427, &[0, 0, 0, 2], "2 RETRY_AND_TERMINATE"),
    (436, &[0, 0, 0, 3], "3 PRICE_ENQUIRY"),
    (459, &[0, 0, 0, 3], "3 MODIFIED_EUI64"),
    (415, &[0xff, 0xff, 0xff, 0xff], "4294967295"),
    (421, &[0, 0x20, 0, 0, 0, 0, 0, 1], "9007199254740993"),
    (257, &[0, 1, 192, 0, 2, 1], "192.0.2.1"),
    (
        257,
        &[
            0, 2, 0x20, 1, 0x0d, 0xb8, 0, 0, 0, 1, 0, 0, 0, 0, 0, 0, 0, 1,
        ],
        "2001:db8:0:1::1",
    ),
    (
        257,
        &[
            0, 2, 0x20, 1, 0x0d, 0xb8, 0, 0, 0, 1, 0, 1, 0, 1, 0, 1, 0, 1,
        ],
        "2001:db8:0:1:1:1:1:1",
    ),
    (257, &[0, 8, 0x12], "family 8 0x12"),
    (
        257,
        &[0, 1, 1, 2, 3],
        "0x0001010203 (a size that its type does not have)",
    ),
    (411, &[0, 0xff], "0x00ff"),
    (411, &[], "0x"),
    (9999, &[1], "0x01"),
    (456, &[1, 2], "0x0102"),
];

/// Times: 1972 is that of RFC 5905, and the ends of the eras those of RFC 6733 section 4.3.1.
const TIMES: &[(&[u8], &str)] = &[
    (&[0x87, 0x6c, 0xe5, 0x80], "2272060800 1972-01-01T00:00:00Z"),
    (&[0x80, 0, 0, 0], "2147483648 1968-01-20T03:14:08Z"),
    (&[0xff, 0xff, 0xff, 0xff], "4294967295 2036-02-07T06:28:15Z"),
    (&[0, 0, 0, 0], "0 2036-02-07T06:28:16Z"),
    (&[0x7f, 0xff, 0xff, 0xff], "2147483647 2104-02-26T09:42:23Z"),
    (&[0xbc, 0x66, 0x33, 0x40], "3160814400 2000-02-29T12:00:00Z"),
    (&[0xe9, 0x8b, 0x98, 0xff], "3918239999 2024-02-29T23:59:59Z"),
    (&[0xed, 0x00, 0x37, 0x7f], "3976214399 2025-12-31T23:59:59Z"),
    (&[0x78, 0x7e, 0x9d, 0xff], "2021563903 2100-02-28T23:59:59Z"),
    (&[0x78, 0x7e, 0x9e, 0x00], "2021563904 2100-03-01T00:00:00Z"),
];

/// Command Codes, whether of a request, and their names.
const COMMANDS: &[(u32, bool, &str)] = &[
    (257, true, "CER Capabilities-Exchange-Request"),
    (258, false, "RAA Re-Auth-Answer"),
    (271, true, "ACR Accounting-Request"),
    (272, false, "CCA Credit-Control-Answer"),
    (274, true, "ASR Abort-Session-Request"),
    (275, false, "STA Session-Termination-Answer"),
    (280, true, "DWR Device-Watchdog-Request"),
    (282, false, "DPA Disconnect-Peer-Answer"),
    (9, true, "unknown command"),
];

/// The first text that isn't that of its data.
fn wrong_value(alloc: Global, glossary: &Glossary) -> Option<&'static str> {
    for (code, data, text) in ROWS {
        if !says(alloc, glossary, *code, data, text) {
            return Some(text);
        }
    }
    None
}

/// The first date that isn't that of its time.
fn wrong_time(alloc: Global, glossary: &Glossary) -> Option<&'static str> {
    for (data, text) in TIMES {
        if !says(alloc, glossary, 55, data, text) {
            return Some(text);
        }
    }
    None
}

/// Whether a command has this name.
fn is_named(alloc: Global, number: u32, request: bool, text: &str) -> bool {
    let mut out = Vec::new(alloc);
    put_command(&mut out, number, request).is_ok() && out.as_slice() == text.as_bytes()
}

/// The first name that isn't that of its command.
fn wrong_name(alloc: Global) -> Option<&'static str> {
    for (number, request, text) in COMMANDS {
        if !is_named(alloc, *number, *request, text) {
            return Some(text);
        }
    }
    None
}

#[test]
fn data_times_and_commands_are_told_in_words(rt: HostRuntime) -> Result<(), Fail> {
    let glossary = Glossary::base(rt.alloc())?;
    let value = wrong_value(rt.alloc(), &glossary);
    assert!(rt; value.is_none(), "data: {value:?}");
    let time = wrong_time(rt.alloc(), &glossary);
    assert!(rt; time.is_none(), "a time: {time:?}");
    let name = wrong_name(rt.alloc());
    assert!(rt; name.is_none(), "a command: {name:?}");
    Ok(())
}
