//! Members of an AVP's data by its type: the expected ones are those of the standards, or worked out by hand.

use dia_show::Glossary;
use msg_json::put_json;
use std::alloc::Global;
use std::test::Fail;

/// A Device-Watchdog-Answer whose only AVP has this code and data, which end with it:
/// its length is 28 and that of the data.
fn message_with(code: u32, data: &[u8], octets: &mut [u8; 64]) -> usize {
    let room = data.len().min(36);
    octets[..4].copy_from_slice(&(0x0100_001c + room as u32).to_be_bytes());
    octets[4..8].copy_from_slice(&[0, 0, 1, 24]);
    octets[20..24].copy_from_slice(&code.to_be_bytes());
    octets[24..28].copy_from_slice(&(8 + room as u32).to_be_bytes());
    octets[28..28 + room].copy_from_slice(&data[..room]);
    28 + room
}

/// Whether the line of such a message has these members behind the AVP's type.
fn says(alloc: Global, glossary: &Glossary, code: u32, data: &[u8], members: &str) -> bool {
    let mut octets = [0u8; 64];
    let length = message_with(code, data, &mut octets).min(64);
    let mut out = Vec::new(alloc);
    if put_json(&mut out, glossary, None, 1, 0, &octets[..length]).is_err() {
        return false;
    }
    match str::from_utf8(&out) {
        Ok(line) => line.contains(members),
        Err(_) => false,
    }
}

/// Code, data and members.
const ROWS: &[(u32, &[u8], &str)] = &[
    (
        263,
        b"c1;1",
        "\"UTF8String\",\"value\":\"c1;1\"}],\"fault\"",
    ),
    (264, b"a\"b\\\n\x7f~", "\"value\":\"a\\\"b\\\\\\n\x7f~\"}],"),
    (281, &[0xc3, 0xa9], "\"value\":\"é\"}],"),
    (281, b"", "\"value\":\"\"}],"),
    (
        281,
        &[0xc3, 0x28],
        "\"type\":\"UTF8String\",\"hex\":\"c328\"}],",
    ),
    (263, &[0xff], "\"session_hex\":\"ff\",\"avps\""),
    (
        268,
        &[0, 0, 0x0f, 0xac],
        "\"type\":\"Unsigned32\",\"value\":4012,\"value_name\":\"DIAMETER_CREDIT_LIMIT_REACHED\"}],",
    ),
    (268, &[0, 0, 0x0b, 0xb7], "\"value\":2999}],"),
    (
        416,
        &[0, 0, 0, 1],
        "\"type\":\"Enumerated\",\"value\":1,\"value_name\":\"INITIAL_REQUEST\"}],",
    ),
    (416, &[0, 0, 0, 5], "\"value\":5}],"),
    (415, &[0xff, 0xff, 0xff, 0xff], "\"value\":4294967295}],"),
    (
        421,
        &[0, 0x20, 0, 0, 0, 0, 0, 1],
        "\"type\":\"Unsigned64\",\"value\":\"9007199254740993\"}],",
    ),
    (421, &[0xff; 8], "\"value\":\"18446744073709551615\"}],"),
    (
        257,
        &[0, 1, 192, 0, 2, 1],
        "\"type\":\"Address\",\"value\":\"192.0.2.1\"}],",
    ),
    (
        257,
        &[
            0, 2, 0x20, 1, 0x0d, 0xb8, 0, 0, 0, 1, 0, 0, 0, 0, 0, 0, 0, 1,
        ],
        "\"value\":\"2001:db8:0:1::1\"}],",
    ),
    (
        257,
        &[0, 8, 0x12],
        "\"type\":\"Address\",\"family\":8,\"hex\":\"12\"}],",
    ),
    (
        257,
        &[0, 1, 1, 2, 3],
        "\"wrong\":\"its data has a size that its type does not have\",\"hex\":\"0001010203\"}],",
    ),
    (
        411,
        &[0, 0xff],
        "\"type\":\"OctetString\",\"hex\":\"00ff\"}],",
    ),
    (
        55,
        &[0xe9, 0x8b, 0x98, 0xff],
        "\"type\":\"Time\",\"value\":3918239999,\"utc\":\"2024-02-29T23:59:59Z\"}],",
    ),
    (
        55,
        &[1],
        "\"wrong\":\"its data has a size that its type does not have\",\"hex\":\"01\"}],",
    ),
    (456, b"", "\"type\":\"Grouped\",\"avps\":[]}],\"fault\""),
    (
        9999,
        &[1],
        "\"name\":null,\"flags\":\"---\",\"length\":9,\"type\":null,\"hex\":\"01\"}],",
    ),
];

/// The members of the first row that aren't there.
fn wrong_row(alloc: Global, glossary: &Glossary) -> Option<&'static str> {
    for (code, data, members) in ROWS {
        if !says(alloc, glossary, *code, data, members) {
            return Some(members);
        }
    }
    None
}

#[test]
fn data_say_what_their_type_is(rt: HostRuntime) -> Result<(), Fail> {
    let glossary = Glossary::base(rt.alloc())?;
    let wrong = wrong_row(rt.alloc(), &glossary);
    assert!(rt; wrong.is_none(), "{wrong:?}");
    Ok(())
}
