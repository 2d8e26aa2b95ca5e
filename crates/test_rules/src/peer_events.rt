//! The events that commands are, and elections.

use dia_dict::Dictionary;
use dia_msg::{Command, read_message};
use peer_rules::{Side, elect, peer_event, peer_laws};
use std::alloc::{AllocError, Global};
use std::test::Fail;
use tab_law::LawBook;

const SESSION: &[u8] = &[0, 0, 1, 0x07, 0x40, 0, 0, 12, b'c', b'1', b';', b'1'];

const HOST: &[u8] = &[0, 0, 1, 0x08, 0x40, 0, 0, 9, b'h', 0, 0, 0];

const REALM: &[u8] = &[0, 0, 1, 0x28, 0x40, 0, 0, 9, b'r', 0, 0, 0];

const TO_REALM: &[u8] = &[0, 0, 1, 0x1b, 0x40, 0, 0, 9, b'r', 0, 0, 0];

const TO_HOST: &[u8] = &[0, 0, 1, 0x25, 0x40, 0, 0, 9, b'h', 0, 0, 0];

const ADDRESS: &[u8] = &[0, 0, 1, 0x01, 0x40, 0, 0, 14, 0, 1, 192, 0, 2, 1, 0, 0];

const VENDOR: &[u8] = &[0, 0, 1, 0x0a, 0x40, 0, 0, 12, 0, 0, 0, 0];

const PRODUCT: &[u8] = &[0, 0, 1, 0x0d, 0, 0, 0, 9, b'p', 0, 0, 0];

const APPLICATION: &[u8] = &[0, 0, 1, 0x02, 0x40, 0, 0, 12, 0, 0, 0, 4];

/// Result-Code 2001, 2002 and 5012.
const SUCCESS: &[u8] = &[0, 0, 1, 0x0c, 0x40, 0, 0, 12, 0, 0, 0x07, 0xd1];

const LIMITED: &[u8] = &[0, 0, 1, 0x0c, 0x40, 0, 0, 12, 0, 0, 0x07, 0xd2];

const UNABLE: &[u8] = &[0, 0, 1, 0x0c, 0x40, 0, 0, 12, 0, 0, 0x13, 0x94];

const CAUSE: &[u8] = &[0, 0, 1, 0x11, 0x40, 0, 0, 12, 0, 0, 0, 0];

const AUTH_TYPE: &[u8] = &[0, 0, 1, 0x1d, 0x40, 0, 0, 12, 0, 0, 0, 0];

const CONTEXT: &[u8] = &[0, 0, 1, 0xcd, 0x40, 0, 0, 9, b'x', 0, 0, 0];

const INITIAL: &[u8] = &[0, 0, 1, 0xa0, 0x40, 0, 0, 12, 0, 0, 0, 1];

const NUMBER: &[u8] = &[0, 0, 1, 0x9f, 0x40, 0, 0, 12, 0, 0, 0, 0];

/// Flags, Command Code without its first octet, Application-Id and AVPs of a message, and the kinds that it is from the
/// initiator's and from the responder's side, empty for none.
type Sample = (
    u8,
    [u8; 2],
    u8,
    &'static [&'static [u8]],
    &'static str,
    &'static str,
);

const SAMPLES: &[Sample] = &[
    (
        0x80,
        [1, 1],
        0,
        &[HOST, REALM, ADDRESS, VENDOR, PRODUCT],
        "",
        "R-Conn-CER",
    ),
    (
        0,
        [1, 1],
        0,
        &[SUCCESS, HOST, REALM, ADDRESS, VENDOR, PRODUCT],
        "I-Rcv-CEA",
        "",
    ),
    (
        0,
        [1, 1],
        0,
        &[LIMITED, HOST, REALM, ADDRESS, VENDOR, PRODUCT],
        "I-Rcv-Non-CEA",
        "",
    ),
    (0x20, [1, 1], 0, &[UNABLE, HOST, REALM], "", ""),
    (0x80, [1, 0x18], 0, &[HOST, REALM], "I-Rcv-DWR", "R-Rcv-DWR"),
    (
        0,
        [1, 0x18],
        0,
        &[SUCCESS, HOST, REALM],
        "I-Rcv-DWA",
        "R-Rcv-DWA",
    ),
    (0x20, [1, 0x18], 0, &[SESSION, UNABLE, HOST, REALM], "", ""),
    (
        0x80,
        [1, 0x1a],
        0,
        &[HOST, REALM, CAUSE],
        "I-Rcv-DPR",
        "R-Rcv-DPR",
    ),
    (
        0,
        [1, 0x1a],
        0,
        &[SUCCESS, HOST, REALM],
        "I-Rcv-DPA",
        "R-Rcv-DPA",
    ),
    (
        0x80,
        [1, 2],
        4,
        &[
            SESSION,
            HOST,
            REALM,
            TO_REALM,
            TO_HOST,
            APPLICATION,
            AUTH_TYPE,
        ],
        "",
        "",
    ),
    (0, [1, 2], 4, &[SESSION, SUCCESS, HOST, REALM], "", ""),
    (
        0x80,
        [1, 0x10],
        4,
        &[
            SESSION,
            HOST,
            REALM,
            TO_REALM,
            APPLICATION,
            CONTEXT,
            INITIAL,
            NUMBER,
        ],
        "I-Rcv-Message",
        "R-Rcv-Message",
    ),
    (
        0,
        [1, 0x10],
        4,
        &[SESSION, SUCCESS, HOST, REALM, APPLICATION, INITIAL, NUMBER],
        "I-Rcv-Message",
        "R-Rcv-Message",
    ),
    (
        0x20,
        [1, 0x10],
        4,
        &[SESSION, UNABLE, HOST, REALM],
        "I-Rcv-Message",
        "R-Rcv-Message",
    ),
    (0x20, [1, 0x10], 4, &[UNABLE, HOST, REALM], "", ""),
    (0x20, [1, 2], 4, &[SESSION, UNABLE, HOST, REALM], "", ""),
];

fn octets_of(alloc: Global, sample: &Sample) -> Result<Vec<u8>, AllocError> {
    let (flags, code, application, avps, _, _) = *sample;
    let mut octets = Vec::from_slice(alloc, &[1, 0, 0, 0, flags, 0])?;
    octets.extend_from_slice(&code)?;
    octets.extend_from_slice(&[0, 0, 0, application, 0, 0, 0, 7, 0, 0, 0, 7])?;
    for avp in avps {
        octets.extend_from_slice(avp)?;
    }
    let len = octets.len();
    if let Some(octet) = octets.get_mut(3) {
        *octet = (len % 256) as u8;
    }
    Ok(octets)
}

/// Whether a command is an event of that kind, or none where the name is empty.
fn is_kind(command: &Command, side: Side, laws: &LawBook, name: &str) -> bool {
    match peer_event(command, side) {
        None => name.is_empty(),
        Some(place) => laws.kinds().find(name.as_bytes()) == Some(place as usize),
    }
}

/// Whether a command is the events that a sample tells.
fn is_event(command: &Command, laws: &LawBook, sample: &Sample) -> bool {
    let (_, _, _, _, initiator, responder) = *sample;
    is_kind(command, Side::I, laws, initiator) && is_kind(command, Side::R, laws, responder)
}

/// Whether a sample is read, and is the events that it tells.
fn is_as_told(
    alloc: Global,
    dictionary: &Dictionary,
    laws: &LawBook,
    sample: &Sample,
) -> Result<bool, AllocError> {
    let octets = octets_of(alloc, sample)?;
    Ok(match &read_message(alloc, dictionary, octets.as_slice()) {
        Ok(command) => is_event(command, laws, sample),
        Err(_) => false,
    })
}

/// The first sample that goes wrong, by its place.
fn wrong_sample(
    alloc: Global,
    dictionary: &Dictionary,
    laws: &LawBook,
) -> Result<Option<usize>, AllocError> {
    for (place, sample) in SAMPLES.iter().enumerate() {
        if !is_as_told(alloc, dictionary, laws, sample)? {
            return Ok(Some(place));
        }
    }
    Ok(None)
}

#[test]
fn commands_are_events_by_their_side(rt: HostRuntime) -> Result<(), Fail> {
    let dictionary = Dictionary::base(rt.alloc())?;
    let laws = peer_laws(rt.alloc())?;
    assert!(rt; wrong_sample(rt.alloc(), &dictionary, &laws)? == None);
    Ok(())
}

#[test]
fn the_greater_host_wins_whatever_its_case(rt: HostRuntime) {
    for (local, remote, wins) in [
        ("B.example", "a.example", true),
        ("A.example", "a.example", false),
        ("a.example", "B.example", false),
        ("a.example", "a.exampl", true),
        ("a.exampl", "a.example", false),
        ("a", "", true),
        ("", "", false),
        ("a-b", "a.b", false),
        ("a.b", "a-b", true),
        ("z[", "Z@", true),
    ] {
        assert!(rt;
            elect(local.as_bytes(), remote.as_bytes()) == wins,
            "{local} {remote}"
        );
    }
}
