//! The messages of credit control that deeds send, as octets typed by hand.

use crate::octets::{message_of, octets_of, places};
use base_codes::DeedCode;
use base_list::Octets;
use charge_message::{answer_message, request_message};
use deed_message::Names;
use dia_msg::{Identity, write_message};
use std::alloc::{AllocError, Global};
use std::test::Fail;
use tab_law::Deed;

/// Arguments of a deed as words `PLACE=NUMBER`, and flags, identifiers and AVPs of its message.
type Sample = (&'static str, u8, &'static str, &'static str);

const REQUESTS: &[Sample] = &[
    // An INITIAL request for 60 of unit 3; the number's upper half isn't in the identifiers.
    (
        "2=74565 4=1 5=1 6=65539 7=100 9=60 10=3",
        0xc0,
        "2345000223450002",
        "\
session origin target initial number-65538 account-100 000001b540000018000001a140000010000000000000003c",
    ),
    // An UPDATE that wants 2^32 + 5 seconds, of which four octets have 5, and has used 7; no account and number.
    (
        "2=1 4=1 5=2 8=7 9=4294967301 10=1 11=3",
        0xc0,
        "0001000000010000",
        "\
session origin target update number-0 account-0 000001b540000014000001a44000000c00000005 \
000001be40000014000001a44000000c00000007",
    ),
    // A TERMINATION of unit 0, which is written as octets, and the greatest account; 2^32 + 1 requests.
    (
        "2=1 4=1 5=3 6=4294967297 7=18446744073709551615 8=18446744073709551615",
        0xc0,
        "0001000000010000",
        "\
session origin target termination number-0 account-greatest 000001be40000018000001a540000010ffffffffffffffff",
    ),
    // EVENT requests with Requested-Action 2, and 0 where its argument is 0.
    (
        "2=1 4=1 5=4 6=1 9=80 10=4 11=3 16=0",
        0xc0,
        "0001000000010000",
        "\
session origin target event number-0 account-0 000001b44000000c00000002 \
    000001b540000018000001a5400000100000000000000050",
    ),
    (
        "2=1 4=1 5=4 6=1",
        0xc0,
        "0001000000010000",
        "session origin target event number-0 account-0 000001b44000000c00000000",
    ),
    // An INITIAL request of three services: 70 octets of Rating-Group 1, an empty slot,
    // 9 used and nothing wanted without one; the fourth slot is behind them.
    (
        "2=1 4=1 5=1 6=1 16=3 17=3 19=70 20=2 27=50 33=1 34=9 36=1 41=4 43=50",
        0xc0,
        "0001000000010000",
        "\
session origin target initial number-0 account-0 000001c74000000c00000001 \
000001c84000002c000001b540000018000001a5400000100000000000000046000001b04000000c00000001 \
000001c84000001c000001be40000014000001a44000000c00000009",
    ),
];

const ANSWERS: &[Sample] = &[
    // 60 of unit 3 are granted.
    (
        "2=7 3=7 4=2 5=1 6=1 10=3 12=2001 13=60",
        0x40,
        "0000000700000007",
        "\
session success origin application initial number-0 000001af40000018000001a140000010000000000000003c",
    ),
    // The last 40 octets, all numbers 2^32 more.
    (
        "2=4294967303 3=4294967304 4=2 5=2 6=4294967297 10=2 11=4294967298 12=4294969297 13=40 14=1",
        0x40,
        "0000000700000008",
        "\
session success origin application update number-0 000001af40000018000001a5400000100000000000000028 \
000001ae40000014000001c14000000c00000000 000001a64000000c00000001",
    ),
    // Nothing is granted: there is no last; Check-Balance-Result 0; final 2 is not 1.
    (
        "2=7 3=8 4=2 5=4 6=1 11=1 12=4012 14=1",
        0x40,
        "0000000700000008",
        "session limit origin application event number-0 000001a64000000c00000000",
    ),
    (
        "2=7 3=8 4=2 5=2 10=0 12=2001 13=1 14=2",
        0x40,
        "0000000700000008",
        "\
session success origin application update number-0 000001af40000018000001a5400000100000000000000001",
    ),
    // 70 octets of Rating-Group 1 and the last 30 of 2.
    (
        "2=7 3=7 4=2 5=1 6=1 12=2001 16=2 17=3 20=2 21=2001 22=70 25=4 28=2 29=2001 30=30 31=1",
        0x40,
        "0000000700000007",
        "\
session success origin application initial number-0 000001c840000038 000001af40000018000001a5400000100000000000000046 \
000001b04000000c00000001 0000010c4000000c000007d1 000001c84000004c 000001af40000018000001a540000010000000000000001e \
000001b04000000c00000002 0000010c4000000c000007d1 000001ae40000014000001c14000000c00000000",
    ),
    // All slots have groups, and two of them are sent: refused, and 10 of the greatest Rating-Group.
    (
        "2=7 3=7 4=2 5=2 6=1 12=2001 16=2 17=3 21=4012 23=1 25=4294967297 28=1 29=2001 30=10 33=5 41=6",
        0x40,
        "0000000700000007",
        "\
session success origin application update number-0 000001c840000020000001b04000000c000000010000010c4000000c00000fac \
000001c840000034000001af40000014000001a44000000c0000000a 000001b04000000cffffffff0000010c4000000c000007d1",
    ),
    // As many services as there are slots at most; group 1 has no Rating-Group,
    // that of 2^32 + 3 is 1, and one slot is empty.
    (
        "2=7 3=7 4=2 5=3 6=1 12=2001 16=9 17=1 21=2001 29=2001 33=4294967299 37=2001 41=2 45=4294969297",
        0x40,
        "0000000700000007",
        "\
session success origin application termination number-0 000001c8400000140000010c4000000c000007d1 \
000001c840000020000001b04000000c000000010000010c4000000c000007d1 \
000001c840000020000001b04000000c000000000000010c4000000c000007d1",
    ),
    // Answers that tell a fault have the Result-Code alone, and flag E where it is 3xxx.
    (
        "2=7 3=8 4=3 12=5012 13=60 16=2 17=3",
        0x40,
        "0000000700000008",
        "session origin 0000010c4000000c00001394",
    ),
    (
        "2=7 3=8 4=3 5=1 12=3004",
        0x60,
        "0000000700000008",
        "session origin too-busy",
    ),
    (
        "2=7 3=8 4=3 5=9 12=4294970300",
        0x60,
        "0000000700000008",
        "session origin too-busy",
    ),
    (
        "2=7 3=8 4=2 5=1 12=3004",
        0x60,
        "0000000700000008",
        "session too-busy origin application initial number-0",
    ),
];

/// A deed of a Snd-Msg with these arguments, and 0 for all others.
fn deed(told: &str) -> Deed {
    Deed {
        code: DeedCode::SndMsg.number(),
        a: places(told),
    }
}

fn identity(alloc: Global) -> Result<Identity, AllocError> {
    Ok(Identity {
        host: Octets::from_slice(alloc, b"s.example")?,
        realm: Octets::from_slice(alloc, b"example")?,
        address: [192, 0, 2, 1],
    })
}

/// Appends the octets of the request or the answer that a deed sends; nothing where it sends none.
fn put(
    alloc: Global,
    deed: &Deed,
    names: &Names<'_>,
    request: bool,
    out: &mut Vec<u8>,
) -> Result<(), Fail> {
    let message = if request {
        request_message(alloc, deed, names)?
    } else {
        answer_message(alloc, deed, names)?
    };
    if let Some(command) = &message {
        write_message(command, out)?;
    }
    Ok(())
}

/// The octets of the request or the answer that a deed of a session sends, empty where it sends none.
fn sent(alloc: Global, deed: &Deed, session: &[u8], request: bool) -> Result<Vec<u8>, Fail> {
    let identity = identity(alloc)?;
    let names = Names {
        identity: &identity,
        session,
    };
    let mut out = Vec::new(alloc);
    put(alloc, deed, &names, request, &mut out)?;
    Ok(out)
}

/// Whether the deed of a sample sends its message by the one call, and none by the other.
fn is_sent(alloc: Global, sample: &Sample, request: bool) -> Result<bool, Fail> {
    let (told, flags, identifiers, avps) = *sample;
    let wanted = message_of(alloc, flags, &[identifiers, avps])?;
    let found = sent(alloc, &deed(told), b"c1;1", request)?;
    let other = sent(alloc, &deed(told), b"c1;1", !request)?;
    Ok(found.as_slice() == wanted.as_slice() && other.is_empty())
}

/// The first sample that goes wrong, by its place.
fn wrong_sample(alloc: Global, samples: &[Sample], request: bool) -> Result<Option<usize>, Fail> {
    for (place, sample) in samples.iter().enumerate() {
        if !is_sent(alloc, sample, request)? {
            return Ok(Some(place));
        }
    }
    Ok(None)
}

#[test]
fn deeds_send_requests_and_answers(rt: HostRuntime) -> Result<(), Fail> {
    assert!(rt; wrong_sample(rt.alloc(), REQUESTS, true)? == None);
    assert!(rt; wrong_sample(rt.alloc(), ANSWERS, false)? == None);
    Ok(())
}

/// Deeds, their sessions and octets: the answer to a request of 188 octets for 60 units,
/// and that of a node without room for session f;4095.
const WHOLE: &[(&str, &[u8], &str)] = &[
    (
        "2=7 3=7 4=2 5=1 6=1 10=3 12=2001 13=60",
        b"c1;1",
        "0100008c40000110000000040000000700000007000001074000000c63313b310000010c4000000c000007d1\
0000010840000011732e6578616d706c65000000000001284000000f6578616d706c6500\
000001024000000c00000004000001a04000000c000000010000019f4000000c00000000\
000001af40000018000001a140000010000000000000003c",
    ),
    (
        "2=7 3=7 4=3 5=1 6=1 12=3004",
        b"f;4095",
        "0100005460000110000000040000000700000007000001074000000e663b343039350000\
0000010840000011732e6578616d706c65000000000001284000000f6578616d706c6500\
0000010c4000000c00000bbc",
    ),
];

/// Whether the answer that a deed of a session sends has these octets.
fn is_whole(alloc: Global, told: &str, session: &[u8], octets: &str) -> Result<bool, Fail> {
    let wanted = octets_of(alloc, octets)?;
    let found = sent(alloc, &deed(told), session, false)?;
    Ok(found.as_slice() == wanted.as_slice())
}

#[test]
fn whole_answers_are_as_typed(rt: HostRuntime) -> Result<(), Fail> {
    for (told, session, octets) in WHOLE {
        assert!(rt; is_whole(rt.alloc(), told, session, octets)?);
    }
    Ok(())
}

/// Class, type and session of deeds that send nothing.
const SILENT: &[(&str, &[u8])] = &[
    ("4=0 5=1 12=2001", b"c1;1"),
    ("4=4 5=1 12=2001", b"c1;1"),
    ("4=4294967297 5=1 12=2001", b"c1;1"),
    ("4=1 5=0 12=2001", b"c1;1"),
    ("4=1 5=5 12=2001", b"c1;1"),
    ("4=1 5=4294967297 12=2001", b"c1;1"),
    ("4=2 5=0 12=2001", b"c1;1"),
    ("4=2 5=5 12=2001", b"c1;1"),
    ("4=2 5=4294967297 12=2001", b"c1;1"),
    ("4=1 5=1 12=2001", b""),
    ("4=2 5=1 12=2001", b""),
    ("4=3 5=1 12=2001", b""),
    ("4=1 5=1 12=2001", &[0xff]),
    ("4=2 5=1 12=2001", &[0xff]),
    ("4=3 5=1 12=2001", &[0xff]),
];

/// Codes of deeds that send no message of credit control.
const OTHER_CODES: &[u16] = &[0, 2, 3, 14, 16, 65535];

/// Whether a deed of a session sends neither a request nor an answer.
fn is_silent(alloc: Global, deed: &Deed, session: &[u8]) -> Result<bool, Fail> {
    Ok(
        sent(alloc, deed, session, true)?.is_empty()
            && sent(alloc, deed, session, false)?.is_empty(),
    )
}

#[test]
fn other_deeds_send_none(rt: HostRuntime) -> Result<(), Fail> {
    for (told, session) in SILENT {
        assert!(rt; is_silent(rt.alloc(), &deed(told), session)?, "{told}");
    }
    for code in OTHER_CODES {
        let mut other = deed("4=1 5=1 12=2001");
        other.code = *code;
        assert!(rt; is_silent(rt.alloc(), &other, b"c1;1")?, "{code}");
    }
    Ok(())
}

/// A session's name of 255 octets.
const LONGEST: &[u8] = &[b'a'; 255];

/// Whether the message that a deed of the longest session sends has so many octets, and its name stands whole in it.
fn is_named(alloc: Global, told: &str, request: bool, len: usize) -> Result<bool, Fail> {
    let octets = sent(alloc, &deed(told), LONGEST, request)?;
    Ok(octets.len() == len && octets.get(28..283) == Some(LONGEST))
}

#[test]
fn the_longest_session_is_named(rt: HostRuntime) -> Result<(), Fail> {
    for (told, request, len) in [
        ("4=1 5=1 12=2001", true, 428),
        ("4=2 5=1 12=2001", false, 368),
        ("4=3 5=1 12=2001", false, 332),
    ] {
        assert!(rt; is_named(rt.alloc(), told, request, len)?, "{told}");
    }
    Ok(())
}
