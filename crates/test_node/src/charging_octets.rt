//! Requests of credit control and their answers by a server's node, octet by octet,
//! typed by hand from RFC 6733 and RFC 8506.

use crate::charging::{Sums, connected, has_sums, is_entry, places};
use crate::charging_step::Server;
use crate::roles::Roles;
use base_codes::DeedCode;
use std::alloc::Global;

/// Parts of messages: Session-Id c1;1, Origin-Host c.example, Origin-Realm and Destination-Realm example and
/// Auth-Application-Id 4; Service-Context-Id; CC-Request-Type and CC-Request-Number; Subscription-Id of account 100;
/// Requested-Service-Unit with 60 of CC-Service-Specific-Units; Origin-Host s.example and Origin-Realm example;
/// services that ask for 70 octets of Rating-Group 1 and for 50 of 2. Words that are not listed are digits themselves.
const WORDS: &str = "\
client 000001074000000c63313b310000010840000011632e6578616d706c65000000000001284000000f6578616d706c65000000011b4000000f\
    6578616d706c6500000001024000000c00000004
context 000001cd4000000b78407900
initial 000001a04000000c000000010000019f4000000c00000000
update 000001a04000000c000000020000019f4000000c00000001
subscriber 000001bb40000020000001c24000000c00000000000001bc4000000b31303000
sixty 000001b540000018000001a140000010000000000000003c
server 0000010840000011732e6578616d706c65000000000001284000000f6578616d706c6500
seventy 000001c84000002c000001b540000018000001a5400000100000000000000046000001b04000000c00000001
fifty 000001c84000002c000001b540000018000001a5400000100000000000000032000001b04000000c00000002
";

/// The answer that grants 60: Session-Id, Result-Code 2001, names, Auth-Application-Id, type,
/// number, Granted-Service-Unit.
const GRANTED: &str = "\
0100008c40000110000000040000000700000007 000001074000000c63313b310000010c4000000c000007d1 server \
000001024000000c00000004000001a04000000c000000010000019f4000000c00000000 \
000001af40000018000001a140000010000000000000003c";

fn digits_of(word: &str) -> &str {
    for line in WORDS.split('\n') {
        if let Some((name, digits)) = line.split_once(' ')
            && name == word
        {
            return digits;
        }
    }
    word
}

/// Appends the octets of a word, if it is hexadecimal digits.
fn appends(alloc: Global, word: &str, octets: &mut Vec<u8>) -> bool {
    match &hex::decode(alloc, digits_of(word).as_bytes()) {
        Ok(more) => octets.extend_from_slice(more.as_slice()).is_ok(),
        Err(_) => false,
    }
}

/// Appends the octets of a message by words, if each of them is hexadecimal digits.
fn joins(alloc: Global, words: &str, octets: &mut Vec<u8>) -> bool {
    let mut all = true;
    for word in words.split(' ') {
        all = all && appends(alloc, word, octets);
    }
    all
}

/// Whether a request is answered by these octets.
fn answers(
    alloc: Global,
    roles: &Roles<'_>,
    server: &mut Server,
    request: &str,
    answer: &str,
) -> bool {
    let mut octets = Vec::new(alloc);
    let mut wanted = Vec::new(alloc);
    let mut out = Vec::new(alloc);
    joins(alloc, request, &mut octets)
        && joins(alloc, answer, &mut wanted)
        && server.serve(roles, octets.as_slice(), &mut out)
        && out.as_slice() == wanted.as_slice()
        && !out.is_empty()
}

/// Whether the last entry of the journal is a Release of so much by the first session.
fn has_released(server: &Server, amount: u64) -> bool {
    match server.page.journal().last() {
        Some(booked) => is_entry(booked, (DeedCode::Release, 1, 0, 0, amount, 0)),
        None => false,
    }
}

/// Whether the session c1;1 is open with these registers, and all others 0.
fn is_open_with(server: &Server, told: &str) -> bool {
    match server.machine(b"c1;1") {
        Some(machine) => machine.state == 1 && machine.regs == places(told),
        None => false,
    }
}

/// The request for 60 units.
const ASKED: &str =
    "010000bcc0000110000000040000000700000007 client context initial subscriber sixty";

/// The same request with AVP 9999, without flag M.
const UNKNOWN: &str = "\
010000c8c0000110000000040000000700000007 client context initial subscriber sixty \
0000270f0000000c00000001";

/// Faulty requests and their answers: AVP 9999 with flag M, no Service-Context-Id,
/// and an amount that is longer than its group.
const FAULTY: &[(&str, &str, Sums)] = &[
    (
        "\
010000c8c0000110000000040000000700000007 client context initial subscriber sixty \
0000270f4000000c00000001",
        "\
0100006440000110000000040000000700000007000001074000000c63313b31 server \
0000010c4000000c0000138900000117400000140000270f4000000c00000001",
        (0, 0, 0),
    ),
    (
        "010000b0c0000110000000040000000700000007 client initial subscriber sixty",
        "\
0100006040000110000000040000000700000007000001074000000c63313b31 server \
0000010c4000000c0000138d0000011740000010000001cd40000008",
        (0, 0, 0),
    ),
    (
        "\
010000d4c0000110000000040000000700000007 client context initial subscriber sixty \
000001be40000018000001a5400000110000000000000007",
        "\
0100006840000110000000040000000700000007000001074000000c63313b31 server \
0000010c4000000c000013960000011740000018000001a5400000100000000000000000",
        (0, 0, 0),
    ),
    // Five services, Rating-Group 1 twice, and a service in an EVENT request: none of these is served.
    (
        "\
01000108c0000110000000040000000700000007 client context initial subscriber \
000001c840000014000001b04000000c00000001000001c840000014000001b04000000c00000002 \
000001c840000014000001b04000000c00000003000001c840000014000001b04000000c00000004 \
000001c840000014000001b04000000c00000005",
        NOT_SERVED,
        (0, 0, 0),
    ),
    (
        "010000fcc0000110000000040000000700000007 client context initial subscriber seventy seventy",
        NOT_SERVED,
        (0, 0, 0),
    ),
    (
        "\
010000dcc0000110000000040000000700000007 client context \
000001a04000000c000000040000019f4000000c00000000 subscriber 000001b44000000c00000000 seventy",
        NOT_SERVED,
        (0, 0, 0),
    ),
];

/// The answer 5012.
const NOT_SERVED: &str =
    "0100005040000110000000040000000700000007000001074000000c63313b31 server 0000010c4000000c00001394";

/// The answer: 70 octets of Rating-Group 1, and the last 30 of 2.
const BOTH_GRANTED: &str = "\
010000f840000110000000040000000700000007 000001074000000c63313b310000010c4000000c000007d1 server \
000001024000000c00000004000001a04000000c000000010000019f4000000c00000000 000001c840000038 \
000001af40000018000001a5400000100000000000000046000001b04000000c000000010000010c4000000c000007d1 \
000001c84000004c 000001af40000018000001a540000010000000000000001e \
000001b04000000c000000020000010c4000000c000007d1 000001ae40000014000001c14000000c00000000";

/// 80 octets of 1 are used and 10 wanted, 10 of 2 used and 10 wanted.
const BOTH_USED: &str = "\
0100012cc0000110000000040000000800000008 client context update subscriber \
000001c840000044000001b540000018000001a540000010000000000000000a000001be40000018000001a5400000100000000000000050000001b\
    04000000c00000001 \
000001c840000044000001b540000018000001a540000010000000000000000a000001be40000018000001a540000010000000000000000a000001b\
    04000000c00000002";

/// The answer: the first is refused, the second granted.
const ONE_GRANTED: &str = "\
010000cc40000110000000040000000800000008 000001074000000c63313b310000010c4000000c000007d1 server \
000001024000000c00000004000001a04000000c000000020000019f4000000c00000001 \
000001c840000020000001b04000000c000000010000010c4000000c00000fac \
000001c840000038000001af40000018000001a540000010000000000000000a \
000001b04000000c000000020000010c4000000c000007d1";

/// The request of both.
const BOTH_ASKED: &str =
    "010000fcc0000110000000040000000700000007 client context initial subscriber seventy fifty";

/// What holds after the last request of a trial: the session is open for 60 units, there is none and nothing is booked,
/// or its timer fires and the last 10 units are released.
#[derive(Clone, Copy)]
enum End {
    Open,
    Nothing,
    Fires,
}

fn ends(roles: &Roles<'_>, server: &mut Server, end: End) -> bool {
    match end {
        End::Open => is_open_with(server, "0=100 1=1 2=2001 3=60 4=3 8=1 14=1 15=1"),
        End::Nothing => server.page.journal().is_empty() && server.machine(b"c1;1").is_none(),
        End::Fires => {
            server.fire(roles, b"c1;1")
                && has_sums(server, 100, (0, 80, 10))
                && has_released(server, 10)
        }
    }
}

/// What is tried on a new node: requests, their answers and the sums after each; and how it ends.
type Trial = (
    &'static str,
    &'static [(&'static str, &'static str, Sums)],
    End,
);

const TRIALS: &[Trial] = &[
    (
        "octets of sixty units",
        &[(ASKED, GRANTED, (60, 0, 0))],
        End::Open,
    ),
    (
        "an unknown AVP",
        &[(UNKNOWN, GRANTED, (60, 0, 0))],
        End::Open,
    ),
    ("faulty requests", FAULTY, End::Nothing),
    (
        "octets of services",
        &[
            (BOTH_ASKED, BOTH_GRANTED, (100, 0, 0)),
            (BOTH_USED, ONE_GRANTED, (10, 80, 10)),
        ],
        End::Fires,
    ),
];

/// Whether a trial goes as it says on a new node.
fn goes(alloc: Global, roles: &Roles<'_>, server: &mut Server, trial: &Trial) -> bool {
    let (_, exchanges, end) = *trial;
    for (request, answer, sums) in exchanges {
        if !answers(alloc, roles, server, request, answer) || !has_sums(server, 100, *sums) {
            return false;
        }
    }
    ends(roles, server, end)
}

fn is_done(alloc: Global, roles: &Roles<'_>, trial: &Trial) -> bool {
    match connected(alloc, roles, 100) {
        Some(mut server) => goes(alloc, roles, &mut server, trial),
        None => false,
    }
}

/// The first trial that goes wrong.
pub fn wrong_octets(alloc: Global, roles: &Roles<'_>) -> Option<&'static str> {
    for trial in TRIALS {
        if !is_done(alloc, roles, trial) {
            return Some(trial.0);
        }
    }
    None
}
