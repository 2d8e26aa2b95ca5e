//! What requests and answers say in facts, from octets typed by hand.

use crate::octets::{message_of, octets_of, places};
use base_codes::session_fact as fact;
use charge_facts::{answer_facts, request_facts};
use dia_dict::Dictionary;
use dia_msg::{Command, read_message};
use std::alloc::Global;
use std::test::Fail;
use tab_law::PLACES;

/// The octets that a Requested-Service-Unit without an amount asks for.
const DEFAULT_UNITS: u64 = 500;

const IDENTIFIERS: &str = "0000000700000008";

/// CC-Request-Type, CC-Request-Number and other AVPs of a request, and its facts other than identifiers,
/// class and type, as words `PLACE=NUMBER`.
type Request = (u64, &'static str, &'static str, &'static str);

const REQUESTS: &[Request] = &[
    (1, "00000000", "subscriber sixty", "6=1 7=100 9=60 10=3"),
    (
        1,
        "00000000",
        "subscriber sixty unknown",
        "6=1 7=100 9=60 10=3",
    ),
    (1, "ffffffff", "", "6=4294967296"),
    (1, "00000000", "sixty five-seconds", "6=1 9=60 10=3"),
    (
        2,
        "00000001",
        "sixty five-seconds seven-octets",
        "6=2 8=12 9=60 10=3",
    ),
    (2, "00000001", "five-seconds none-used", "6=2 8=5"),
    (
        2,
        "00000001",
        "many seven-octets many",
        "6=2 8=18446744073709551615",
    ),
    (
        3,
        "00000002",
        "sixty five-seconds seven-octets",
        "6=3 8=12 10=3",
    ),
    (
        4,
        "00000000",
        "check sixty five-seconds",
        "6=1 9=60 10=3 11=3",
    ),
    (2, "00000000", "check", "6=1 11=3"),
    (1, "00000000", "no-amount", "6=1 9=500 10=2"),
    (1, "00000000", "input", "6=1 9=500 10=2"),
    (1, "00000000", "two-amounts", "6=1 9=3 10=3"),
    (1, "00000000", "subscriber seven", "6=1 7=100"),
    (1, "00000000", "imsi subscriber seven", "6=1 7=100"),
    (1, "00000000", "letter subscriber", "6=1"),
    (1, "00000000", "no-data subscriber", "6=1"),
    (1, "00000000", "leading-zero subscriber", "6=1"),
    (1, "00000000", "sixteen subscriber", "6=1"),
    (1, "00000000", "fifteen", "6=1 7=999999999999999"),
    (
        1,
        "00000000",
        "sixty five-seconds indicator seventy fifty",
        "6=1 16=2 17=3 19=70 20=2 25=4 27=50 28=2",
    ),
    (
        2,
        "00000001",
        "many eighty-one greatest",
        "6=2 16=2 17=1 18=81 19=10 20=2 25=4294967297 26=10",
    ),
    (1, "00000000", "eighty-one", "6=1 16=1 17=1 19=10 20=2"),
    (
        3,
        "00000001",
        "seventy eighty-one",
        "6=2 16=2 17=3 20=2 25=1 26=81 28=2",
    ),
    (1, "00000000", "four", "6=1 16=4 17=2 25=3 33=4 41=5"),
];

/// Octets of an answer, and its facts, empty where it is no event of a client.
type Answer = (&'static str, &'static str);

const ANSWERS: &[Answer] = &[
    (
        "0100008c40000110000000040000000700000007000001074000000c63313b310000010c4000000c000007d1\
0000010840000011732e6578616d706c65000000000001284000000f6578616d706c6500\
000001024000000c00000004000001a04000000c000000010000019f4000000c00000000\
000001af40000018000001a140000010000000000000003c",
        "2=7 3=7 4=2 5=1 6=1 10=3 12=2001 13=60",
    ),
    (
        "0100009440000110000000040000000700000008000001074000000c63313b310000010c4000000c00000fac\
0000010840000011732e6578616d706c65000000000001284000000f6578616d706c6500\
000001024000000c00000004000001a04000000c000000040000019f4000000cffffffff\
000001ae40000014000001c14000000c00000000000001a64000000c00000001",
        "2=7 3=8 4=2 5=4 6=4294967296 11=2 12=4012 14=1",
    ),
    (
        "010000d440000110000000040000000700000007000001074000000c63313b310000010c4000000c000007d1\
0000010840000011732e6578616d706c65000000000001284000000f6578616d706c6500\
000001024000000c00000004000001a04000000c000000020000019f4000000c00000000\
000001c84000004c000001af40000018000001a5400000100000000000000046\
000001b04000000c000000010000010c4000000c00000fac000001ae40000014000001c14000000c00000000\
000001c840000014000001b04000000c00000002",
        "2=7 3=7 4=2 5=2 6=1 12=2001 16=2 17=3 20=2 21=4012 22=70 23=1 25=4 29=2001",
    ),
    (
        "0100006040000110000000040000000700000008000001074000000c63313b31\
0000010840000011732e6578616d706c65000000000001284000000f6578616d706c6500\
0000010c4000000c0000138d0000011740000010000001cd40000008",
        "2=7 3=8 4=3 12=5005",
    ),
    (
        "0100004460000110000000040000000700000007\
0000010840000011732e6578616d706c65000000000001284000000f6578616d706c6500\
0000010c4000000c00000bbc",
        "",
    ),
    (
        "0100005060000102000000040000000700000007000001074000000c63313b31\
0000010840000011732e6578616d706c65000000000001284000000f6578616d706c6500\
0000010c4000000c00000bb9",
        "",
    ),
    (
        "0100003880000118000000000000000100000001\
0000010840000011612e6578616d706c65000000000001284000000f6578616d706c6500",
        "",
    ),
];

fn type_of(request_type: u64) -> &'static str {
    match request_type {
        1 => "000001a04000000c00000001",
        2 => "000001a04000000c00000002",
        3 => "000001a04000000c00000003",
        _ => "000001a04000000c00000004",
    }
}

/// The octets of a sample.
fn request_of(alloc: Global, sample: &Request) -> Result<Vec<u8>, Fail> {
    let (request_type, number, avps, _) = *sample;
    let parts = [
        IDENTIFIERS,
        "names",
        type_of(request_type),
        "0000019f4000000c",
        number,
        avps,
    ];
    message_of(alloc, 0xc0, &parts)
}

/// Whether facts are those of a sample.
fn are_told(facts: &[u64; PLACES], sample: &Request) -> bool {
    let mut wanted = places(sample.3);
    wanted[fact::HOP_BY_HOP] = 7;
    wanted[fact::END_TO_END] = 8;
    wanted[fact::CLASS] = 1;
    wanted[fact::REQUEST_TYPE] = sample.0;
    *facts == wanted
}

/// Whether a sample is read as a request and has the facts that it tells.
fn has_facts(alloc: Global, dictionary: &Dictionary, sample: &Request) -> Result<bool, Fail> {
    let octets = request_of(alloc, sample)?;
    Ok(match &read_message(alloc, dictionary, octets.as_slice()) {
        Ok(Command::Ccr(request)) => are_told(&request_facts(request, DEFAULT_UNITS), sample),
        _ => false,
    })
}

/// Whether a command has these facts for a client, or none where none are told.
fn answers_with(command: &Command, told: &str) -> bool {
    match answer_facts(command) {
        Some(found) => !told.is_empty() && found == places(told),
        None => told.is_empty(),
    }
}

/// Whether octets are read as a command with the facts that are told.
fn has_answer_facts(
    alloc: Global,
    dictionary: &Dictionary,
    (digits, told): Answer,
) -> Result<bool, Fail> {
    let octets = octets_of(alloc, digits)?;
    Ok(match &read_message(alloc, dictionary, octets.as_slice()) {
        Ok(command) => answers_with(command, told),
        Err(_) => false,
    })
}

/// The first sample that goes wrong, by its place; answers stand behind requests.
fn wrong_sample(alloc: Global, dictionary: &Dictionary) -> Result<Option<usize>, Fail> {
    for (place, sample) in REQUESTS.iter().enumerate() {
        if !has_facts(alloc, dictionary, sample)? {
            return Ok(Some(place));
        }
    }
    for (place, sample) in ANSWERS.iter().enumerate() {
        if !has_answer_facts(alloc, dictionary, *sample)? {
            return Ok(Some(REQUESTS.len() + place));
        }
    }
    Ok(None)
}

#[test]
fn requests_and_answers_say_their_facts(rt: HostRuntime) -> Result<(), Fail> {
    let dictionary = Dictionary::base(rt.alloc())?;
    let wrong = wrong_sample(rt.alloc(), &dictionary)?;
    assert!(rt; wrong == None, "{wrong:?}");
    Ok(())
}
