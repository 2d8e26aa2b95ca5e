//! Requests of credit control charged by a server's node, from octets to octets.
//! Values were worked out by hand from RFC 8506 and the definition of the account book.

use crate::charging_octets::wrong_octets;
use crate::charging_step::{ACCOUNT, Server, node};
use crate::roles::Roles;
use DeedCode::{Charge, Debit, Refund, Release, Reserve};
use acct_totals::{Booked, Op, Outcome, Totals};
use base_codes::{DeedCode, session_fact};
use base_text::number_of;
use charge_facts::answer_facts;
use charge_message::request_message;
use deed_message::Names;
use dia_msg::write_message;
use role_tables::all_laws;
use std::alloc::Global;
use std::test::Fail;
use tab_call::{Ask, Calls, Do, Registry, StoredAct, StoredGuard};
use tab_law::{Acted, Deed, PLACES, Scene, high_into, holds};
use tab_role::TakesRoles;

/// A session, the CC-Request-Type and CC-Request-Number of its request,
/// and the facts of the request and of its answer that are not said by these: words `PLACE=NUMBER`.
type Row = (&'static str, (u64, u32), &'static str, &'static str);

/// The machine's number of the client that sends the requests.
const CLIENT: u64 = 1;

/// The place and the number of a word `PLACE=NUMBER`.
fn told_by(word: &str) -> Option<(u64, u64)> {
    let (place, number) = word.split_once('=')?;
    Some((number_of(place.as_bytes())?, number_of(number.as_bytes())?))
}

/// Puts the numbers that words tell at their places. A word of another form spoils all places.
fn tell(places: &mut [u64; PLACES], told: &str) {
    for word in told.split(' ') {
        match told_by(word) {
            Some((place, number)) if place < PLACES as u64 => places[place as usize] = number,
            _ => *places = [GREATEST; PLACES],
        }
    }
}

/// All places, 0 but for those that words tell.
pub fn places(told: &str) -> [u64; PLACES] {
    let mut places = [0; PLACES];
    tell(&mut places, told);
    places
}

/// The deed by which a client sends a request.
fn asking((kind, number): (u64, u32), told: &str) -> Deed {
    let mut a = [0; PLACES];
    a[session_fact::ACCOUNT] = ACCOUNT;
    tell(&mut a, told);
    a[session_fact::HOP_BY_HOP] = CLIENT;
    a[session_fact::CLASS] = 1;
    a[session_fact::REQUEST_TYPE] = kind;
    a[session_fact::REQUEST_NUMBER] = u64::from(number) + 1;
    Deed {
        code: DeedCode::SndMsg.number(),
        a,
    }
}

/// The facts of an answer to a client's request.
fn answered((kind, number): (u64, u32), told: &str) -> [u64; PLACES] {
    let mut facts = places(told);
    let identifier = CLIENT * 0x1_0000 + u64::from(number);
    facts[session_fact::HOP_BY_HOP] = identifier;
    facts[session_fact::END_TO_END] = identifier;
    facts[session_fact::CLASS] = 2;
    facts[session_fact::REQUEST_TYPE] = kind;
    facts[session_fact::REQUEST_NUMBER] = u64::from(number) + 1;
    facts
}

/// Appends the octets of a client's request of a session.
fn writes_of_client(alloc: Global, session: &[u8], deed: &Deed, out: &mut Vec<u8>) -> bool {
    let Ok(identity) = node(alloc, "c.example", [192, 0, 2, 2]) else {
        return false;
    };
    let names = Names {
        identity: &identity,
        session,
    };
    match &request_message(alloc, deed, &names) {
        Ok(Some(request)) => write_message(request, out).is_ok(),
        Ok(None) => true,
        Err(_) => false,
    }
}

/// Whether a message's octets have these facts of an answer.
fn has_facts(server: &Server, octets: &[u8], facts: &[u64; PLACES]) -> bool {
    match &server.read(octets) {
        Ok(answer) => answer_facts(answer) == Some(*facts),
        Err(_) => false,
    }
}

/// Whether a row's request is answered as it says.
fn is_answered(
    alloc: Global,
    roles: &Roles<'_>,
    server: &mut Server,
    session: &[u8],
    asked: &Deed,
    facts: &[u64; PLACES],
) -> bool {
    let mut octets = Vec::new(alloc);
    let mut out = Vec::new(alloc);
    writes_of_client(alloc, session, asked, &mut octets)
        && server.serve(roles, octets.as_slice(), &mut out)
        && has_facts(server, out.as_slice(), facts)
}

/// Whether all rows are answered as they say.
fn are_answered(alloc: Global, roles: &Roles<'_>, server: &mut Server, rows: &[Row]) -> bool {
    for row in rows {
        let (session, request, asked, told) = *row;
        let asked = asking(request, asked);
        let facts = answered(request, told);
        if !is_answered(alloc, roles, server, session.as_bytes(), &asked, &facts) {
            return false;
        }
    }
    true
}

/// What is reserved, debited and unpaid of an account.
pub type Sums = (u64, u64, u128);

/// An operation and its outcome, both done: the deed's code, session, group, the number that is told,
/// the units that were moved and those that could not be paid.
pub type Entry = (DeedCode, u64, u64, u64, u64, u64);

/// What is tried: what it is, what the account is given, requests;
/// then the sums, the journal and the states of sessions, by the numbers of these in their table.
type Case = (
    &'static str,
    u64,
    &'static [Row],
    Sums,
    &'static [Entry],
    &'static [(&'static str, u8)],
);

/// Whether the account, which is given so much, has these sums.
pub fn has_sums(server: &Server, given: u64, (reserved, debited, unpaid): Sums) -> bool {
    let totals = Totals {
        given,
        reserved,
        debited,
        unpaid,
    };
    server.page.totals(ACCOUNT) == Some(totals)
}

/// The operation of an entry.
fn op_of(entry: Entry) -> Op {
    let account = ACCOUNT;
    let (code, session, group, number, _, _) = entry;
    match code {
        DeedCode::Reserve => Op::Reserve {
            account,
            session,
            group,
            amount: number,
        },
        DeedCode::Debit => Op::Debit {
            account,
            session,
            group,
            used: number,
        },
        DeedCode::Charge => Op::Charge {
            account,
            amount: number,
        },
        DeedCode::Refund => Op::Refund {
            account,
            amount: number,
        },
        _ => Op::Release { account, session },
    }
}

/// Whether an entry of the journal is as told.
pub fn is_entry(booked: &Booked, entry: Entry) -> bool {
    let (_, _, _, _, amount, unpaid) = entry;
    booked.op == op_of(entry) && booked.outcome == Outcome::Done { amount, unpaid }
}

/// Whether these are the journal.
fn has_booked(server: &Server, entries: &[Entry]) -> bool {
    let journal = server.page.journal();
    journal.len() == entries.len()
        && journal
            .iter()
            .zip(entries)
            .all(|(booked, entry)| is_entry(booked, *entry))
}

/// Whether the machines of sessions are in these states.
fn has_states(server: &Server, states: &[(&'static str, u8)]) -> bool {
    states.iter().all(|(session, state)| {
        match server.machine(session.as_bytes()) {
            Some(machine) => machine.state == *state,
            None => false,
        }
    })
}

/// A node with one account, to which its peer is connected.
pub fn connected(alloc: Global, roles: &Roles<'_>, given: u64) -> Option<Server> {
    let mut server = Server::new(alloc, given)?;
    server.connect(roles);
    Some(server)
}

/// The numbers of the states Idle and Open.
const IDLE: u8 = 0;

const OPEN: u8 = 1;

/// Two sessions share 100 units; one uses more than it was granted.
/// Its last update comes once more, and an update of a session that was never seen.
const SHARED: &[Row] = &[
    ("a;1", (1, 0), "9=60 10=3", "10=3 12=2001 13=60"),
    ("b;1", (1, 0), "9=60 10=3", "10=3 12=2001 13=40 14=1"),
    ("a;1", (2, 1), "8=70 9=10 10=3", "12=4012"),
    ("a;1", (2, 1), "8=70 9=10 10=3", "12=4012"),
    ("n;1", (2, 1), "8=70 9=10 10=3", "12=5002"),
];

/// A session is granted units twice and ends.
const WHOLE: &[Row] = &[
    ("a;1", (1, 0), "9=60 10=3", "10=3 12=2001 13=60"),
    ("a;1", (2, 1), "8=50 9=50 10=3", "10=3 12=2001 13=50 14=1"),
    ("a;1", (3, 2), "8=30 10=3", "12=2001"),
];

/// What an account may be given at most.
const MOST: u64 = 0x4000_0000_0000_0000;

/// The greatest amount.
const GREATEST: u64 = 0xffff_ffff_ffff_ffff;

/// Of all that there can be 1 is reserved, and as much is used as can be said. Accounts that are not open.
const WIDEST: &[Row] = &[
    ("a;1", (1, 0), "9=1 10=3", "10=3 12=2001 13=1"),
    ("a;1", (2, 1), "8=18446744073709551615 10=3", "12=2001"),
    ("b;1", (1, 0), "7=0 9=1 10=3", "12=5030"),
    ("c;1", (1, 0), "7=999 9=1 10=3", "12=5030"),
];

/// One-time events: 30 of 100 are debited, then 80 are not there, 50 are given back, 100 are there;
/// a price is not told, and more than there is isn't debited.
const EVENTS: &[Row] = &[
    ("e;1", (4, 0), "9=30 10=3 11=1", "10=3 12=2001 13=30"),
    ("e;2", (4, 0), "9=80 10=3 11=3", "11=2 12=2001"),
    ("e;3", (4, 0), "9=50 10=3 11=2", "12=2001"),
    ("e;4", (4, 0), "9=100 10=3 11=3", "11=1 12=2001"),
    ("e;5", (4, 0), "9=1 10=3 11=4", "12=5031"),
    ("e;6", (4, 0), "9=18446744073709551615 10=3 11=1", "12=4012"),
];

/// Two services ask for 70 octets of Rating-Group 1 and 50 of 2, of 100.
const TWO_ASK: Row = (
    "g;1",
    (1, 0),
    "16=2 17=3 19=70 20=2 25=4 27=50 28=2",
    "12=2001 16=2 17=3 20=2 21=2001 22=70 25=4 28=2 29=2001 30=30 31=1",
);

/// They used 80 and 10, and want 10 each.
const ONE_IS_REFUSED: Row = (
    "g;1",
    (2, 1),
    "16=2 17=3 18=80 19=10 20=2 25=4 26=10 27=10 28=2",
    "12=2001 16=2 17=3 21=4012 25=4 28=2 29=2001 30=10",
);

/// Both used all that they were granted, and want 10 each.
const BOTH_ARE_REFUSED: Row = (
    "g;1",
    (2, 1),
    "16=2 17=3 18=70 19=10 20=2 25=4 26=30 27=10 28=2",
    "12=4012",
);

/// The session ends, and tells of one of its services.
const ONE_IS_TOLD: Row = ("g;1", (3, 1), "16=1 17=3 18=40 20=2", "12=2001");

/// A service without Rating-Group and one of the greatest, with the widest amounts.
const WIDE_SERVICES: &[Row] = &[
    (
        "w;1",
        (1, 0),
        "16=2 17=1 19=1 20=3 25=4294967297 27=18446744073709551615 28=2",
        "12=2001 16=2 17=1 20=3 21=2001 22=1 25=4294967297 28=2 29=2001 30=4611686018427387903 31=1",
    ),
    (
        "w;1",
        (2, 0xffff),
        "16=2 17=1 18=18446744073709551615 20=3 25=4294967297 26=1 27=5 28=2",
        "12=2001 16=2 17=1 21=2001 25=4294967297 28=2 29=2001 30=5",
    ),
];

/// The longest name of a session: 255 letters.
const LONGEST: &str = "\
aaaaaaaaaaaaaaaaaaaaaaaaaaaaaaaaaaaaaaaaaaaaaaaaaaaaaaaaaaaaaaaaaaaaaaaaaaaaaaaaaaaaa\
aaaaaaaaaaaaaaaaaaaaaaaaaaaaaaaaaaaaaaaaaaaaaaaaaaaaaaaaaaaaaaaaaaaaaaaaaaaaaaaaaaaaa\
aaaaaaaaaaaaaaaaaaaaaaaaaaaaaaaaaaaaaaaaaaaaaaaaaaaaaaaaaaaaaaaaaaaaaaaaaaaaaaaaaaaaa";

/// All of them. A Debit that ends a session is followed by a Release.
const CASES: &[Case] = &[
    (
        "an account that is shared",
        100,
        SHARED,
        (40, 60, 10),
        &[
            (Reserve, 1, 0, 60, 60, 0),
            (Reserve, 2, 0, 40, 40, 0),
            (Debit, 1, 0, 70, 60, 10),
            (Release, 1, 0, 0, 0, 0),
        ],
        &[("a;1", IDLE), ("b;1", OPEN), ("n;1", IDLE)],
    ),
    (
        "a whole session",
        100,
        WHOLE,
        (0, 80, 0),
        &[
            (Reserve, 1, 0, 60, 60, 0),
            (Debit, 1, 0, 50, 50, 0),
            (Reserve, 1, 0, 50, 50, 0),
            (Debit, 1, 0, 30, 30, 0),
            (Release, 1, 0, 0, 0, 0),
        ],
        &[("a;1", IDLE)],
    ),
    (
        "the widest amounts",
        MOST,
        WIDEST,
        (0, MOST, 13_835_058_055_282_163_711),
        &[
            (Reserve, 1, 0, 1, 1, 0),
            (Debit, 1, 0, GREATEST, MOST, 13_835_058_055_282_163_711),
            (Reserve, 1, 0, 0, 0, 0),
        ],
        &[("a;1", OPEN), ("b;1", IDLE)],
    ),
    (
        "one-time events",
        100,
        EVENTS,
        (0, 0, 0),
        &[(Charge, 1, 0, 30, 30, 0), (Refund, 3, 0, 50, 30, 0)],
        &[("e;1", IDLE), ("e;6", IDLE)],
    ),
    (
        "two services",
        100,
        &[TWO_ASK, ONE_IS_REFUSED],
        (10, 80, 10),
        &[
            (Debit, 1, 3, 0, 0, 0),
            (Reserve, 1, 3, 70, 70, 0),
            (Debit, 1, 4, 0, 0, 0),
            (Reserve, 1, 4, 30, 30, 0),
            (Debit, 1, 3, 80, 70, 10),
            (Reserve, 1, 3, 0, 0, 0),
            (Debit, 1, 4, 10, 10, 0),
            (Reserve, 1, 4, 10, 10, 0),
        ],
        &[("g;1", OPEN)],
    ),
    (
        "all services are refused",
        100,
        &[TWO_ASK, BOTH_ARE_REFUSED],
        (0, 100, 0),
        &[
            (Debit, 1, 3, 0, 0, 0),
            (Reserve, 1, 3, 70, 70, 0),
            (Debit, 1, 4, 0, 0, 0),
            (Reserve, 1, 4, 30, 30, 0),
            (Debit, 1, 3, 70, 70, 0),
            (Debit, 1, 4, 30, 30, 0),
            (Release, 1, 0, 0, 0, 0),
        ],
        &[("g;1", IDLE)],
    ),
    (
        "one service is told",
        100,
        &[TWO_ASK, ONE_IS_TOLD],
        (0, 40, 0),
        &[
            (Debit, 1, 3, 0, 0, 0),
            (Reserve, 1, 3, 70, 70, 0),
            (Debit, 1, 4, 0, 0, 0),
            (Reserve, 1, 4, 30, 30, 0),
            (Debit, 1, 3, 40, 40, 0),
            (Release, 1, 0, 0, 30, 0),
        ],
        &[("g;1", IDLE)],
    ),
    (
        "the widest services",
        MOST,
        WIDE_SERVICES,
        (5, 2, 18_446_744_073_709_551_614),
        &[
            (Debit, 1, 1, 0, 0, 0),
            (Reserve, 1, 1, 1, 1, 0),
            (Debit, 1, 0x1_0000_0001, 0, 0, 0),
            (Reserve, 1, 0x1_0000_0001, MOST - 1, MOST - 1, 0),
            (Debit, 1, 1, GREATEST, 1, GREATEST - 1),
            (Reserve, 1, 1, 0, 0, 0),
            (Debit, 1, 0x1_0000_0001, 1, 1, 0),
            (Reserve, 1, 0x1_0000_0001, 5, 5, 0),
        ],
        &[("w;1", OPEN)],
    ),
    (
        "the longest session",
        100,
        &[(LONGEST, (4, 0), "9=30 10=3 11=1", "10=3 12=2001 13=30")],
        (0, 30, 0),
        &[(Charge, 1, 0, 30, 30, 0)],
        &[(LONGEST, IDLE)],
    ),
];

/// Whether a case goes as it says on a new node.
fn goes(alloc: Global, roles: &Roles<'_>, server: &mut Server, case: &Case) -> bool {
    let (_, given, rows, sums, entries, states) = *case;
    are_answered(alloc, roles, server, rows)
        && has_sums(server, given, sums)
        && has_booked(server, entries)
        && has_states(server, states)
}

fn is_charged(alloc: Global, roles: &Roles<'_>, case: &Case) -> bool {
    match connected(alloc, roles, case.1) {
        Some(mut server) => goes(alloc, roles, &mut server, case),
        None => false,
    }
}

/// The first case that goes wrong.
fn wrong_case(alloc: Global, roles: &Roles<'_>) -> Option<&'static str> {
    for case in CASES {
        if !is_charged(alloc, roles, case) {
            return Some(case.0);
        }
    }
    wrong_octets(alloc, roles)
}

/// What goes wrong over these callbacks.
fn wrong_over(alloc: Global, registry: &Registry) -> Result<Option<&'static str>, Fail> {
    let roles = Roles::new(alloc, registry)?;
    Ok(wrong_case(alloc, &roles))
}

#[test]
fn requests_are_charged(rt: HostRuntime) -> Result<(), Fail> {
    let alloc = rt.alloc();
    let laws = all_laws(alloc)?;
    let mut guards = Vec::new(alloc);
    for entry in laws.guards().as_slice() {
        let own = entry.value.copy(alloc)?;
        let ask: Ask = Box::new(alloc, move |scene: &Scene| holds(&own, scene))?;
        guards.push(StoredGuard::new(entry.value.copy(alloc)?, ask))?;
    }
    let mut acts = Vec::new(alloc);
    for entry in laws.acts().as_slice() {
        let own = entry.value.copy(alloc)?;
        let act: Do = Box::new(alloc, move |scene: &Scene, room: &mut Acted| {
            high_into(&own, scene, room);
        })?;
        acts.push(StoredAct::new(entry.value.copy(alloc)?, act))?;
    }
    let mut registry = Registry::new(alloc);
    registry.register(&laws, Calls { guards, acts })?;
    let wrong = wrong_over(alloc, &registry)?;
    assert!(rt; wrong.is_none(), "{wrong:?}");
    Ok(())
}
