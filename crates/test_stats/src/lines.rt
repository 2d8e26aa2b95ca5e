//! Lines over entries of a log.
use base_codes::{DeedCode, message_class, session_fact};
use base_list::Octets;
use bench_item::{
    Entry, Handled, Item, KeptDeed, KeptEvent, Key, LineItem, MachineItem, Moved, Role, Series,
    Source, Step,
};
use live_stats::{CODES, Stats, Sums};
use std::alloc::Global;
use std::test::Fail;
use tab_law::{Deed, PLACES};
use tab_step::{Event, MachineState};

/// The first states of a peer's machine.
const STATES: [&str; 3] = ["Closed", "Wait-I-CEA", "I-Open"];

/// A line without anything behind it: its second, the sessions, and what stands on accounts.
const NOTHING: &str =
    "sessions 0 reserved 0 debited 0 in.requests 0 in.rate 0 in.waiting 0 in.median - in.99th - \
    out.requests 0 out.rate 0 out.waiting 0 out.median - out.99th -";

/// The facts of a message of credit control.
fn facts(class: u64, hop_by_hop: u64, number: u64, code: u64) -> [u64; PLACES] {
    let mut facts = [0; PLACES];
    facts[session_fact::LINE] = 1;
    facts[session_fact::HOP_BY_HOP] = hop_by_hop;
    facts[session_fact::CLASS] = class;
    facts[session_fact::REQUEST_NUMBER] = number;
    facts[session_fact::RESULT_CODE] = code;
    facts
}

fn entry(step: Step, item: Option<Item>, handled: Option<Handled>) -> Entry {
    Entry {
        step,
        item,
        handled,
    }
}

/// Octets that came on a connection.
fn came(alloc: Global, line: u32) -> Entry {
    let piece = Octets::new(Vec::new(alloc));
    entry(Step::Came { line, piece }, None, None)
}

fn event(alloc: Global, role: Role, facts: [u64; PLACES]) -> Result<MachineItem, Fail> {
    Ok(MachineItem {
        key: Key {
            role,
            name: Octets::from_slice(alloc, b"c.example")?,
        },
        event: KeptEvent::keep(alloc, &Event { kind: 7, facts })?,
        condition: None,
        session: Octets::from_slice(alloc, b"c;1")?,
    })
}

/// A message that is taken off the connection on which it came.
fn heard(alloc: Global, line: u32, facts: [u64; PLACES]) -> Result<Entry, Fail> {
    let item = Item::ToMachine(event(alloc, Role::Peer, facts)?);
    Ok(entry(Step::Lift(Source::Line(line)), Some(item), None))
}

/// A message that is handed to its connection.
fn sent(alloc: Global, line: u64, code: DeedCode, a: [u64; PLACES]) -> Result<Entry, Fail> {
    let code = code.number();
    let item = Item::ToLine(LineItem {
        line,
        deed: KeptDeed::keep(alloc, &Deed { code, a })?,
        session: Octets::from_slice(alloc, b"c;1")?,
    });
    Ok(entry(Step::Drop(Source::Shard(0)), Some(item), None))
}

/// A machine that moved.
fn moved(alloc: Global, role: Role, before: u8, after: u8) -> Result<Entry, Fail> {
    let regs = [0; PLACES];
    let facts = [0; PLACES];
    let item = Item::ToMachine(event(alloc, role, facts)?);
    let handled = Handled::Move(Moved {
        machine: 4,
        event: Event { kind: 7, facts },
        before: MachineState {
            state: before,
            regs,
        },
        after: MachineState { state: after, regs },
        row: Some(1),
        chain: Series::empty(alloc),
        deeds: Series::empty(alloc),
        outcomes: Series::empty(alloc),
    });
    Ok(entry(Step::Work(0), Some(item), Some(handled)))
}

fn begun(alloc: Global, peers: u64, moment: u64) -> Result<Stats, Fail> {
    let mut states = Vec::new(alloc);
    for name in STATES {
        states.push(Octets::from_slice(alloc, name.as_bytes())?)?;
    }
    Ok(Stats::new(alloc, &states, peers, moment)?)
}

fn line(alloc: Global, stats: &mut Stats, moment: u64, sums: Sums) -> Result<String, Fail> {
    let mut out = Vec::new(alloc);
    stats.put_line(&mut out, moment, sums)?;
    Ok(String::from_utf8(out)?)
}

const NO_SUMS: Sums = Sums {
    reserved: 0,
    debited: 0,
};

#[test]
fn peers_are_counted_by_state_and_sessions_where_they_are_open(
    rt: HostRuntime,
) -> Result<(), Fail> {
    let alloc = rt.alloc();
    let mut stats = begun(alloc, 3, 0)?;
    let text = line(alloc, &mut stats, 1_000_000, NO_SUMS)?;
    let wanted = format!(in alloc; "second 1 {NOTHING} peers.Closed 3\n")?;
    assert_eq!(rt; text.as_str(), wanted.as_str());
    for (role, before, after) in [
        (Role::Peer, 0, 1),
        (Role::Peer, 1, 2),
        (Role::Peer, 0, 1),
        (Role::Peer, 2, 2),
        (Role::Client, 0, 3),
        (Role::Client, 3, 4),
        (Role::Server, 0, 1),
        (Role::Server, 1, 0),
        (Role::Server, 0, 0),
    ] {
        stats.note(1_200_000, &moved(alloc, role, before, after)?)?;
    }
    let sums = Sums {
        reserved: 18_446_744_073_709_551_616,
        debited: 7,
    };
    let text = line(alloc, &mut stats, 2_100_000, sums)?;
    let wanted =
        "second 2 sessions 1 reserved 18446744073709551616 debited 7 in.requests 0 in.rate 0 in.waiting 0 \
        in.median - in.99th - out.requests 0 out.rate 0 out.waiting 0 out.median - out.99th - \
        peers.Closed 1 peers.Wait-I-CEA 1 peers.I-Open 1\n";
    assert_eq!(rt; text.as_str(), wanted);
    Ok(())
}

/// A request that is taken off the connection on which it came.
fn request_came(alloc: Global, line: u32, hop_by_hop: u64) -> Result<Entry, Fail> {
    heard(alloc, line, facts(message_class::REQUEST, hop_by_hop, 1, 0))
}

/// An answer that is handed to its connection.
fn answer_went(
    alloc: Global,
    line: u64,
    class: u64,
    hop_by_hop: u64,
    code: u64,
) -> Result<Entry, Fail> {
    sent(
        alloc,
        line,
        DeedCode::SndMsg,
        facts(class, hop_by_hop, 1, code),
    )
}

/// What came is timed from its octets on, until its answer is handed to the connection.
#[test]
fn requests_that_came_are_timed_from_their_octets(rt: HostRuntime) -> Result<(), Fail> {
    let alloc = rt.alloc();
    let mut stats = begun(alloc, 0, 5_000_000)?;
    stats.note(5_000_100, &came(alloc, 1))?;
    // One on another connection, with the same identifier.
    stats.note(5_000_200, &came(alloc, 2))?;
    stats.note(5_000_900, &request_came(alloc, 1, 7)?)?;
    stats.note(5_000_900, &request_came(alloc, 2, 7)?)?;
    // No messages of credit control.
    stats.note(5_000_900, &heard(alloc, 2, facts(0, 7, 1, 0))?)?;
    let watchdog = facts(message_class::ANSWER, 7, 0, 2001);
    stats.note(5_000_900, &sent(alloc, 1, DeedCode::SndDwa, watchdog)?)?;
    let answer = answer_went(alloc, 2, message_class::ANSWER, 7, 2001)?;
    stats.note(5_001_000, &answer)?;
    let text = line(alloc, &mut stats, 5_500_000, NO_SUMS)?;
    let wanted =
        "second 5 sessions 0 reserved 0 debited 0 in.requests 2 in.rate 4 in.waiting 1 in.median 831 \
        in.99th 831 out.requests 0 out.rate 0 out.waiting 0 out.median - out.99th - in.2001 1\n";
    assert_eq!(rt; text.as_str(), wanted);
    Ok(())
}

/// What waits goes on waiting behind a line; an answer of no request is counted, and not timed.
#[test]
fn answers_are_counted_by_their_codes(rt: HostRuntime) -> Result<(), Fail> {
    let alloc = rt.alloc();
    let mut stats = begun(alloc, 0, 0)?;
    stats.note(900, &came(alloc, 1))?;
    stats.note(900, &request_came(alloc, 1, 7)?)?;
    let _first = line(alloc, &mut stats, 1_000_000, NO_SUMS)?;
    for (class, hop_by_hop, code) in [
        (message_class::FAULT, 7, 3004),
        (message_class::ANSWER, 8, 4012),
        (message_class::ANSWER, 8, 4012),
        (message_class::ANSWER, 8, CODES as u64),
    ] {
        stats.note(1_500_900, &answer_went(alloc, 1, class, hop_by_hop, code)?)?;
    }
    let text = line(alloc, &mut stats, 2_000_000, NO_SUMS)?;
    let wanted =
        "second 2 sessions 0 reserved 0 debited 0 in.requests 0 in.rate 0 in.waiting 0 in.median 1507327 \
        in.99th 1507327 out.requests 0 out.rate 0 out.waiting 0 out.median - out.99th - in.3004 1 in.4012 2 \
        in.other 1\n";
    assert_eq!(rt; text.as_str(), wanted);
    let text = line(alloc, &mut stats, 2_000_000, NO_SUMS)?;
    let wanted = format!(in alloc; "second 2 {NOTHING}\n")?;
    assert_eq!(rt; text.as_str(), wanted.as_str());
    Ok(())
}

/// A request of this node has the identifier of its session's machine and of its number; its answer comes with that.
#[test]
fn requests_that_went_are_timed_until_their_answers_came(rt: HostRuntime) -> Result<(), Fail> {
    let alloc = rt.alloc();
    let mut stats = begun(alloc, 0, 0)?;
    stats.note(
        100,
        &sent(
            alloc,
            1,
            DeedCode::SndMsg,
            facts(message_class::REQUEST, 1, 1, 0),
        )?,
    )?;
    stats.note(
        100,
        &sent(
            alloc,
            1,
            DeedCode::SndMsg,
            facts(message_class::REQUEST, 2, 3, 0),
        )?,
    )?;
    stats.note(350, &came(alloc, 1))?;
    stats.note(
        700,
        &heard(alloc, 1, facts(message_class::ANSWER, 65_536, 1, 2001))?,
    )?;
    stats.note(1_000, &came(alloc, 1))?;
    stats.note(
        1_700,
        &heard(alloc, 1, facts(message_class::ANSWER, 131_074, 3, 5030))?,
    )?;
    let text = line(alloc, &mut stats, 1_000_000, NO_SUMS)?;
    let wanted =
        "second 1 sessions 0 reserved 0 debited 0 in.requests 0 in.rate 0 in.waiting 0 in.median - in.99th - \
        out.requests 2 out.rate 2 out.waiting 0 out.median 255 out.99th 927 out.2001 1 out.5030 1\n";
    assert_eq!(rt; text.as_str(), wanted);
    Ok(())
}
