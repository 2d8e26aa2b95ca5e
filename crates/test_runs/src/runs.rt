//! Scripts are run, and what is printed is compared.

use crate::scripts::{LATE, LATE_TEXT, SESSION, SESSION_TEXT, SHARED, SHARED_ENDS};
use base_device::{Counting, Status};
use base_list::Octets;
use bench_open::{Account, Config};
use cmd_bench::{Shown, run_on};
use dia_dict::Dictionary;
use dia_write::Identity;
use role_tables::{CLIENT_TABLE, PEER_TABLE, SERVER_TABLE};
use std::alloc::Global;
use std::test::Fail;
use tab_text::{Table, parse};

const ALL: Shown = Shown {
    steps: true,
    lines: true,
    totals: true,
};

const ENDS: Shown = Shown {
    steps: false,
    lines: true,
    totals: true,
};

fn table(alloc: Global, text: &str) -> Result<Table, Fail> {
    match parse(alloc, text.as_bytes()) {
        Ok(table) => Ok(table),
        Err(_) => Err(Fail::new("a shipped table")),
    }
}

/// A server of one peer and one account of 100 units.
pub(crate) fn server(alloc: Global) -> Result<Config, Fail> {
    let mut peers = Vec::new(alloc);
    peers.push(Octets::from_slice(alloc, b"c.example")?)?;
    let mut accounts = Vec::new(alloc);
    accounts.push(Account {
        id: 100,
        given: 100,
    })?;
    Ok(Config {
        identity: Identity {
            host: Octets::from_slice(alloc, b"s.example")?,
            realm: Octets::from_slice(alloc, b"example")?,
            address: [192, 0, 2, 2],
        },
        peers,
        accounts,
        shards: 1,
        pages: 1,
        desks: 1,
        default_units: 10,
        dictionary: Dictionary::base(alloc)?,
        peer: table(alloc, PEER_TABLE)?,
        client: table(alloc, CLIENT_TABLE)?,
        server: table(alloc, SERVER_TABLE)?,
    })
}

/// Whether a script's run prints this text.
fn prints(alloc: Global, script: &str, shown: Shown, text: &str) -> Result<bool, Fail> {
    let mut sink = Counting::new(Vec::new(alloc));
    let status = run_on(alloc, server(alloc)?, script.as_bytes(), shown, &mut sink);
    Ok(status == Status::Done && sink.device.as_slice() == text.as_bytes())
}

#[test]
fn session_is_served_over_octets(rt: HostRuntime) -> Result<(), Fail> {
    assert!(rt; prints(rt.alloc(), SESSION, ALL, SESSION_TEXT)?);
    Ok(())
}

#[test]
fn sessions_share_an_account(rt: HostRuntime) -> Result<(), Fail> {
    assert!(rt; prints(rt.alloc(), SHARED, ENDS, SHARED_ENDS)?);
    Ok(())
}

#[test]
fn late_timer_is_stale(rt: HostRuntime) -> Result<(), Fail> {
    assert!(rt; prints(rt.alloc(), LATE, ALL, LATE_TEXT)?);
    Ok(())
}

/// Of a session only its line's opening.
const JOIN: &str = "join\n";

const STEPS: Shown = Shown {
    steps: true,
    lines: false,
    totals: false,
};

/// The log of the session.
pub(crate) fn session_log(alloc: Global) -> Result<Vec<u8>, Fail> {
    let mut sink = Counting::new(Vec::new(alloc));
    let _ = run_on(alloc, server(alloc)?, SESSION.as_bytes(), STEPS, &mut sink);
    Ok(sink.device)
}

#[test]
fn a_log_runs_again(rt: HostRuntime) -> Result<(), Fail> {
    let alloc = rt.alloc();
    let first = session_log(alloc)?;
    let mut again = Counting::new(Vec::new(alloc));
    let status = run_on(alloc, server(alloc)?, &first, STEPS, &mut again);
    assert!(rt; status == Status::Done);
    assert!(rt; first.len() > SESSION.len() && first.as_slice() == again.device.as_slice());
    Ok(())
}

#[test]
fn what_is_asked_for_is_printed(rt: HostRuntime) -> Result<(), Fail> {
    for (steps, lines, totals, text) in [
        (true, false, false, "join\n"),
        (false, true, false, "line 1 open\n"),
        (
            false,
            false,
            true,
            "account 100 given 100 reserved 0 debited 0 unpaid 0\n",
        ),
        (false, false, false, ""),
    ] {
        let shown = Shown {
            steps,
            lines,
            totals,
        };
        assert!(rt; prints(rt.alloc(), JOIN, shown, text)?);
    }
    Ok(())
}

/// Whether a script is refused with this text on a server of so many shards.
fn refuses(alloc: Global, shards: u64, script: &str, text: &str) -> Result<bool, Fail> {
    let mut sink = Counting::new(Vec::new(alloc));
    let mut config = server(alloc)?;
    config.shards = shards;
    let status = run_on(alloc, config, script.as_bytes(), ALL, &mut sink);
    Ok(status == Status::Refused && sink.device.as_slice() == text.as_bytes())
}

/// A table whose second row names an action that isn't registered.
const SECOND_ROW: &str = "  State  Event  Action         Next
  Idle   Begin  -              Idle
  Idle   More   Ring-The-Bell  Idle
";

/// One whose first row does.
const FIRST_ROW: &str = "  State  Event  Action         Next
  Idle   Begin  Blow-The-Horn  Idle
";

/// What is told where the first of these is a client's table and the other a server's.
const UNBOUND_TEXT: &str = "\
unbound Ring-The-Bell
  in: row 1, line 3
  wanted: a kind, a guard or an action that is registered
";

#[test]
fn unbound_name_is_told_with_its_row(rt: HostRuntime) -> Result<(), Fail> {
    let alloc = rt.alloc();
    let mut config = server(alloc)?;
    config.client = table(alloc, SECOND_ROW)?;
    config.server = table(alloc, FIRST_ROW)?;
    let mut sink = Counting::new(Vec::new(alloc));
    let status = run_on(alloc, config, b"join\n", ALL, &mut sink);
    assert!(rt; status == Status::Refused && sink.device.as_slice() == UNBOUND_TEXT.as_bytes());
    Ok(())
}

#[test]
fn first_refusal_is_told(rt: HostRuntime) -> Result<(), Fail> {
    let limits =
        "not opened: limits\n  wanted: 1 to 16 shards, 1 to 8 pages, at most 16 desks and 64 peers\n";
    for (shards, script, text) in [
        (1, "join\n\n a note\nsettle now\njoin 1\n", "bad line 4\n"),
        (0, "join\n", limits),
        (17, "settle now\n", limits),
    ] {
        assert!(rt; refuses(rt.alloc(), shards, script, text)?);
    }
    Ok(())
}
