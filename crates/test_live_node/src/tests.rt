//! What both nodes come to, turn by turn.

use crate::pair::{Alone, Turns, somewhere};
use crate::pumped::Heard;
use base_device::{Counting, Inputs};
use bench_setup::{Setup, read_nodes, with_calls};
use hex::decode;
use std::fs;
use std::test::Fail;

/// The desk tells in each turn its next text: that the peer starts; that a session begins, wants 60 units of account
/// 100, used 50 of them and wants 60 more, of which 50 are left, and ends with 35 more used; that the peer stops.
const SESSION: &str = "\
I-Open - R-Open - 0 0
I-Open Open R-Open Open 60 0
I-Open Open R-Open Open 50 50
I-Open Idle R-Open Idle 0 85
Closed Idle Closed Idle 0 85
";

/// The same, where an answer comes a turn later than its request went out:
/// each text waits for it, that the peer stops too.
const SLOW_SESSION: &str = "\
Wait-I-CEA - Closed - 0 0
I-Open - R-Open - 0 0
I-Open PendingI R-Open - 0 0
I-Open Open R-Open Open 60 0
I-Open PendingU R-Open Open 60 0
I-Open Open R-Open Open 50 50
I-Open PendingT R-Open Open 50 50
I-Open Idle R-Open Idle 0 85
Closing Idle R-Open Idle 0 85
Closed Idle Closed Idle 0 85
";

/// The peer's timer is armed for 30 seconds once it is dialled.
/// The session's text waits for the peer twice, and is then told in any case: its request can't be sent.
const UNANSWERED: &str = "\
Wait-Conn-Ack - 
Wait-Conn-Ack - 
Wait-Conn-Ack - 
Closed Idle 
";

/// A peer without a usable address is lost at once.
const UNREACHABLE: &str = "\
Closed - 
Closed - 
Closed - 
Closed Idle 
";

/// A server and a client. Nothing listens and nothing is dialled here.
const PAIR: &str = r#"{"nodes": [
    {
        "host": "s.example",
        "realm": "example",
        "address": "127.0.0.1",
        "peers": [{"host": "c.example", "address": "127.0.0.1:3869"}],
        "accounts": [{"id": 100, "given": 100}]
    },
    {
        "host": "c.example",
        "realm": "example",
        "address": "127.0.0.1",
        "peers": [{"host": "s.example", "address": "127.0.0.1:3868"}],
        "desks": [
            ["p:s.example Start", "c:c1;1 Begin 7=100 9=60 10=3", "c:c1;1 More 8=50 9=60", "c:c1;1 End 8=35",
                "p:s.example Stop"]
        ]
    }
]}"#;

// The nodes of the pair, of a file of that name.
fn nodes(rt: &HostRuntime, name: &str) -> Result<Vec<Setup>, Fail> {
    fs::write(rt, name, PAIR)?;
    let mut source = Counting::new(Inputs::new(rt, rt.stdin()));
    match read_nodes(rt.alloc(), name, &mut source) {
        Ok(setups) => Ok(setups),
        Err(_) => Err(Fail::new("a CONFIG")),
    }
}

// What both nodes come to in so many turns.
fn both(rt: &HostRuntime, name: &str, turns: u64, is_slow: bool) -> Result<Vec<u8>, Fail> {
    let alloc = rt.alloc();
    let mut setups = nodes(rt, name)?.into_iter();
    let (Some(server), Some(client)) = (setups.next(), setups.next()) else {
        return Err(Fail::new("two nodes"));
    };
    let turns = Turns {
        alloc,
        server,
        client,
        turns,
        is_slow,
    };
    Ok(with_calls(alloc, 1, turns)?)
}

#[test]
fn a_session_is_charged(rt: HostRuntime) -> Result<(), Fail> {
    assert!(rt; both(&rt, "session.json", 5, false)?.as_slice() == SESSION.as_bytes());
    Ok(())
}

#[test]
fn a_stop_waits_for_the_answer(rt: HostRuntime) -> Result<(), Fail> {
    assert!(rt; both(&rt, "slow.json", 10, true)?.as_slice() == SLOW_SESSION.as_bytes());
    Ok(())
}

// What a client's node alone comes to.
fn alone(rt: &HostRuntime, name: &str, is_dialled: bool) -> Result<Vec<u8>, Fail> {
    let alloc = rt.alloc();
    let mut setups = nodes(rt, name)?.into_iter();
    let (Some(_), Some(client)) = (setups.next(), setups.next()) else {
        return Err(Fail::new("two nodes"));
    };
    let address = if is_dialled { Some(somewhere()) } else { None };
    let alone = Alone {
        alloc,
        client,
        address,
        moments: [0, 0, 29, 30],
    };
    Ok(with_calls(alloc, 1, alone)?)
}

#[test]
fn a_dial_is_not_answered(rt: HostRuntime) -> Result<(), Fail> {
    assert!(rt; alone(&rt, "unanswered.json", true)?.as_slice() == UNANSWERED.as_bytes());
    Ok(())
}

#[test]
fn a_peer_has_no_address(rt: HostRuntime) -> Result<(), Fail> {
    assert!(rt; alone(&rt, "unreachable.json", false)?.as_slice() == UNREACHABLE.as_bytes());
    Ok(())
}

/// A Device-Watchdog-Request, 56 octets, and the Capabilities-Exchange-Request of c.example.
const DWR: &str = "\
0100003880000118000000000000000100000001\
000001084000001163\
2e6578616d706c65000000000001284000000f6578616d706c6500";

const CER: &str = "\
0100006c80000101000000000000000100000001\
0000010840000011632e6578616d706c65000000000001284000000f6578616d706c6500\
000001014000000e00017f00000100000000010a4000000c000000000000010d0000000978000000\
000001024000000c00000004";

// What comes of octets on a connection that the server accepts.
fn heard(rt: &HostRuntime, name: &str, octets: &str) -> Result<Vec<u8>, Fail> {
    let alloc = rt.alloc();
    let Some(server) = nodes(rt, name)?.into_iter().next() else {
        return Err(Fail::new("two nodes"));
    };
    let octets = decode(alloc, octets)?;
    let heard = Heard {
        alloc,
        server,
        octets,
    };
    Ok(with_calls(alloc, 1, heard)?)
}

/// A connection's first message is to be a CER.
#[test]
fn a_first_message_is_read_and_closes(rt: HostRuntime) -> Result<(), Fail> {
    assert!(rt;
        heard(&rt, "watchdog.json", DWR)?.as_slice() == b"read 56 written 0 closed\n".as_slice()
    );
    assert!(rt;
        heard(&rt, "capabilities.json", CER)?.as_slice() == b"read 108 written 0 open\n".as_slice()
    );
    Ok(())
}
