//! Scripts are run on two nodes that charge each other, and what is printed is compared.
ghost use Rattle.std.specs.Prelude.{None, option_map};

use base_device::{Counting, Status};
use bench_setup::Setup;
use cmd_bench::{Shown, run_logged_on, run_nodes_on, run_on};
use config_text::{RoleTables, config_of, read_config};
use dia_dict::Dictionary;
use node_logs::{FileError, FileSink};
use role_tables::{CLIENT_TABLE, PEER_TABLE, SERVER_TABLE};
use std::alloc::Global;
use std::test::Fail;
use tab_text::{Table, parse};

/// A server of one account, which listens, and a client, which doesn't.
const PAIR: &str = r#"{"nodes": [
    {
        "host": "s.example",
        "realm": "example",
        "address": "192.0.2.1",
        "listen": "127.0.0.1:3868",
        "peers": [{"host": "c.example", "address": "127.0.0.1:3869"}],
        "accounts": [{"id": 100, "given": 100}],
        "desks": [[]]
    },
    {
        "host": "c.example",
        "realm": "example",
        "address": "192.0.2.2",
        "peers": [{"host": "s.example", "address": "127.0.0.1:3868"}],
        "desks": [[]]
    }
]}"#;

/// The client asks for 60 units, uses 50 and asks for 60 more, and uses 35 of the 50 that are left.
const SESSION: &str = "\
c.example told 0 p:s.example Start
settle
c.example told 0 c:c1;1 Begin 7=100 9=60 10=3
settle
c.example told 0 c:c1;1 More 8=50 9=60
settle
c.example told 0 c:c1;1 End 8=35
settle
";

/// The server dials the client.
const UNHEARD: &str = "\
s.example told 0 p:c.example Start
settle
";

/// What is printed of it: the client doesn't listen, so that the dial is lost.
const UNHEARD_TEXT: &str = "\
s.example told 0 p:c.example Start
s.example lift desk 0
s.example drop desk 0
s.example work 0
  p:c.example Start Closed Wait-Conn-Ack row 0
    Dial 0 1
    Arm 1 30
s.example lift shard 0
s.example drop shard 0
s.example lift shard 0
s.example drop shard 0
s.example lost 1
s.example lift line 1
s.example drop line 1
s.example work 0
  p:c.example I-Rcv-Conn-Nack Wait-Conn-Ack Closed row 3
    Disarm
s.example lift shard 0
s.example drop shard 0
s.example line 1 closed
s.example account 100 given 100 reserved 0 debited 0 unpaid 0
";

const ALL: Shown = Shown {
    steps: true,
    lines: true,
    totals: true,
};

const TOTALS: Shown = Shown {
    steps: false,
    lines: false,
    totals: true,
};

fn table(alloc: Global, text: &str) -> Result<Table, Fail> {
    match parse(alloc, text.as_bytes()) {
        Ok(table) => Ok(table),
        Err(_) => Err(Fail::new("a shipped table")),
    }
}

/// The nodes of a CONFIG, with the shipped tables.
fn setups(alloc: Global, config: &str) -> Result<Vec<Setup>, Fail> {
    let Ok(nodes) = read_config(alloc, config.as_bytes()) else {
        return Err(Fail::new("a CONFIG"));
    };
    let mut setups = Vec::new(alloc);
    for node in nodes {
        let tables = RoleTables {
            peer: table(alloc, PEER_TABLE)?,
            client: table(alloc, CLIENT_TABLE)?,
            server: table(alloc, SERVER_TABLE)?,
        };
        let bench = config_of(alloc, &node, tables, Dictionary::base(alloc)?)?;
        setups.push(Setup { node, bench })?;
    }
    Ok(setups)
}

/// Whether a script's run on both nodes, in pieces of so many octets, has this status and prints this text.
fn prints(
    alloc: Global,
    cut: usize,
    script: &str,
    shown: Shown,
    status: Status,
    text: &str,
) -> Result<bool, Fail> {
    let mut sink = Counting::new(Vec::new(alloc));
    let answer = run_nodes_on(
        alloc,
        cut,
        setups(alloc, PAIR)?,
        script.as_bytes(),
        shown,
        &mut sink,
    );
    Ok(answer == status && sink.device.as_slice() == text.as_bytes())
}

#[test]
fn client_and_server_charge_each_other(rt: HostRuntime) -> Result<(), Fail> {
    let text = "s.example account 100 given 100 reserved 0 debited 85 unpaid 0\n";
    for cut in [1, 50, 65_536] {
        assert!(rt; prints(rt.alloc(), cut, SESSION, TOTALS, Status::Done, text)?);
    }
    Ok(())
}

#[test]
fn dial_to_who_does_not_listen_is_lost(rt: HostRuntime) -> Result<(), Fail> {
    assert!(rt; prints(rt.alloc(), 50, UNHEARD, ALL, Status::Done, UNHEARD_TEXT)?);
    Ok(())
}

#[test]
fn line_for_no_node_is_bad(rt: HostRuntime) -> Result<(), Fail> {
    for (script, text) in [
        ("settle\n\n a note\nx.example settle\n", "bad line 4\n"),
        ("settle now\n", "bad line 1\n"),
        ("s.example\n", "bad line 1\n"),
        ("s.example join\nc.example joined\n", "bad line 2\n"),
    ] {
        assert!(rt; prints(rt.alloc(), 50, script, ALL, Status::Refused, text)?);
    }
    Ok(())
}

#[test]
fn first_node_that_is_not_opened_is_told(rt: HostRuntime) -> Result<(), Fail> {
    let alloc = rt.alloc();
    let mut nodes = setups(alloc, PAIR)?;
    if let Some(setup) = nodes.get_mut(1) {
        setup.bench.shards = 17;
    }
    let mut sink = Counting::new(Vec::new(alloc));
    let status = run_nodes_on(alloc, 50, nodes, b"settle now\n", ALL, &mut sink);
    let text =
        "not opened: limits\n  wanted: 1 to 16 shards, 1 to 8 pages, at most 16 desks and 64 peers\n";
    assert!(rt; status == Status::Refused && sink.device.as_slice() == text.as_bytes());
    Ok(())
}

/// Files that are kept, so many at most.
#[derive(Drop)]
struct Kept {
    names: Vec<Vec<u8>>,
    texts: Vec<Vec<u8>>,
    room: usize,
    failed: Option<Vec<u8>>,
}

impl Kept {
    fn new(alloc: Global, room: usize) -> Kept {
        Kept {
            names: Vec::new(alloc),
            texts: Vec::new(alloc),
            room,
            failed: None,
        }
    }

    /// The text of the file of this name that was written last.
    fn text(&self, name: &str) -> Option<&[u8]> {
        let mut found = None;
        for (other, text) in self.names.iter().zip(self.texts.iter()) {
            if other.as_slice() == name.as_bytes() {
                found = Some(text.as_slice());
            }
        }
        found
    }
}

impl FileSink for Kept {
    ghost files = { λ _. None };

    ghost failed = { λ kept. option_map (λ name. name.items) kept.failed };

    fn put(&mut self, alloc: Global, name: &[u8], octets: &[u8]) -> Result<(), FileError> {
        match (Vec::from_slice(alloc, name), Vec::from_slice(alloc, octets)) {
            (Ok(name), Ok(text)) => {
                if self.names.len() >= self.room {
                    self.failed = Some(name);
                    return Err(FileError::Failed);
                }
                if self.names.push(name).is_err() || self.texts.push(text).is_err() {
                    return Err(FileError::NoMemory);
                }
                Ok(())
            }
            _ => Err(FileError::NoMemory),
        }
    }
}

const STEPS: Shown = Shown {
    steps: true,
    lines: false,
    totals: false,
};

/// Whether a log, run on the bench of the node of a place, prints itself.
fn prints_itself(alloc: Global, place: usize, log: &[u8]) -> Result<bool, Fail> {
    for (at, setup) in setups(alloc, PAIR)?.into_iter().enumerate() {
        if at == place {
            let mut sink = Counting::new(Vec::new(alloc));
            let status = run_on(alloc, setup.bench, log, STEPS, &mut sink);
            return Ok(status == Status::Done && sink.device.as_slice() == log);
        }
    }
    Ok(false)
}

#[test]
fn log_of_each_node_is_a_script(rt: HostRuntime) -> Result<(), Fail> {
    let alloc = rt.alloc();
    let mut sink = Counting::new(Vec::new(alloc));
    let mut files = Kept::new(alloc, 2);
    let status = run_logged_on(
        alloc,
        50,
        setups(alloc, PAIR)?,
        SESSION.as_bytes(),
        TOTALS,
        &mut sink,
        &mut files,
    );
    assert!(rt; status == Status::Done && files.names.len() == 2);
    let text = b"s.example account 100 given 100 reserved 0 debited 85 unpaid 0\n";
    assert!(rt; sink.device.as_slice() == text.as_slice());
    for (place, name) in ["s.example.log", "c.example.log"].into_iter().enumerate() {
        let Some(log) = files.text(name) else {
            return Err(Fail::new("a log"));
        };
        assert!(rt; log.len() > 500 && prints_itself(alloc, place, log)?);
    }
    Ok(())
}

#[test]
fn log_that_cannot_be_written_is_told(rt: HostRuntime) -> Result<(), Fail> {
    let alloc = rt.alloc();
    for (room, name) in [(0, "c.example.log"), (1, "s.example.log")] {
        let mut sink = Counting::new(Vec::new(alloc));
        let mut files = Kept::new(alloc, room);
        let status = run_logged_on(
            alloc,
            50,
            setups(alloc, PAIR)?,
            UNHEARD.as_bytes(),
            ALL,
            &mut sink,
            &mut files,
        );
        let text = format!(in alloc; "write fault: {name} can't be written\n")?;
        assert!(rt; status == Status::Fault && sink.device.as_slice() == text.as_bytes());
    }
    Ok(())
}

#[test]
fn refused_run_writes_no_log(rt: HostRuntime) -> Result<(), Fail> {
    let alloc = rt.alloc();
    let mut sink = Counting::new(Vec::new(alloc));
    let mut files = Kept::new(alloc, 2);
    let status = run_logged_on(
        alloc,
        50,
        setups(alloc, PAIR)?,
        b"settle now\n",
        ALL,
        &mut sink,
        &mut files,
    );
    assert!(rt; status == Status::Refused && files.names.is_empty());
    Ok(())
}
