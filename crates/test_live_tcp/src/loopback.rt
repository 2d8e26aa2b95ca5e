//! Two nodes of a CONFIG over loopback, at a port that the system chooses. They end after their turns.
ghost use Rattle.std.specs.Prelude.{IfOk, Ok};
ghost use Rattle.live_turns.specs.Together.{AreTogether};

use base_device::{Counting, Inputs, Status};
use bench_setup::{Setup, read_nodes};
use cmd_bench::{Shown, run_on};
use cmd_live::{LiveWords, live};
use live_threads::live_one;
use live_turns::{Lived, Living};
use node_logs::Folder;
use std::alloc::{AllocError, Global};
use std::net::{Ipv4Addr, SocketAddr, TcpListener};
use std::test::Fail;
use std::{fs, io, thread};

const STEPS: Shown = Shown {
    steps: true,
    lines: false,
    totals: false,
};

// A port at which nobody listens.
fn free_port(rt: &HostRuntime) -> io::Result<u16> {
    let gone = TcpListener::bind(rt, SocketAddr::from((Ipv4Addr::LOCALHOST, 0)))?;
    Ok(gone.local_addr()?.port())
}

// A server of so many shards, and a client that begins a session, goes on with it and ends it, and then stops.
fn config(alloc: Global, port: u16, shards: u64) -> Result<String, Fail> {
    let server = format!(in alloc;
        "{{\"host\": \"s.example\", \"realm\": \"example\", \"address\": \"127.0.0.1\", \"shards\": {shards}, \"listen\": \
            \"127.0.0.1:{port}\", \"turns\": 1000, \"peers\": [{{\"host\": \"c.example\", \"address\": \"\"}}], \
            \"accounts\": [{{\"id\": 100, \"given\": 100}}]}}"
    )?;
    let client = format!(in alloc;
        "{{\"host\": \"c.example\", \"realm\": \"example\", \"address\": \"127.0.0.1\", \"turns\": 1000, \"peers\": \
            [{{\"host\": \"s.example\", \"address\": \"127.0.0.1:{port}\"}}], \"desks\": [[\"p:s.example Start\", \
            \"c:c1;1 Begin 7=100 9=60 10=3\", \"c:c1;1 More 8=50 9=60\", \"c:c1;1 End 8=35\", \"p:s.example Stop\"]]}}"
    )?;
    Ok(format!(in alloc; "{{\"nodes\": [{server}, {client}]}}")?)
}

// The nodes of the CONFIG.
fn nodes(rt: &HostRuntime, path: &str) -> Result<Vec<Setup>, Fail> {
    let mut source = Counting::new(Inputs::new(rt, rt.stdin()));
    match read_nodes(rt.alloc(), path, &mut source) {
        Ok(setups) => Ok(setups),
        Err(_) => Err(Fail::new("a CONFIG")),
    }
}

// Whether the log of a node, as a script, prints itself.
fn prints_itself(rt: &HostRuntime, setup: Setup, path: &str) -> Result<bool, Fail> {
    let log = fs::read(rt, path)?;
    let Setup { node: _, bench } = setup;
    let mut sink = Counting::new(Vec::new(rt.alloc()));
    let status = run_on(rt.alloc(), bench, &log, STEPS, &mut sink);
    Ok(status == Status::Done && !log.is_empty() && sink.device.as_slice() == log.as_slice())
}

// The second line of a text.
fn second_line(text: &[u8]) -> &[u8] {
    let mut lines = text.split(|octet| *octet == b'\n');
    let _ = lines.next();
    match lines.next() {
        Some(line) => line,
        None => b"",
    }
}

// Both nodes of a CONFIG live, their logs written to a folder, and what is told of them.
fn told<'a, F: Fn(Vec<Living>) -> Result<Vec<Option<Lived>>, AllocError>>(
    rt: &HostRuntime,
    path: &'a str,
    folder: &'a str,
    together: &F,
) -> Result<Vec<u8>, Fail>
    requires callable { F.IsAlwaysCallable together.now }
    requires together { (livings : _) (lived : _) → F.post together.now livings (Ok lived)
        → AreTogether livings.items lived.items }
{
    let mut source = Counting::new(Inputs::new(rt, rt.stdin()));
    let mut sink = Counting::new(Vec::new(rt.alloc()));
    let words = LiveWords {
        config: path,
        node: None,
        seconds: Some("30"),
        log: Some(folder),
        stats: false,
    };
    let mut files = Folder::new(rt, folder);
    match live(rt, words, &mut source, &mut sink, together, &mut files) {
        Status::Done => Ok(sink.device),
        _ => Err(Fail::new("ended")),
    }
}

// A session is charged by a server of so many shards, and both logs print themselves.
fn charges<F: Fn(Vec<Living>) -> Result<Vec<Option<Lived>>, AllocError>>(
    rt: &HostRuntime,
    path: &str,
    folder: &str,
    shards: u64,
    together: &F,
) -> Result<(), Fail>
    requires callable { F.IsAlwaysCallable together.now }
    requires together { (livings : _) (lived : _) → F.post together.now livings (Ok lived)
        → AreTogether livings.items lived.items }
{
    let alloc = rt.alloc();
    let text = config(alloc, free_port(rt)?, shards)?;
    fs::write(rt, path, text.as_str())?;
    let told = told(rt, path, folder, together)?;
    let account: &[u8] = b"account 100 given 100 reserved 0 debited 85 unpaid 0";
    if second_line(&told) != account {
        return Err(Fail::new("charged"));
    }
    let mut setups = nodes(rt, path)?.into_iter();
    let (Some(server), Some(client)) = (setups.next(), setups.next()) else {
        return Err(Fail::new("two nodes"));
    };
    let own = format!(in alloc; "{folder}/s.example.log")?;
    if !prints_itself(rt, server, own.as_str())? {
        return Err(Fail::new("the server's log"));
    }
    let other = format!(in alloc; "{folder}/c.example.log")?;
    if !prints_itself(rt, client, other.as_str())? {
        return Err(Fail::new("the client's log"));
    }
    Ok(())
}

#[test]
fn a_session_is_charged_over_loopback(rt: HostRuntime) -> Result<(), Fail> {
    let together = |livings|
        ensures { IfOk result (λ lived. AreTogether livings.items lived.items) }
    {
        thread::map_vec(
            &rt,
            livings,
            &|living| live_one(&rt, rt.alloc(), rt.stderr(), living),
        )
    };
    charges(&rt, "loopback.json", "loopback", 1, &together)
}

#[test]
fn a_session_is_charged_by_a_server_in_threads(rt: HostRuntime) -> Result<(), Fail> {
    let together = |livings|
        ensures { IfOk result (λ lived. AreTogether livings.items lived.items) }
    {
        thread::map_vec(
            &rt,
            livings,
            &|living| live_one(&rt, rt.alloc(), rt.stderr(), living),
        )
    };
    charges(&rt, "threads.json", "threads", 2, &together)
}
