//! A client's bench in threads, whose connection the test joins to the server's: what one sent is handed on to the
//! other, in pieces.

use crate::bench::{ended, started, state_of, tell};
use base_list::Octets;
use bench_item::{Key, LineState, Role, Source, Step, StepFault};
use bench_live::{Live, LiveDesk};
use role_tables::{CLIENT_TABLE, PEER_TABLE};
use std::alloc::Global;
use std::sync::{Arc, Wait};
use std::test::Fail;
use std::thread::Threads;
use std::time::Clock;
use tab_call::Registry;
use tab_law::LawBook;
use tab_step::Event;
use thread_cases::{
    Held, Hold, begin_of, config, event_of, has_told, key_of, right, state_named, world_of,
};

/// How many octets are handed on at once: messages are cut.
const PIECE: usize = 100;

/// What a client's desk tells, and in which states it waits for that.
#[derive(Drop)]
pub struct Plan {
    peer: Key,
    session: Key,
    start: Event,
    begin: Event,
    // The peer is connected; the session has its units.
    connected: u8,
    served: u8,
}

/// Where a client is in its plan.
#[derive(Clone, Copy, PartialEq, Eq)]
pub enum Stage {
    New,
    Started,
    Begun,
    Served,
}

/// A client's bench and its desks, and how much of what it and the server sent on its connection the other has got.
pub struct Client {
    pub live: Live,
    desks: Vec<LiveDesk>,
    plan: Plan,
    pub stage: Stage,
    /// Its connection at the server, 0 where it has none yet; at the client it is 1.
    pub line: u32,
    pub by_server: usize,
    by_client: usize,
}

impl Drop for Client {
    fn drop(self) {
        let Client {
            live,
            desks,
            plan,
            stage: _,
            line: _,
            by_server: _,
            by_client: _,
        } = self;
    }
}

impl Client {
    // Its bench, its desks, and the machines that it tells, in order.
    fn into_parts(self) -> (Live, Vec<LiveDesk>, [Key; 2]) {
        let Client {
            live,
            desks,
            plan,
            stage: _,
            line: _,
            by_server: _,
            by_client: _,
        } = self;
        (live, desks, plan.into_keys())
    }
}

impl Plan {
    // The machines that it tells, in order.
    fn into_keys(self) -> [Key; 2] {
        let Plan {
            peer,
            session,
            start: _,
            begin: _,
            connected: _,
            served: _,
        } = self;
        [peer, session]
    }
}

/// The plan of a client: its peer is told to start, and then its session to begin.
fn plan_of(alloc: Global, laws: &LawBook, session: &str) -> Result<Plan, Fail> {
    let connected = state_named(alloc, PEER_TABLE, "I-Open")?;
    let served = state_named(alloc, CLIENT_TABLE, "Open")?;
    let peer = key_of(alloc, Role::Peer, "s.example")?;
    Ok(Plan {
        peer,
        session: key_of(alloc, Role::Client, session)?,
        start: event_of(laws, "Start"),
        begin: begin_of(laws, 0),
        connected,
        served,
    })
}

/// The bench of a client, of one shard.
fn start_bench<R: Threads + Wait + Clock + Copy + Drop + Send + Sync + 'static>(
    rt: &R,
    alloc: Global,
    host: &str,
    registry: Registry,
) -> Result<(Live, Vec<LiveDesk>), Fail> {
    let gate = Arc::new(alloc, Hold::new(*rt, Held::Nobody))?;
    let mut registries = Vec::new(alloc);
    registries.push(registry)?;
    let config = config(alloc, host, &["s.example"], 1)?;
    started(rt, alloc, config, registries, &gate)
}

/// Starts a client of that name, with a session.
pub fn start_client<R: Threads + Wait + Clock + Copy + Drop + Send + Sync + 'static>(
    rt: &R,
    alloc: Global,
    laws: &LawBook,
    host: &str,
    session: &str,
    registry: Option<Registry>,
) -> Result<Client, Fail> {
    let Some(registry) = registry else {
        return Err(Fail::new("the client has a registry"));
    };
    let plan = plan_of(alloc, laws, session)?;
    let (live, desks) = start_bench(rt, alloc, host, registry)?;
    Ok(Client {
        live,
        desks,
        plan,
        stage: Stage::New,
        line: 0,
        by_server: 0,
        by_client: 0,
    })
}

/// Carries all that waits on a connection where it is for.
pub fn carry_line<R: Wait>(rt: &R, live: &mut Live, line: u32) {
    for _item in 0..1_000 {
        if live.feed(rt, Step::Lift(Source::Line(line))).is_err() {
            return;
        }
        if live.feed(rt, Step::Drop(Source::Line(line))).is_err() {
            return;
        }
    }
}

/// Hands octets to a connection, and carries what comes of them. Says whether they are taken.
fn hand_to<R: Wait>(
    rt: &R,
    alloc: Global,
    to: &mut Live,
    line: u32,
    octets: &[u8],
) -> Result<bool, Fail> {
    let piece = Octets::from_slice(alloc, octets)?;
    if to.feed(rt, Step::Came { line, piece }).is_err() {
        return Ok(false);
    }
    carry_line(rt, to, line);
    Ok(true)
}

/// Hands on a piece of what a connection sent to the other end, and says how much that was.
fn hand_on<R: Wait>(
    rt: &R,
    alloc: Global,
    from: &Live,
    line: u32,
    out: usize,
    to: &mut Live,
    other: u32,
) -> Result<usize, Fail> {
    let mut buffer = [0u8; PIECE];
    let count = from.unsent(rt, u64::from(line), out, &mut buffer);
    if count == 0 || !hand_to(rt, alloc, to, other, &buffer[..count])? {
        return Ok(0);
    }
    Ok(count)
}

/// Makes the connection that a client dials, once it does.
fn connect<R: Wait>(rt: &R, server: &mut Live, client: &mut Client) -> Result<(), StepFault> {
    if let Some(LineState::Dialling { .. }) = client.live.line(rt, 1) {
        server.feed(rt, Step::Joined)?;
        client.line = server.lines(rt).min(1_024) as u32;
        client.live.feed(rt, Step::Dialled(1))?;
        carry_line(rt, &mut client.live, 1);
    }
    Ok(())
}

/// Hands on what both ends of a connection sent.
fn exchange<R: Wait>(
    rt: &R,
    alloc: Global,
    server: &mut Live,
    client: &mut Client,
) -> Result<(), Fail> {
    let Client {
        live,
        line,
        by_server,
        by_client,
        ..
    } = client;
    let there = hand_on(rt, alloc, live, 1, *by_server, server, *line)?;
    *by_server = by_server.saturating_add(there);
    let back = hand_on(rt, alloc, server, *line, *by_client, live, 1)?;
    *by_client = by_client.saturating_add(back);
    Ok(())
}

/// A client's desk tells what is next in its plan, once it may. False where that is refused.
fn go_on<R: Wait>(rt: &R, client: &mut Client) -> bool {
    let Client {
        desks,
        plan,
        stage,
        ..
    } = client;
    match *stage {
        Stage::New => {
            *stage = Stage::Started;
            tell(rt, desks, &plan.peer, &plan.start)
        }
        Stage::Started => {
            if state_of(rt, desks, &plan.peer) != Some(plan.connected) {
                return true;
            }
            *stage = Stage::Begun;
            tell(rt, desks, &plan.session, &plan.begin)
        }
        Stage::Begun => {
            if state_of(rt, desks, &plan.session) == Some(plan.served) {
                *stage = Stage::Served;
            }
            true
        }
        Stage::Served => true,
    }
}

/// A turn of a client and of its connection.
pub fn turn<R: Wait>(
    rt: &R,
    alloc: Global,
    server: &mut Live,
    client: &mut Client,
) -> Result<(), Fail> {
    if client.line == 0 {
        right(connect(rt, server, client).is_ok(), "a client is connected")?;
    } else {
        exchange(rt, alloc, server, client)?;
    }
    right(go_on(rt, client), "a client's desk tells")
}

/// Ends a client: its parts are gathered, and its desk told just its plan, in order.
pub fn end_client<R: Threads + Wait + Clock>(
    rt: &R,
    alloc: Global,
    client: Client,
    host: &str,
) -> Result<(), Fail> {
    let (live, desks, keys) = client.into_parts();
    let parts = ended(rt, live, desks)?;
    let core = world_of(alloc, config(alloc, host, &["s.example"], 1)?, &parts)?;
    right(
        has_told(alloc, &core, 0, &keys)?,
        "the client's desk told its plan",
    )
}
