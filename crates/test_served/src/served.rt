//! Clients are served by a server's bench in threads.

use crate::bench::stands;
use crate::client::{Client, Stage, carry_line, end_client, start_client, turn};
use base_list::Octets;
use bench_core::Core;
use bench_item::{Role, Step};
use bench_live::{Live, LiveDesk};
use role_tables::PEER_TABLE;
use std::alloc::Global;
use std::sync::Wait;
use std::test::Fail;
use std::thread;
use std::thread::Threads;
use std::time::{Clock, Duration};
use tab_call::Registry;
use tab_law::LawBook;
use thread_cases::{LOOKS, count_handled, event_of, key_of, right, state_named};

/// Turns of two clients, until both are served.
fn serve<R: Wait + Clock>(
    rt: &R,
    alloc: Global,
    server: &mut Live,
    one: &mut Client,
    other: &mut Client,
) -> Result<(), Fail> {
    for _turn in 0..LOOKS {
        turn(rt, alloc, server, one)?;
        turn(rt, alloc, server, other)?;
        if one.stage == Stage::Served && other.stage == Stage::Served {
            return Ok(());
        }
        thread::sleep(rt, Duration::from_micros(200));
    }
    Err(Fail::new("both clients are served"))
}

/// Two clients charge an account of a server.
pub fn charge<R: Threads + Wait + Clock + Copy + Drop + Send + Sync + 'static>(
    rt: &R,
    alloc: Global,
    laws: &LawBook,
    spare: Vec<Registry>,
    server: &mut Live,
) -> Result<(), Fail> {
    let mut spare = spare;
    let mut one = start_client(rt, alloc, laws, "c.example", "c1;1", spare.pop())?;
    let mut other = start_client(rt, alloc, laws, "e.example", "c1;2", spare.pop())?;
    serve(rt, alloc, server, &mut one, &mut other)?;
    end_client(rt, alloc, one, "c.example")?;
    end_client(rt, alloc, other, "e.example")
}

/// Of the account all units are reserved.
pub fn is_charged(core: &Core) -> Result<(), Fail> {
    let is_all = match core.totals(100) {
        Some(totals) => totals.given == 100 && totals.reserved == 100 && totals.debited == 0,
        None => false,
    };
    right(is_all, "all units are reserved")
}

/// Turns of a client until its session is told to begin.
fn begin<R: Wait + Clock>(
    rt: &R,
    alloc: Global,
    server: &mut Live,
    client: &mut Client,
) -> Result<(), Fail> {
    for _turn in 0..LOOKS {
        turn(rt, alloc, server, client)?;
        if client.stage == Stage::Begun {
            return Ok(());
        }
        thread::sleep(rt, Duration::from_micros(200));
    }
    Err(Fail::new("the session is told to begin"))
}

/// Waits until a client sends more than was handed on, and says how much of that there is in this room.
fn waits_to_send<R: Wait + Clock>(rt: &R, client: &Client, out: &mut [u8; 1_024]) -> usize {
    for _turn in 0..LOOKS {
        let count = client.live.unsent(rt, 1, client.by_server, out);
        if count > 0 {
            return count.min(1_024);
        }
        thread::sleep(rt, Duration::from_micros(200));
    }
    0
}

/// Hands on the first half of the request that a client sends, and then that the connection is lost.
fn cut<R: Wait + Clock>(
    rt: &R,
    alloc: Global,
    server: &mut Live,
    client: &Client,
) -> Result<(), Fail> {
    let mut buffer = [0u8; 1_024];
    let half = waits_to_send(rt, client, &mut buffer) / 2;
    right(half > 0, "the client sends a request")?;
    let piece = Octets::from_slice(alloc, &buffer[..half.min(1_024)])?;
    let line = client.line;
    right(
        server.feed(rt, Step::Came { line, piece }).is_ok(),
        "half a request comes",
    )?;
    right(
        server.feed(rt, Step::Lost(line)).is_ok(),
        "the connection is lost",
    )?;
    carry_line(rt, server, line);
    Ok(())
}

/// A client's request is cut short; its peer's machine at the server is closed then, as in its first state.
fn cut_request<R: Wait + Clock>(
    rt: &R,
    alloc: Global,
    server: &mut Live,
    desks: &mut [LiveDesk],
    client: &mut Client,
) -> Result<(), Fail> {
    let peer = key_of(alloc, Role::Peer, "c.example")?;
    let open = state_named(alloc, PEER_TABLE, "R-Open")?;
    begin(rt, alloc, server, client)?;
    right(stands(rt, desks, &peer, open), "the client is connected")?;
    cut(rt, alloc, server, client)?;
    right(stands(rt, desks, &peer, 0), "the client is not connected")
}

/// A connection of a client is lost after half a request.
pub fn cut_short<R: Threads + Wait + Clock + Copy + Drop + Send + Sync + 'static>(
    rt: &R,
    alloc: Global,
    laws: &LawBook,
    spare: Vec<Registry>,
    server: &mut Live,
    desks: &mut [LiveDesk],
) -> Result<(), Fail> {
    let mut spare = spare;
    let mut client = start_client(rt, alloc, laws, "c.example", "c1;1", spare.pop())?;
    cut_request(rt, alloc, server, desks, &mut client)?;
    end_client(rt, alloc, client, "c.example")
}

/// One connection was lost, and no request was handled.
pub fn is_cut_short(alloc: Global, laws: &LawBook, core: &Core) -> Result<(), Fail> {
    let lost = event_of(laws, "R-Peer-Disc").kind;
    right(
        count_handled(alloc, core, Role::Peer, Some(lost))? == 1,
        "one peer hears of it",
    )?;
    right(
        count_handled(alloc, core, Role::Server, None)? == 0,
        "no session hears of it",
    )
}
