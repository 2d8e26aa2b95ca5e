//! A client's node and a server's, opened as a CONFIG says, and turns of both.
ghost use Rattle.std.specs.Prelude.{◌≡◌};
ghost use Rattle.std.specs.List.{AllByRecursion as Each};
ghost use Rattle.role_tables.specs.Roles.{all_laws};

use crate::rows::{put_client, put_server};
use bench_core::Core;
use bench_node::{LiveNode, PeerAddress, open_bench};
use bench_setup::{Setup, WithCalls};
use config_text::NodeConfig;
use live_desk::Desk;
use std::alloc::{AllocError, Global};
use std::net::{Ipv4Addr, SocketAddr};
use tab_call::Registry;
use tick_wheel::Wheel;

/// How many octets are carried at once: messages are cut.
const PIECE: usize = 17;

/// A node and its desks.
#[derive(Drop)]
pub struct Side {
    pub live: LiveNode,
    pub timers: Wheel,
    pub desks: Vec<Desk>,
}

// The desks of a node.
fn desks_of(
    alloc: Global,
    core: &Core,
    node: &NodeConfig,
    patience: u64,
) -> Result<Vec<Desk>, AllocError> {
    let mut desks = Vec::new(alloc);
    for (number, desk) in node.desks.as_slice().iter().enumerate() {
        let lines = desk.lines.as_slice();
        let number = number.min(u32::MAX as usize) as u32;
        match Desk::new(alloc, core, number, lines, desk.repeat, patience) {
            Ok(desk) => desks.push(desk)?,
            Err(_) => return Err(AllocError),
        }
    }
    Ok(desks)
}

/// A node of a CONFIG, whose peer is dialled at an address, if at one.
pub fn opened(
    alloc: Global,
    registries: &[Registry],
    setup: Setup,
    address: Option<SocketAddr>,
    patience: u64,
) -> Result<Side, AllocError>
    requires { Each (λ r. r.book ≡ all_laws) registries.now }
{
    let Setup { node, bench } = setup;
    let Ok(core) = open_bench(alloc, bench, registries) else {
        return Err(AllocError);
    };
    let desks = desks_of(alloc, &core, &node, patience)?;
    let mut peers = Vec::new(alloc);
    let machine = 0;
    peers.push(PeerAddress { machine, address })?;
    let live = LiveNode::new(alloc, core, peers)?;
    Ok(Side {
        live,
        timers: Wheel::new(alloc),
        desks,
    })
}

// A desk tells.
fn tell(node: &mut LiveNode, desk: &mut Desk, registries: &[Registry]) -> Result<(), AllocError>
    requires { Each (λ r. r.book ≡ all_laws) registries.now }
{
    if registries.len() != node.core().shards() {
        return Err(AllocError);
    }
    node.tell(registries, desk)?;
    Ok(())
}

// The timers of a node that are due fire.
fn advance(
    node: &mut LiveNode,
    timers: &mut Wheel,
    registries: &[Registry],
    moment: u64,
) -> Result<(), AllocError>
    requires { Each (λ r. r.book ≡ all_laws) registries.now }
{
    if registries.len() != node.core().shards() {
        return Err(AllocError);
    }
    let due = timers.advance(moment)?;
    node.fire_all(registries, &due)
}

/// What a node does of itself at a moment.
fn stir(side: &mut Side, registries: &[Registry], moment: u64) -> Result<(), AllocError>
    requires { Each (λ r. r.book ≡ all_laws) registries.now }
{
    let Side {
        live,
        timers,
        desks,
    } = side;
    advance(live, timers, registries, moment)?;
    for desk in desks.iter_mut() {
        tell(live, desk, registries)?;
    }
    settle(live, timers, registries)
}

/// Carries what one node sent on line 1, and the other has not got, in small pieces. Says whether there was something.
fn carry(from: &LiveNode, to: &mut LiveNode, out: &mut usize) -> bool {
    let mut buffer = [0u8; PIECE];
    let mut moved = false;
    for _ in 0..1_000 {
        let count = from.unsent(1, *out, &mut buffer);
        if count == 0 || to.came(1, &buffer[..count]).is_err() {
            return moved;
        }
        *out = out.saturating_add(count);
        moved = true;
    }
    moved
}

/// How much of what each sent the other has got.
#[derive(Clone, Copy)]
struct Got {
    by_server: usize,
    by_client: usize,
}

// Carries and handles all that waits at both nodes, until nothing moves; a line that one closed is lost at the other.
fn carry_all(
    client: &mut Side,
    server: &mut Side,
    registries: &[Registry],
    got: &mut Got,
) -> Result<(), AllocError>
    requires { Each (λ r. r.book ≡ all_laws) registries.now }
{
    for _ in 0..100 {
        let there = carry(&client.live, &mut server.live, &mut got.by_server);
        settle(&mut server.live, &mut server.timers, registries)?;
        let back = carry(&server.live, &mut client.live, &mut got.by_client);
        settle(&mut client.live, &mut client.timers, registries)?;
        if !there && !back {
            break;
        }
    }
    if client.live.is_closed(1) && !server.live.is_closed(1) {
        let _ = server.live.lost(1);
        settle(&mut server.live, &mut server.timers, registries)?;
    }
    Ok(())
}

// Carries and handles all that waits at a node.
fn settle(
    node: &mut LiveNode,
    timers: &mut Wheel,
    registries: &[Registry],
) -> Result<(), AllocError>
    requires { Each (λ r. r.book ≡ all_laws) registries.now }
{
    if registries.len() != node.core().shards() {
        return Err(AllocError);
    }
    node.settle(registries, timers)?;
    Ok(())
}

// Makes the connection that the client dials.
fn connect(client: &mut LiveNode, server: &mut LiveNode) {
    if let Some(dial) = client.next_dial() {
        let _ = server.joined();
        let _ = client.dialled(dial.line);
    }
}

/// An address that is not dialled.
pub fn somewhere() -> SocketAddr {
    SocketAddr::from((Ipv4Addr::LOCALHOST, 3868))
}

/// A client's node and a server's are to make so many turns.
#[derive(Drop)]
pub struct Turns {
    pub alloc: Global,
    pub server: Setup,
    pub client: Setup,
    pub turns: u64,
    /// Whether what one sent is carried to the other in every second turn alone.
    pub is_slow: bool,
}

// A row for each turn.
fn turn_all(turns: Turns, registries: &[Registry]) -> Result<Vec<u8>, AllocError>
    requires { Each (λ r. r.book ≡ all_laws) registries.now }
{
    let Turns {
        alloc,
        server,
        client,
        turns,
        is_slow,
    } = turns;
    let mut server = opened(alloc, registries, server, None, 5)?;
    let mut client = opened(alloc, registries, client, Some(somewhere()), 5)?;
    let mut got = Got {
        by_server: 0,
        by_client: 0,
    };
    let mut rows = Vec::new(alloc);
    for turn in 0..turns {
        stir(&mut client, registries, 0)?;
        connect(&mut client.live, &mut server.live);
        settle(&mut client.live, &mut client.timers, registries)?;
        if !is_slow || turn % 2 == 1 {
            carry_all(&mut client, &mut server, registries, &mut got)?;
        }
        put_client(alloc, &mut rows, client.live.core())?;
        put_server(alloc, &mut rows, server.live.core())?;
    }
    Ok(rows)
}

impl WithCalls for Turns {
    type Answer = Vec<u8>;

    ghost fits = { λ _ laws. Each (λ l. l ≡ all_laws) laws };

    ghost answers = { λ _ _ _. Unit {0} };

    fn run(self, registries: Vec<Registry>) -> Result<Vec<u8>, AllocError> {
        turn_all(self, &registries)
    }
}

/// A client's node alone is to stand at these moments, one after the other.
#[derive(Drop)]
pub struct Alone {
    pub alloc: Global,
    pub client: Setup,
    pub address: Option<SocketAddr>,
    pub moments: [u64; 4],
}

// A row for each moment.
fn stand(alone: Alone, registries: &[Registry]) -> Result<Vec<u8>, AllocError>
    requires { Each (λ r. r.book ≡ all_laws) registries.now }
{
    let Alone {
        alloc,
        client,
        address,
        moments,
    } = alone;
    let mut client = opened(alloc, registries, client, address, 2)?;
    let mut rows = Vec::new(alloc);
    for moment in moments {
        stir(&mut client, registries, moment)?;
        let _ = client.live.next_dial();
        settle(&mut client.live, &mut client.timers, registries)?;
        put_client(alloc, &mut rows, client.live.core())?;
        rows.extend_from_slice(b"\n")?;
    }
    Ok(rows)
}

impl WithCalls for Alone {
    type Answer = Vec<u8>;

    ghost fits = { λ _ laws. Each (λ l. l ≡ all_laws) laws };

    ghost answers = { λ _ _ _. Unit {0} };

    fn run(self, registries: Vec<Registry>) -> Result<Vec<u8>, AllocError> {
        stand(self, &registries)
    }
}
