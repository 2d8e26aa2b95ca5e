//! The loop of a node: timers, desks, sockets.
#![tactic(auto, using(crate::proofs::LawLemmas::same_laws, bench_node::proofs::GoingLemmas::going, node_port::proofs::TurnLemmas::turned_goes))]

ghost use Rattle.std.specs.Prelude.{◌≡◌, ◌⊎◌, IfOk, OnOk, length, min};
ghost use Rattle.std.specs.List.{AllByRecursion as Each};
ghost use Rattle.bench_item.specs.declared.limit.TheConstants.{MAX_SHARDS};
ghost use Rattle.bench_node.specs.Going.{Goes};
ghost use Rattle.bench_node.specs.Settled.{IsFull, IsSettled};
ghost use Rattle.live_turns.specs.Watched.{HasLooked};
ghost use Rattle.role_tables.specs.Roles.{all_laws};

use crate::watch::{SECOND, Watch};
use bench_core::Core;
use bench_item::MAX_SHARDS;
use bench_node::LiveNode;
use bench_open::Config;
use bench_setup::{WithCalls, with_calls};
use live_desk::Desk;
use live_report::LifeFault;
use net_sockets::{Bare, Node, Sockets, SocketsFault};
use node_port::NodePort;
use std::alloc::{AllocError, Global};
use std::io::Write;
use std::net::Net;
use std::rt::Clock;
use std::time::{Duration, Instant};
use tab_call::Registry;
use tick_wheel::Wheel;

/// How long a turn waits at most where nothing is under way, in milliseconds.
pub const WAIT: u64 = 10;

/// A node with its sockets, and how long it lives.
#[derive(Drop)]
pub struct Living {
    pub sockets: Sockets<NodePort>,
    pub desks: Vec<Desk>,
    pub shards: u64,
    pub turns: u64,
    pub seconds: u64,
    pub watch: Option<Watch>,
    /// What a bench in threads is opened with, where the node's shards run in threads.
    pub config: Option<Config>,
}

/// How many microseconds went by; as many as before where the clock doesn't say.
pub fn micros_since<R: Clock>(rt: &R, start: &Instant, before: u64) -> u64 {
    match start.elapsed(rt) {
        Ok(time) => time.as_micros().min(u128::from(u64::MAX)) as u64,
        Err(_) => before,
    }
}

/// The desks of a node tell. Says whether one went on.
fn tell_all(
    node: &mut LiveNode,
    desks: &mut [Desk],
    registries: &[Registry],
) -> Result<bool, AllocError>
    requires laws { Each (λ r. r.book ≡ all_laws) registries.now }
    requires count { length registries.now ≡ node.old.settings.node.shards }
    ensures goes { Goes node.old node.new }
    ensures same { node.new.settings ≡ node.old.settings }
{
    let mut told = false;
    'desks: for place in 0..desks.len() {
        told |= node.tell(registries, &mut desks[place])?;
    }
    Ok(told)
}

/// What a node does of itself: due timers fire, desks tell, and all that waits is carried and handled. Says whether
/// something was.
fn stir(
    node: &mut LiveNode,
    timers: &mut Wheel,
    desks: &mut [Desk],
    registries: &[Registry],
    moment: u64,
) -> Result<bool, SocketsFault>
    requires { Each (λ r. r.book ≡ all_laws) registries.now }
    ensures goes { Goes node.old node.new }
    ensures settled { OnOk result (IsSettled node.new ⊎ IsFull node.new) }
{
    // There is one for each shard.
    if registries.len() != node.core().shards() {
        return Err(SocketsFault::Refused);
    }
    let due = timers.advance(moment)?;
    node.fire_all(registries, &due)?;
    let told = tell_all(node, desks, registries)?;
    let moved = node.settle(registries, timers)?;
    Ok(!due.is_empty() || told || moved)
}

/// Counts what was added to a log, where it is watched.
fn look(
    watch: &mut Option<Watch>,
    alloc: Global,
    core: &Core,
    moment: u64,
) -> Result<(), AllocError>
    ensures { OnOk result (HasLooked watch.old watch.new core.now moment) }
{
    match watch {
        Some(watch) => watch.look(alloc, core, moment),
        None => Ok(()),
    }
}

/// The same as of now, and tells the line of a second that went by, or the last; where it isn't watched, no clock is
/// asked.
fn tell<R: Clock, W: Write>(
    eye: &mut Eye<'_, R, W>,
    start: &Instant,
    watch: &mut Option<Watch>,
    core: &Core,
    moment: u64,
    is_last: bool,
) -> Result<(), AllocError> {
    let Some(watch) = watch else {
        return Ok(());
    };
    let now = micros_since(eye.rt, start, moment);
    watch.look(eye.alloc, core, now)?;
    if is_last || watch.is_due(now) {
        watch.tell(eye.alloc, core, now, &mut eye.terminal)?;
    }
    Ok(())
}

/// Who looks at a node: its system, its memory, and where lines are written.
#[derive(Drop)]
struct Eye<'a, R, W> {
    rt: &'a R,
    alloc: Global,
    terminal: W,
}

/// Makes the turns of a node.
fn turn_all<R: Net + Clock, W: Write>(
    eye: &mut Eye<'_, R, W>,
    living: &mut Living,
    registries: &[Registry],
) -> Result<(), SocketsFault>
    requires { Each (λ r. r.book ≡ all_laws) registries.now }
    ensures { Goes living.old.sockets.port.node.node living.new.sockets.port.node.node }
{
    let rt = eye.rt;
    let start = Instant::now(rt)?;
    let mut moment = 0;
    let mut timers = Wheel::new(eye.alloc);
    for _ in 0..living.turns {
        moment = micros_since(rt, &start, moment);
        let Living {
            sockets,
            desks,
            watch,
            ..
        } = living;
        look(watch, eye.alloc, sockets.port.node.node.core(), moment)?;
        let moved = stir(
            &mut sockets.port.node.node,
            &mut timers,
            desks,
            registries,
            moment / SECOND,
        )?;
        let is_last = moment / SECOND >= living.seconds || living.sockets.node().is_over();
        let Living { sockets, watch, .. } = living;
        tell(
            eye,
            &start,
            watch,
            sockets.port.node.node.core(),
            moment,
            is_last,
        )?;
        if is_last {
            return Ok(());
        }
        let wait = if moved { 0 } else { WAIT };
        living.sockets.turn(rt, Duration::from_millis(wait))?;
    }
    let Living {
        sockets,
        desks,
        watch,
        ..
    } = living;
    look(watch, eye.alloc, sockets.port.node.node.core(), moment)?;
    stir(
        &mut sockets.port.node.node,
        &mut timers,
        desks,
        registries,
        moment / SECOND,
    )?;
    tell(
        eye,
        &start,
        watch,
        sockets.port.node.node.core(),
        moment,
        true,
    )?;
    Ok(())
}

/// A node that lives.
#[derive(Drop)]
struct Life<'a, R, W> {
    eye: Eye<'a, R, W>,
    living: Living,
}

/// What became of a node: its world, and why it went no further.
#[derive(Drop)]
pub struct Lived {
    pub core: Core,
    pub fault: Option<LifeFault>,
    // Its sockets: they close once all nodes have ended.
    pub bare: Bare,
}

/// What became of a node that lived in one thread.
fn outcome(living: Living, fault: Option<LifeFault>) -> Lived
    ensures core { result.core ≡ living.sockets.port.node.node }
    ensures fault { result.fault ≡ fault }
{
    let (port, bare) = living.sockets.apart();
    let (core, _peers) = port.into_node().into_parts();
    Lived { core, fault, bare }
}

impl<R: Net + Clock, W: Write + Drop> WithCalls for Life<'_, R, W> {
    type Answer = Lived;

    ghost fits = { λ _ laws. Each (λ l. l ≡ all_laws) laws };

    ghost answers = { λ life _ lived. Goes life.living.sockets.port.node.node lived.core };

    fn run(self, registries: Vec<Registry>) -> Result<Lived, AllocError> {
        let Life {
            mut eye,
            mut living,
        } = self;
        match turn_all(&mut eye, &mut living, &registries) {
            Ok(()) => Ok(outcome(living, None)),
            Err(fault) => Ok(outcome(living, Some(LifeFault::from(fault)))),
        }
    }
}

/// How many registries a bench of so many shards wants.
pub fn registry_count(shards: u64) -> usize
    ensures { result ≡ min shards MAX_SHARDS }
{
    shards.min(MAX_SHARDS as u64) as usize
}

/// Makes the turns of a node in one thread, with callbacks of its own; where it is watched, its lines are written to
/// `terminal`. Its world is then what steps of its bench made of it, and nothing else did.
pub fn live_in_turns<R: Net + Clock, W: Write + Drop>(
    rt: &R,
    alloc: Global,
    terminal: W,
    living: Living,
) -> Result<Lived, AllocError>
    ensures { IfOk result (λ lived. Goes living.sockets.port.node.node lived.core) }
{
    let count = registry_count(living.shards);
    let eye = Eye {
        rt,
        alloc,
        terminal,
    };
    with_calls(alloc, count, Life { eye, living })
}
