//! The loop of a node whose shards run in threads: desks, connections, sockets.
#![tactic(auto, using(thread_node::proofs::GoingLemmas::going, thread_node::proofs::DoingLemmas::doing, crate::proofs::LifeLemmas::living))]

ghost use Rattle.std.specs.Prelude.{◌≡◌, [], IfOk, IfSome, None, length};
ghost use Rattle.live_threads.specs.Lives.{fault_before, not_gathered, not_started, threads_of};
ghost use Rattle.thread_node.specs.Nodes.{Does, Goes};

use bench_core::Core;
use bench_gather::GatherFault;
use bench_live::{InThreads, Live, StartFault};
use bench_node::PeerAddress;
use bench_open::Config;
use bench_spec::OpeningError;
use live_desk::Desk;
use live_report::LifeFault;
use live_turns::{Lived, Living, SECOND, WAIT, micros_since, registry_count};
use net_sockets::{Bare, Node, Sockets};
use role_tables::all_laws;
use std::alloc::{AllocError, Global};
use std::net::Net;
use std::rt::Clock;
use std::sync::{Arc, Wait};
use std::thread::Threads;
use std::time::{Duration, Instant};
use tab_call::{Ask, Calls, Do, Registry, StoredAct, StoredGuard};
use tab_law::{Acted, LawBook, Scene, high_into, holds};
use tab_role::TakesRoles;
use thread_node::{ThreadNode, Wakes};

/// Why a bench is not started. What its world was opened with can be opened again.
fn not_started(fault: StartFault) -> LifeFault
    ensures { result ≡ not_started fault }
{
    match fault {
        StartFault::NoThread => LifeFault::NoThread,
        StartFault::Opening(OpeningError::NoMemory) => LifeFault::NoMemory,
        StartFault::Opening(_) => LifeFault::Disagreed,
    }
}

/// Why a bench has no log.
fn not_gathered(fault: GatherFault) -> LifeFault
    ensures { result ≡ not_gathered fault }
{
    match fault {
        GatherFault::NoMemory => LifeFault::NoMemory,
        GatherFault::Full | GatherFault::Disagree(_) => LifeFault::Disagreed,
    }
}

/// What wakes the sockets of a node.
fn wakes_of(alloc: Global, bare: &Bare) -> Result<Arc<Wakes, Global>, LifeFault> {
    let waker = bare.waker()?;
    match Arc::new(alloc, Wakes::new(waker)) {
        Ok(wakes) => Ok(wakes),
        Err(_) => Err(LifeFault::NoMemory),
    }
}

/// How long a node lives.
#[derive(Clone, Copy)]
struct Span {
    turns: u64,
    seconds: u64,
}

/// What a node does of itself, in its turn. Says whether something was: where nothing is, a worker that sends wakes the
/// sockets from then on.
fn moves<R: Copy, B: InThreads<R>>(
    node: &mut ThreadNode<R, B>,
    wakes: &Wakes,
) -> Result<bool, AllocError>
    ensures goes { Goes node.old node.new }
    ensures done { IfOk result (λ done. Does node.old node.new done) }
{
    if node.turn()? {
        return Ok(true);
    }
    wakes.wait();
    node.turn()
}

/// Makes the turns of a node.
fn turn_all<R: Net + Clock + Copy, B: InThreads<R>>(
    rt: &R,
    sockets: &mut Sockets<ThreadNode<R, B>>,
    wakes: &Wakes,
    span: Span,
) -> Result<(), LifeFault>
    ensures { sockets.new.port.node.run ≡ sockets.old.port.node.run }
{
    let Ok(start) = Instant::now(rt) else {
        return Err(LifeFault::NoSocket);
    };
    let mut moment = 0;
    for _ in 0..span.turns {
        moment = micros_since(rt, &start, moment);
        let moved = moves(&mut sockets.port.node, wakes)?;
        if moment / SECOND >= span.seconds || sockets.node().is_over() {
            return Ok(());
        }
        let wait = if moved { 0 } else { WAIT };
        sockets.turn(rt, Duration::from_millis(wait))?;
    }
    sockets.port.node.turn()?;
    Ok(())
}

/// A node whose bench is to be started.
#[derive(Drop)]
struct Waiting {
    core: Core,
    peers: Vec<PeerAddress>,
    bare: Bare,
    desks: Vec<Desk>,
    span: Span,
    wakes: Arc<Wakes, Global>,
}

/// A node of a bench that was started, with the desks that it has.
fn node_of<R: Copy, B: InThreads<R>>(
    rt: &R,
    alloc: Global,
    core: Core,
    peers: Vec<PeerAddress>,
    bench: B,
    own: Vec<B::Desk>,
    desks: Vec<Desk>,
) -> Result<ThreadNode<R, B>, AllocError>
    requires { core.log ≡ [] }
    ensures { IfOk result (λ node. node.run ≡ core) }
{
    match ThreadNode::new(rt, alloc, core, peers) {
        Ok(node) => {
            let mut node = node;
            node.start(bench, own, desks)?;
            Ok(node)
        }
        Err(AllocError) => {
            let _logged = bench.end(rt, own);
            Err(AllocError)
        }
    }
}

/// A node whose bench was started lives; at its end what its threads logged is gathered to its world.
fn live_started<R: Net + Clock + Copy, B: InThreads<R>>(
    rt: &R,
    alloc: Global,
    waiting: Waiting,
    bench: B,
    own: Vec<B::Desk>,
) -> Result<Lived, AllocError>
    requires { waiting.core.log ≡ [] }
    ensures { IfOk result (λ lived. lived.core.settings ≡ waiting.core.settings) }
{
    let Waiting {
        core,
        peers,
        bare,
        desks,
        span,
        wakes,
    } = waiting;
    let node = node_of(rt, alloc, core, peers, bench, own, desks)?;
    let mut sockets = bare.with(node);
    let lived = turn_all(rt, &mut sockets, &*wakes, span).err();
    let ended = sockets.port.node.end();
    let (node, bare) = sockets.apart();
    let (core, _peers) = node.into_parts();
    let fault = match ended {
        Ok(()) => lived,
        Err(fault) => Some(not_gathered(fault)),
    };
    Ok(Lived { core, fault, bare })
}

/// A node of a world, of which is known why its bench can't be started; at its opening it is to be.
fn fault_before(core: &Core, config: &Config, desks: &[Desk]) -> Option<LifeFault>
    ensures is { result ≡ fault_before core.now config.now (length desks.now) }
    ensures opening { result ≡ None → core.now.log ≡ [] }
{
    if core.place() != 0 || config.desks != desks.len() as u64 {
        return Some(LifeFault::Disagreed);
    }
    None
}

/// The bench of a node is started, and the node lives.
fn start_and_live<R: Net + Threads + Wait + Clock + Copy + Send + 'static>(
    rt: &R,
    alloc: Global,
    waiting: Waiting,
    config: Config,
    registries: Vec<Registry>,
) -> Result<Lived, AllocError>
    ensures { IfOk result (λ lived. lived.core.settings ≡ waiting.core.settings) }
{
    if let Some(fault) = fault_before(&waiting.core, &config, &waiting.desks) {
        let Waiting { core, bare, .. } = waiting;
        return Ok(Lived {
            core,
            fault: Some(fault),
            bare,
        });
    }
    match Live::start(rt, alloc, config, registries, &waiting.wakes) {
        Ok((bench, own)) => live_started(rt, alloc, waiting, bench, own),
        Err(fault) => {
            let Waiting { core, bare, .. } = waiting;
            Ok(Lived {
                core,
                fault: Some(not_started(fault)),
                bare,
            })
        }
    }
}

/// Makes the turns of a node whose shards run in threads, with a registry for each. One of one thread makes none.
fn live_with<R: Net + Threads + Wait + Clock + Copy + Send + 'static>(
    rt: &R,
    alloc: Global,
    living: Living,
    registries: Vec<Registry>,
) -> Result<Lived, AllocError>
    ensures { IfOk result (λ lived. lived.core.settings ≡ living.sockets.port.node.node.settings) }
{
    let Living {
        sockets,
        desks,
        shards: _,
        turns,
        seconds,
        watch: _,
        config,
    } = living;
    let (port, bare) = sockets.apart();
    let (core, peers) = port.into_node().into_parts();
    let Some(config) = config else {
        return Ok(Lived {
            core,
            fault: None,
            bare,
        });
    };
    let span = Span { turns, seconds };
    match wakes_of(alloc, &bare) {
        Ok(wakes) => {
            let waiting = Waiting {
                core,
                peers,
                bare,
                desks,
                span,
                wakes,
            };
            start_and_live(rt, alloc, waiting, config, registries)
        }
        Err(fault) => Ok(Lived {
            core,
            fault: Some(fault),
            bare,
        }),
    }
}

/// The same of one that is lent, with callbacks of its own, which answer by these laws.
fn live_by<R: Net + Threads + Wait + Clock + Copy + Send + 'static>(
    rt: &R,
    alloc: Global,
    laws: &LawBook,
    count: usize,
    living: &mut Option<Living>,
) -> Result<Lived, AllocError>
    ensures { IfOk result (λ lived. IfSome living.old (λ l.
        lived.core.settings ≡ l.sockets.port.node.node.settings)) }
{
    let mut registries = Vec::new(alloc);
    'registries: for _ in 0..count {
        let mut guards = Vec::new(alloc);
        for entry in laws.guards().as_slice() {
            let own = entry.value.copy(alloc)?;
            let ask: Ask = Box::new(alloc, move |scene: &Scene| holds(&own, scene))?;
            guards.push(StoredGuard::new(entry.value.copy(alloc)?, ask))?;
        }
        let mut acts = Vec::new(alloc);
        for entry in laws.acts().as_slice() {
            let own = entry.value.copy(alloc)?;
            let act: Do = Box::new(alloc, move |scene: &Scene, room: &mut Acted| {
                high_into(&own, scene, room);
            })?;
            acts.push(StoredAct::new(entry.value.copy(alloc)?, act))?;
        }
        let mut registry = Registry::new(alloc);
        // The callbacks are those of the laws, and the registry is empty, so what lacks is memory.
        if registry.register(laws, Calls { guards, acts }).is_err() {
            return Err(AllocError);
        }
        registries.push(registry)?;
    }
    match living.take() {
        Some(living) => live_with(rt, alloc, living, registries),
        None => Err(AllocError),
    }
}

/// How many shards of a node run in threads: none where it has one thread.
pub(crate) fn threads_of(living: &Living) -> usize
    ensures { result ≡ threads_of living.now.config }
{
    match &living.config {
        None => 0,
        Some(config) => registry_count(config.shards),
    }
}

/// Makes the turns of a node whose shards run in threads, with callbacks of its own, which answer by the laws of all
/// roles; at its end what the threads logged is gathered to its world, which is one of the same bench.
pub(crate) fn live_in_threads<R: Net + Threads + Wait + Clock + Copy + Send + 'static>(
    rt: &R,
    alloc: Global,
    living: Living,
) -> Result<Lived, AllocError>
    ensures { IfOk result (λ lived. lived.core.settings ≡ living.sockets.port.node.node.settings) }
{
    let laws = all_laws(alloc)?;
    let count = threads_of(&living);
    let mut lent = Some(living);
    live_by(rt, alloc, &laws, count, &mut lent)
}
