//! The bench is started.
ghost use Rattle.std.specs.Prelude.{◌≡◌, ◌<◌, ◌≤◌, [], None, IfErr, IfOk, length, map, vec_len};
ghost use Rattle.std.specs.Arc.{arc_value};
ghost use Rattle.bench_item.specs.declared.limit.TheConstants.{MAX_SHARDS};
ghost use Rattle.bench_open.specs.Given.{config_of};
ghost use Rattle.bench_spec.specs.Opening.{opening_refusal};
ghost use Rattle.bench_live.specs.Started.{IsStartFault, IsThreadFault, desks_at_start};
ghost use Rattle.live_open.specs.Opening.{Agree};

use crate::desk::LiveDesk;
use crate::fault::StartFault;
use crate::live::Live;
use crate::point::Gate;
use crate::shared::{ShardLock, Shared};
use crate::slot::Slot;
use crate::timers::run_timers;
use crate::worker::run_worker;
use acct_pages::Pages;
use bench_desk::{Desk, ShardPart};
use bench_open::Config;
use live_open::Opened;
use std::alloc::{AllocError, Global};
use std::sync::{Arc, Wait};
use std::thread;
use std::thread::{JoinHandle, Threads};
use std::time::Clock;
use tab_call::Registry;
use tab_step::Stepped;

/// A shard's part with its callbacks, which are of its laws, behind their lock.
fn lock_shard(alloc: Global, part: ShardPart, registry: Registry) -> Result<ShardLock, AllocError>
    requires { registry.book ≡ part.tables.laws }
{
    let room = Box::new(alloc, Stepped::new())?;
    Ok(ShardLock::new(Slot::new(alloc, part, registry, room)))
}

/// The shards, each with its callbacks, behind their locks.
fn lock_shards(
    alloc: Global,
    parts: Vec<ShardPart>,
    registries: Vec<Registry>,
) -> Result<Vec<ShardLock>, AllocError>
    requires { Agree parts.items (map (λ r. r.book) registries.items) }
    ensures { IfOk result (λ shards. vec_len shards ≡ length parts.items) }
{
    let mut left = parts;
    let mut calls = registries;
    let mut shards = Vec::new(alloc);
    'shards: while !left.is_empty() && !calls.is_empty() {
        let part = left.remove(0);
        let registry = calls.remove(0);
        shards.push(lock_shard(alloc, part, registry)?)?;
    }
    Ok(shards)
}

/// The parts of a bench, each behind its lock.
fn share(
    alloc: Global,
    opened: Opened,
    registries: Vec<Registry>,
) -> Result<Arc<Shared, Global>, AllocError>
    requires agree { Agree opened.shards.items (map (λ r. r.book) registries.items) }
    requires pages { 0 < vec_len opened.pages }
    ensures shards { IfOk result (λ shared. vec_len (arc_value shared).shards ≡ length opened.shards.items) }
    ensures pages { IfOk result (λ shared. (arc_value shared).pages ≡ vec_len opened.pages) }
{
    let Opened {
        shards,
        pages,
        lines,
        clock,
        desks: _,
    } = opened;
    let shards = lock_shards(alloc, shards, registries)?;
    let pages = Pages::keep(alloc, pages)?;
    let shared = Shared::new(alloc, shards, pages, lines, clock);
    Ok(Arc::new(alloc, shared)?)
}

/// The desks of a bench of so many shards.
fn open_desks(
    alloc: Global,
    shared: &Arc<Shared, Global>,
    count: u32,
    shards: usize,
) -> Result<Vec<LiveDesk>, AllocError>
    requires some { 0 < shards }
    requires few { shards ≤ MAX_SHARDS }
    ensures { IfOk result (λ desks. map (λ d. d.desk) desks.items ≡ desks_at_start count shards) }
{
    let mut desks = Vec::new(alloc);
    for number in 0..count {
        let shared = Arc::try_clone(shared)?;
        let desk = Desk::new(alloc, number, shards);
        desks.push(LiveDesk { desk, shared })?;
    }
    Ok(desks)
}

/// Starts the worker of a shard.
fn start_worker<
    R: Threads + Wait + Clock + Copy + Send + 'static,
    G: Gate + Drop + Send + Sync + 'static,
>(
    rt: &R,
    shared: &Arc<Shared, Global>,
    gate: &Arc<G, Global>,
    number: u32,
) -> Result<JoinHandle<()>, StartFault>
    ensures { IfErr result IsThreadFault }
{
    let theirs = Arc::try_clone(shared)?;
    let own_gate = Arc::try_clone(gate)?;
    let own_rt = *rt;
    match thread::spawn(rt, move || {
        run_worker(&own_rt, &*theirs, &*own_gate, number)
    }) {
        Ok(handle) => Ok(handle),
        Err(_) => Err(StartFault::NoThread),
    }
}

/// Starts the timers' thread.
fn start_timers<R: Threads + Wait + Clock + Copy + Send + 'static>(
    rt: &R,
    shared: &Arc<Shared, Global>,
) -> Result<JoinHandle<()>, StartFault>
    ensures { IfErr result IsThreadFault }
{
    let theirs = Arc::try_clone(shared)?;
    let own_rt = *rt;
    match thread::spawn(rt, move || run_timers(&own_rt, &*theirs)) {
        Ok(handle) => Ok(handle),
        Err(_) => Err(StartFault::NoThread),
    }
}

/// Starts a worker for each of so many shards, and the timers' thread. Those that were started stand in the list, also
/// where one can't be.
fn start_threads<
    R: Threads + Wait + Clock + Copy + Send + 'static,
    G: Gate + Drop + Send + Sync + 'static,
>(
    rt: &R,
    shared: &Arc<Shared, Global>,
    gate: &Arc<G, Global>,
    threads: &mut Vec<JoinHandle<()>>,
    shards: u32,
) -> Result<(), StartFault>
    ensures { IfErr result IsThreadFault }
{
    threads.reserve((shards as usize).saturating_add(1))?;
    for number in 0..shards {
        threads.push(start_worker(rt, shared, gate, number)?)?;
    }
    threads.push(start_timers(rt, shared)?)?;
    Ok(())
}

/// Joins threads.
pub(crate) fn join_all<R: Threads>(rt: &R, threads: Vec<JoinHandle<()>>) {
    for handle in threads {
        handle.join(rt);
    }
}

/// Starts a bench of parts that were opened, with a registry for each shard, whose laws these have. Refused for memory,
/// and where a thread can't be made; threads that were started have ended then.
fn start_opened<
    R: Threads + Wait + Clock + Copy + Send + 'static,
    G: Gate + Drop + Send + Sync + 'static,
>(
    rt: &R,
    alloc: Global,
    opened: Opened,
    registries: Vec<Registry>,
    gate: &Arc<G, Global>,
) -> Result<(Live, Vec<LiveDesk>), StartFault>
    requires agree { Agree opened.shards.items (map (λ r. r.book) registries.items) }
    requires pages { 0 < vec_len opened.pages }
    requires some { 0 < vec_len opened.shards }
    requires few { vec_len opened.shards ≤ MAX_SHARDS }
    ensures desks { IfOk result (λ r. map (λ d. d.desk) r.1.items
        ≡ desks_at_start opened.desks (vec_len opened.shards)) }
    ensures count { IfOk result (λ r. r.0.desks ≡ opened.desks) }
    ensures shards { IfOk result (λ r. vec_len (arc_value r.0.shared).shards ≡ vec_len opened.shards) }
    ensures pages { IfOk result (λ r. (arc_value r.0.shared).pages ≡ vec_len opened.pages) }
    ensures fed { IfOk result (λ r. r.0.fed.items ≡ []) }
    ensures fault { IfErr result IsThreadFault }
{
    let count = opened.desks;
    let shards = opened.shards.len();
    let shared = share(alloc, opened, registries)?;
    let desks = open_desks(alloc, &shared, count, shards)?;
    let mut threads = Vec::new(alloc);
    if let Err(fault) = start_threads(rt, &shared, gate, &mut threads, shards as u32) {
        shared.say_all(rt, true);
        join_all(rt, threads);
        return Err(fault);
    }
    let live = Live {
        alloc,
        shared,
        threads,
        desks: count,
        hands: Vec::new(alloc),
        patient: true,
        fed: Vec::new(alloc),
    };
    Ok((live, desks))
}

impl Live {
    /// Starts a bench of a configuration, with a registry for each shard: a worker for each shard, and a thread for the
    /// timers. Answers its desks too, by their numbers. Refused as where a world is opened, for memory, and where a
    /// thread can't be made; threads that were started have ended then.
    pub fn start<
        R: Threads + Wait + Clock + Copy + Send + 'static,
        G: Gate + Drop + Send + Sync + 'static,
    >(
        rt: &R,
        alloc: Global,
        config: Config,
        registries: Vec<Registry>,
        gate: &Arc<G, Global>,
    ) -> Result<(Live, Vec<LiveDesk>), StartFault>
        ensures could { IfOk result (λ r.
            opening_refusal (config_of config (map (λ r. r.book) registries.items)) ≡ None) }
        ensures desks { IfOk result (λ r. map (λ d. d.desk) r.1.items ≡ desks_at_start config.desks config.shards) }
        ensures each { IfOk result (λ r. vec_len r.1 ≡ config.desks) }
        ensures count { IfOk result (λ r. r.0.desks ≡ config.desks) }
        ensures shards { IfOk result (λ r. vec_len (arc_value r.0.shared).shards ≡ config.shards) }
        ensures pages { IfOk result (λ r. (arc_value r.0.shared).pages ≡ config.pages) }
        ensures fed { IfOk result (λ r. r.0.fed.items ≡ []) }
        ensures fault { IfErr result (IsStartFault (config_of config (map (λ r. r.book) registries.items))) }
    {
        let opened = match Opened::new(alloc, config, &registries) {
            Ok(opened) => opened,
            Err(error) => return Err(StartFault::Opening(error)),
        };
        match start_opened(rt, alloc, opened, registries, gate) {
            Ok(started) => Ok(started),
            Err(fault) => Err(fault),
        }
    }
}
