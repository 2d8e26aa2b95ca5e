//! What is tried: a bench is started, something is done with it, and its parts are gathered and looked at.

use crate::bench::{ended, started};
use crate::{fed, served};
use bench_core::Core;
use bench_live::{Live, LiveDesk, Parts};
use bench_open::Config;
use std::alloc::Global;
use std::sync::{Arc, Wait};
use std::test::Fail;
use std::thread::Threads;
use std::time::Clock;
use tab_call::Registry;
use tab_law::LawBook;
use thread_cases::{Held, Hold, config, right, world_of};

/// How many shards the bench has.
const SHARDS: usize = 2;

/// What is tried.
#[derive(Clone, Copy, PartialEq, Eq)]
pub enum Case {
    /// A connection is accepted, and lost after half a message.
    Fed,
    /// Two clients charge an account of a server.
    Charged,
    /// A connection of a client is lost after half a request.
    CutShort,
}

impl Case {
    /// How many registries it wants: one for each shard, and one for each client.
    pub fn registries(self) -> usize {
        match self {
            Case::Fed => SHARDS,
            Case::CutShort => SHARDS + 1,
            Case::Charged => SHARDS + 2,
        }
    }

    /// What holds workers.
    fn held(self) -> Held {
        match self {
            Case::Charged => Held::UntilOther,
            Case::Fed | Case::CutShort => Held::Nobody,
        }
    }
}

/// The bench: a server of two clients.
fn server(alloc: Global) -> Result<Config, Fail> {
    config(
        alloc,
        "s.example",
        &["c.example", "e.example"],
        SHARDS as u64,
    )
}

/// The last of these registries, of which one for each shard stays.
fn spare_of(alloc: Global, registries: &mut Vec<Registry>) -> Result<Vec<Registry>, Fail> {
    let mut spare = Vec::new(alloc);
    let count = registries.len().saturating_sub(SHARDS);
    for _one in 0..count {
        if let Some(registry) = registries.pop() {
            spare.push(registry)?;
        }
    }
    Ok(spare)
}

/// Does with a running bench what the case is; what is spare is for clients.
fn act<R: Threads + Wait + Clock + Copy + Drop + Send + Sync + 'static>(
    rt: &R,
    alloc: Global,
    laws: &LawBook,
    case: Case,
    spare: Vec<Registry>,
    live: &mut Live,
    desks: &mut [LiveDesk],
) -> Result<(), Fail> {
    match case {
        Case::Fed => fed::feed_both(rt, alloc, live),
        Case::Charged => served::charge(rt, alloc, laws, spare, live),
        Case::CutShort => served::cut_short(rt, alloc, laws, spare, live, desks),
    }
}

/// Whether what was gathered is what the case comes to.
fn judge(
    alloc: Global,
    laws: &LawBook,
    case: Case,
    parts: &Parts,
    core: &Core,
) -> Result<(), Fail> {
    match case {
        Case::Fed => fed::is_fed(parts, core),
        Case::Charged => served::is_charged(core),
        Case::CutShort => served::is_cut_short(alloc, laws, core),
    }
}

/// Gathers the parts of a bench, and looks at what that gives.
pub fn judge_parts(alloc: Global, laws: &LawBook, case: Case, parts: &Parts) -> Result<(), Fail> {
    let core = world_of(alloc, server(alloc)?, parts)?;
    judge(alloc, laws, case, parts, &core)
}

/// Starts a bench, does with it what the case is, and ends it.
fn run_bench<R: Threads + Wait + Clock + Copy + Drop + Send + Sync + 'static>(
    rt: &R,
    alloc: Global,
    laws: &LawBook,
    registries: Vec<Registry>,
    case: Case,
    gate: &Arc<Hold<R>, Global>,
) -> Result<Parts, Fail> {
    let mut registries = registries;
    let spare = spare_of(alloc, &mut registries)?;
    let (live, desks) = started(rt, alloc, server(alloc)?, registries, gate)?;
    let (mut live, mut desks) = (live, desks);
    act(rt, alloc, laws, case, spare, &mut live, &mut desks)?;
    ended(rt, live, desks)
}

/// Tries a case with registries for its shards and its clients, and hands over the parts of its bench.
pub fn run_case<R: Threads + Wait + Clock + Copy + Drop + Send + Sync + 'static>(
    rt: &R,
    alloc: Global,
    laws: &LawBook,
    registries: Vec<Registry>,
    case: Case,
) -> Result<Parts, Fail> {
    let gate = Arc::new(alloc, Hold::new(*rt, case.held()))?;
    let parts = run_bench(rt, alloc, laws, registries, case, &gate)?;
    right(!gate.was_late(), "no worker waited in vain")?;
    Ok(parts)
}
