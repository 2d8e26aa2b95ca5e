//! What is tried: a bench is started, something is done with it, and its parts are gathered and looked at.

use crate::bench::{ended, started};
use crate::{held, met, turns};
use bench_core::Core;
use bench_live::{Live, LiveDesk, Parts};
use bench_open::Config;
use std::alloc::Global;
use std::sync::{Arc, Wait};
use std::test::Fail;
use std::thread::Threads;
use std::time::Clock;
use tab_call::Registry;
use tab_law::LawBook;
use thread_cases::{Held, Hold, config, right, world_of};

/// What is tried.
#[derive(Clone, Copy, PartialEq, Eq)]
pub enum Case {
    /// Two desks tell the peers of two shards to start, one worker held until the other handled an item.
    Other,
    /// The same, each worker held until the other handled an item.
    Both,
    /// A desk tells a session of a paused shard to begin.
    Paused,
    /// Two desks tell one peer many events at once.
    Crowd,
    /// Two desks tell machines of two shards, which ask and answer each other.
    Crossing,
    /// A desk tells a peer, and again as soon as that was handled, while another looks at it.
    Turns,
    /// An item finds no room in a paused shard.
    Full,
}

impl Case {
    /// How many shards the bench has, each with a registry.
    pub fn shards(self) -> usize {
        match self {
            Case::Paused => 1,
            _ => 2,
        }
    }

    /// What holds workers.
    fn held(self) -> Held {
        match self {
            Case::Other => Held::UntilOther,
            Case::Both => Held::UntilBoth,
            Case::Paused => Held::UntilLetGo,
            Case::Turns => Held::UntilTold,
            _ => Held::Nobody,
        }
    }

    /// A node of two peers; of one alone, the first machine of the second shard, where sessions ask it.
    fn config(self, alloc: Global) -> Result<Config, Fail> {
        let shards = self.shards() as u64;
        match self {
            Case::Full | Case::Crossing => config(alloc, "n.example", &["a.example"], shards),
            _ => config(alloc, "n.example", &["a.example", "b.example"], shards),
        }
    }
}

/// Does with a running bench what the case is.
fn act<R: Threads + Wait + Clock + Copy + Drop + Send + Sync + 'static>(
    rt: &R,
    alloc: Global,
    laws: &LawBook,
    case: Case,
    gate: &Hold<R>,
    live: &Live,
    desks: &mut [LiveDesk],
) -> Result<(), Fail> {
    match case {
        Case::Other | Case::Both => held::tell_two(rt, alloc, laws, live, desks),
        Case::Paused => held::tell_paused(rt, alloc, laws, live, desks),
        Case::Crowd => met::tell_at_once(rt, alloc, laws, gate, desks),
        Case::Crossing => met::tell_crossing(rt, alloc, laws, gate, desks),
        Case::Turns => turns::tell_in_turns(rt, alloc, laws, gate, desks),
        Case::Full => turns::tell_full(rt, alloc, laws, live, desks),
    }
}

/// Whether what was gathered is what the case comes to.
fn judge(
    alloc: Global,
    laws: &LawBook,
    case: Case,
    parts: &Parts,
    core: &Core,
) -> Result<(), Fail> {
    match case {
        Case::Other | Case::Both => held::are_two(alloc, parts, core),
        Case::Paused => held::is_one(alloc, parts, core),
        Case::Crowd => met::are_many(core),
        Case::Crossing => met::are_crossing(alloc, laws, core),
        Case::Turns => turns::are_turns(core),
        Case::Full => turns::are_full(alloc, laws, core),
    }
}

/// Gathers the parts of a bench, and looks at what that gives.
pub fn judge_parts(alloc: Global, laws: &LawBook, case: Case, parts: &Parts) -> Result<(), Fail> {
    let core = world_of(alloc, case.config(alloc)?, parts)?;
    judge(alloc, laws, case, parts, &core)
}

/// Starts a bench, does with it what the case is, and ends it.
fn run_bench<R: Threads + Wait + Clock + Copy + Drop + Send + Sync + 'static>(
    rt: &R,
    alloc: Global,
    laws: &LawBook,
    registries: Vec<Registry>,
    case: Case,
    gate: &Arc<Hold<R>, Global>,
) -> Result<Parts, Fail> {
    let (live, desks) = started(rt, alloc, case.config(alloc)?, registries, gate)?;
    let (live, mut desks) = (live, desks);
    act(rt, alloc, laws, case, gate, &live, &mut desks)?;
    gate.let_go();
    ended(rt, live, desks)
}

/// Tries a case with a registry for each shard, and hands over the parts of its bench.
pub fn run_case<R: Threads + Wait + Clock + Copy + Drop + Send + Sync + 'static>(
    rt: &R,
    alloc: Global,
    laws: &LawBook,
    registries: Vec<Registry>,
    case: Case,
) -> Result<Parts, Fail> {
    let gate = Arc::new(alloc, Hold::new(*rt, case.held()))?;
    let parts = run_bench(rt, alloc, laws, registries, case, &gate)?;
    right(!gate.was_late(), "no worker waited in vain")?;
    Ok(parts)
}
