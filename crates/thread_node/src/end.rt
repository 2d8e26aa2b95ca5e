//! The bench ends, and its parts are gathered.
#![tactic(auto, using(crate::proofs::EndLemmas::ending))]

ghost use Rattle.std.specs.Prelude.{◌≡◌, [], false, vec_len};
ghost use Rattle.bench_gather.specs.Gathered.{Gathers};
ghost use Rattle.thread_node.specs.Ended.{Ends, HasGatheredOn, handed_by};

use crate::node::{Teller, ThreadNode};
use bench_core::Core;
use bench_gather::{GatherFault, gather};
use bench_live::{InThreads, Logged};
use std::alloc::{AllocError, Global};
use tab_step::Stepped;

/// Gathers what was logged on a world at its opening, which has as many pages.
fn gathered_on(alloc: Global, core: &mut Core, logged: &Logged) -> Result<(), GatherFault>
    requires opening { core.old.log ≡ [] }
    requires pages { vec_len logged.now.pages ≡ core.old.settings.pages }
    ensures { Gathers core.old core.new (handed_by logged.now) result }
{
    let Ok(mut room) = Box::new(alloc, Stepped::new()) else {
        return Err(GatherFault::NoMemory);
    };
    let Ok(lent) = logged.lent(alloc) else {
        return Err(GatherFault::NoMemory);
    };
    // There is a shard and a page at least, and not too many shards.
    let (_shards, _pages) = (core.shards(), core.pages());
    gather(alloc, core, &lent, &logged.fed, &logged.pages, &mut room)
}

/// The same on a world that may have another number of pages.
fn gathered(alloc: Global, core: &mut Core, logged: &Logged) -> Result<(), GatherFault>
    requires { core.old.log ≡ [] }
    ensures { HasGatheredOn core.old core.new logged.now result }
{
    if logged.pages.len() as u64 != core.pages() {
        return Err(GatherFault::Disagree(0));
    }
    gathered_on(alloc, core, logged)
}

/// The desks of a bench, without their texts.
fn desks_of<D: Drop>(alloc: Global, tellers: Vec<Teller<D>>) -> Result<Vec<D>, AllocError> {
    let mut desks = Vec::with_capacity(alloc, tellers.len())?;
    for Teller { texts: _, own } in tellers {
        desks.push(own)?;
    }
    Ok(desks)
}

impl<R: Copy, B: InThreads<R>> ThreadNode<R, B> {
    /// Ends its bench, if it was started, and gathers its parts: its world is then that of what was done. Else it is
    /// told why there is no such world.
    pub fn end(&mut self) -> Result<(), GatherFault>
        ensures ends { Ends self.old self.new.run result }
        ensures over { self.new.started ≡ false }
    {
        let Some(bench) = self.bench.take() else {
            return Ok(());
        };
        let tellers = std::mem::replace(&mut self.tellers, Vec::new(self.alloc));
        let Ok(desks) = desks_of(self.alloc, tellers) else {
            return Err(GatherFault::NoMemory);
        };
        match bench.end(&self.rt, desks) {
            None => Err(GatherFault::NoMemory),
            Some(logged) => gathered(self.alloc, &mut self.core, &logged),
        }
    }
}
