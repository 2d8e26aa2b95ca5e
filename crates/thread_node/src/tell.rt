//! Desks tell.
#![tactic(auto, using(crate::proofs::GoingLemmas::going, crate::proofs::DoingLemmas::doing, crate::proofs::TellLemmas::staying))]

ghost use Rattle.std.specs.Prelude.{◌≡◌, IfOk, IfSome};
ghost use Rattle.thread_node.specs.Nodes.{Does, Goes};
ghost use Rattle.thread_node.specs.Told.{Tells};

use crate::board::Board;
use crate::node::{Teller, ThreadNode};
use bench_core::Core;
use bench_desk::DeskFault;
use bench_item::{MAX_ENTRIES, Step};
use bench_live::InThreads;
use bench_node::KEPT_FREE;
use std::alloc::{AllocError, Global};

/// Where the machines stand by which the time of a desk's next text is told, each looked at under its shard's lock;
/// none where something that the desk told waits there.
fn board_of<'a, R, B: InThreads<R>>(
    rt: &R,
    alloc: Global,
    core: &'a Core,
    bench: &B,
    teller: &Teller<B::Desk>,
) -> Result<Option<Board<'a>>, AllocError>
    ensures { IfOk result (λ board. IfSome board (λ b. b.core.now ≡ core.now)) }
{
    let mut board = Board::new(alloc, core);
    'keys: for key in teller.texts.keys(alloc, core.laws())? {
        if bench.has_waiting(rt, &teller.own, &key) {
            return Ok(None);
        }
        if let Some(state) = bench.state_of(rt, &key) {
            board.put(key, state)?;
        }
    }
    Ok(Some(board))
}

/// A desk tells its next text, where its time has come: one that there is no room for stays the next, one that can't be
/// told is passed over. Says whether the desk went on.
fn tell<R, B: InThreads<R>>(
    rt: &R,
    alloc: Global,
    core: &Core,
    bench: &B,
    teller: &mut Teller<B::Desk>,
) -> Result<bool, AllocError>
    ensures { IfOk result (Tells core.now.settings teller.old.texts teller.new.texts) }
{
    let Some(board) = board_of(rt, alloc, core, bench, teller)? else {
        return Ok(false);
    };
    let Some(
        Step::Told {
            desk: _,
            key,
            event,
        },
    ) = teller.texts.due(alloc, &board)?
    else {
        return Ok(false);
    };
    match B::tell(rt, &mut teller.own, &key, &event) {
        Err(DeskFault::Full) => Ok(false),
        Err(DeskFault::NoMemory) => Err(AllocError),
        Ok(()) | Err(_) => {
            teller.texts.go_on();
            Ok(true)
        }
    }
}

impl<R: Copy, B: InThreads<R>> ThreadNode<R, B> {
    /// Whether the parts of its bench have more entries than so many, at most: three for each event that a desk told.
    /// They are counted, under all locks, only where so many stamps were drawn.
    pub(crate) fn is_past(&self, count: usize) -> bool {
        match &self.bench {
            None => false,
            Some(bench) => {
                let own = self.told.saturating_mul(3);
                bench.drawn() > count as u64 && bench.entries(&self.rt).saturating_add(own) > count
            }
        }
    }

    // The desk at a place tells its next text, where its time has come. Says whether it went on. No log holds more than
    // so many.
    fn tell_at(&mut self, place: usize) -> Result<bool, AllocError>
        ensures goes { Goes self.old self.new }
        ensures done { IfOk result (λ done. Does self.old self.new done) }
    {
        if self.told >= MAX_ENTRIES {
            return Ok(false);
        }
        let (Some(bench), Some(teller)) = (&self.bench, self.tellers.get_mut(place)) else {
            return Ok(false);
        };
        let told = tell(&self.rt, self.alloc, &self.core, bench, teller)?;
        if told {
            self.told += 1;
        }
        Ok(told)
    }

    /// Each desk tells its next text, where its time has come; none where the parts are nearly full. Says whether one
    /// did.
    pub(crate) fn tell_all(&mut self) -> Result<bool, AllocError>
        ensures goes { Goes self.old self.new }
        ensures done { IfOk result (λ done. Does self.old self.new done) }
    {
        if self.tellers.is_empty() || self.is_past(MAX_ENTRIES - KEPT_FREE) {
            return Ok(false);
        }
        let mut told = false;
        'desks: for place in 0..self.tellers.len() {
            told |= self.tell_at(place)?;
        }
        Ok(told)
    }
}
