//! The bench of a node, which was started, becomes its own.
ghost use Rattle.std.specs.Prelude.{◌≡◌, ◌≤◌, [], OnErr, OnOk, false, true, vec_capacity, vec_len};

use crate::node::{Teller, ThreadNode};
use bench_live::InThreads;
use live_desk::Desk;
use std::alloc::AllocError;

/// The desks of a bench with the texts that they tell, one for each.
fn tellers_of<D: Drop>(own: Vec<D>, texts: Vec<Desk>, room: Vec<Teller<D>>) -> Vec<Teller<D>>
    requires empty { room.items ≡ [] }
    requires room { vec_len own ≤ vec_capacity room }
{
    let mut tellers = room;
    let mut left = texts.into_iter();
    for own in own {
        if let Some(texts) = left.next() {
            tellers.push(Teller { texts, own }).unwrap();
        }
    }
    tellers
}

impl<R: Copy, B: InThreads<R>> ThreadNode<R, B> {
    /// A bench that was started as its world was opened is its own from now on, with these desks, each of which tells
    /// the texts at its place. Where memory is refused the bench ends, and the node has none.
    pub fn start(&mut self, bench: B, own: Vec<B::Desk>, desks: Vec<Desk>) -> Result<(), AllocError>
        requires once { self.old.started ≡ false }
        requires opening { self.old.run.log ≡ [] }
        ensures ok { OnOk result (self.new ≡ record self.old { started = true; fed = B.fed bench }) }
        ensures err { OnErr result (self.new ≡ self.old) }
    {
        let Ok(room) = Vec::with_capacity(self.alloc, own.len()) else {
            let _logged = bench.end(&self.rt, own);
            return Err(AllocError);
        };
        self.tellers = tellers_of(own, desks, room);
        self.bench = Some(bench);
        Ok(())
    }
}
