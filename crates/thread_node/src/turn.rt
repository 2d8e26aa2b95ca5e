//! All that a node does of itself.
#![tactic(auto, using(crate::proofs::GoingLemmas::going, crate::proofs::DoingLemmas::doing))]

ghost use Rattle.std.specs.Prelude.{IfOk};
ghost use Rattle.thread_node.specs.Nodes.{Does, Goes};

use crate::node::ThreadNode;
use bench_live::InThreads;
use std::alloc::AllocError;

impl<R: Copy, B: InThreads<R>> ThreadNode<R, B> {
    /// What it does of itself: desks tell, what connections put out is carried, and what they sent is drawn. Says
    /// whether something was done. Want of memory ends it; what was done until then stays.
    pub fn turn(&mut self) -> Result<bool, AllocError>
        ensures goes { Goes self.old self.new }
        ensures done { IfOk result (λ done. Does self.old self.new done) }
    {
        let told = self.tell_all()?;
        let carried = self.carry_lines();
        let drawn = self.draw_all()?;
        Ok(told | carried | drawn)
    }
}
