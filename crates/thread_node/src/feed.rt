//! A step is fed to the bench of a node.
ghost use Rattle.std.specs.Prelude.{◌≡◌, ◌<◌, ◌≤◌, Err, IfOk, OnErr, OnOk, false};
ghost use Rattle.bench_item.specs.declared.limit.TheConstants.{MAX_LINES};
ghost use Rattle.bench_item.specs.declared.step.Step.TheVariants.{Joined};
ghost use Rattle.thread_node.specs.Nodes.{Feeds};

use crate::node::ThreadNode;
use bench_item::{Step, StepFault};
use bench_live::InThreads;

impl<R: Copy, B: InThreads<R>> ThreadNode<R, B> {
    /// Feeds a step of a connection to its bench, if it is started.
    pub(crate) fn feed(&mut self, step: Step) -> Result<(), StepFault>
        ensures ok { OnOk result (Feeds self.old step self.new) }
        ensures none { self.old.started ≡ false → result ≡ Err StepFault.Unknown }
        ensures err { OnErr result (self.new ≡ self.old) }
    {
        let rt = self.rt;
        match &mut self.bench {
            None => Err(StepFault::Unknown),
            Some(bench) => bench.feed(&rt, step),
        }
    }

    /// A connection is accepted by its bench, if it is started. Answers its number.
    pub(crate) fn join(&mut self) -> Result<u64, StepFault>
        ensures ok { OnOk result (Feeds self.old Joined self.new) }
        ensures number { IfOk result (λ line. (0 < line) × (line ≤ MAX_LINES)) }
        ensures none { self.old.started ≡ false → result ≡ Err StepFault.Unknown }
        ensures err { OnErr result (self.new ≡ self.old) }
    {
        let rt = self.rt;
        match &mut self.bench {
            None => Err(StepFault::Unknown),
            Some(bench) => bench.joined(&rt),
        }
    }

    /// Whether something happened on a connection, so that what it puts out is to be carried.
    pub(crate) fn set_touched(&mut self, line: u64, touched: bool)
        ensures { self.new ≡ self.old }
    {
        if let Some(own) = self.touched.get_mut(line as usize) {
            *own = touched;
        }
    }
}
