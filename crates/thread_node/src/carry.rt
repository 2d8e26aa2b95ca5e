//! What connections put out is carried.
#![tactic(auto, using(crate::proofs::DoingLemmas::doing))]

ghost use Rattle.std.specs.Prelude.{◌≡◌, is_ok, true};
ghost use Rattle.thread_node.specs.Nodes.{Does, is_carry};

use crate::node::ThreadNode;
use bench_item::{MAX_LINES, Source, Step, StepFault};
use bench_live::InThreads;

/// The most items of a connection that are carried before others come.
const MAX_CARRIES: usize = 4_096;

/// What is left at a connection.
#[derive(Clone, Copy)]
enum Left {
    Nothing,
    More,
    /// An item for which there is no room yet, or no memory.
    Stuck,
}

/// Whether a connection has nothing more to be carried, where a lift or a drop was refused: there is no room, or no
/// memory, else.
fn is_done(fault: StepFault) -> bool {
    matches!(fault, StepFault::Nothing | StepFault::Unknown)
}

/// What is left at a connection, by why a lift was refused there.
fn left_by(fault: StepFault) -> Left {
    if is_done(fault) {
        Left::Nothing
    } else {
        Left::Stuck
    }
}

impl<R: Copy, B: InThreads<R>> ThreadNode<R, B> {
    // Lifts or drops an item of a connection.
    fn carry(&mut self, step: Step) -> Result<(), StepFault>
        requires { is_carry step ≡ true }
        ensures { Does self.old self.new (is_ok result) }
    {
        self.feed(step)
    }

    // Drops what a connection lifted, and lifts what waits there. Says what is left, and whether it did either.
    fn carry_both(&mut self, line: u32) -> (Left, bool)
        ensures { Does self.old self.new result.1 }
    {
        let dropped = match self.carry(Step::Drop(Source::Line(line))) {
            Ok(()) => true,
            Err(fault) => {
                if !is_done(fault) {
                    return (Left::Stuck, false);
                }
                false
            }
        };
        match self.carry(Step::Lift(Source::Line(line))) {
            Ok(()) => (Left::More, true),
            Err(fault) => (left_by(fault), dropped),
        }
    }

    // Carries what a connection put out, as far as it can be. Says what is left, and whether something was carried.
    fn carry_line(&mut self, line: u32) -> (Left, bool)
        ensures { Does self.old self.new result.1 }
    {
        let mut carried = false;
        'items: for _ in 0..MAX_CARRIES {
            let (left, some) = self.carry_both(line);
            carried |= some;
            if !matches!(left, Left::More) {
                return (left, carried);
            }
        }
        (Left::More, carried)
    }

    // The same of one on which something happened, until nothing is left there. Says whether something was carried.
    fn carry_touched(&mut self, line: u32) -> bool
        ensures { Does self.old self.new result }
    {
        if !matches!(self.touched.get(line as usize), Some(true)) {
            return false;
        }
        let (left, carried) = self.carry_line(line);
        self.set_touched(u64::from(line), !matches!(left, Left::Nothing));
        carried
    }

    // The same of each of so many connections on which something happened.
    fn carry_each(&mut self, count: u32) -> bool
        ensures { Does self.old self.new result }
    {
        let mut carried = false;
        'lines: for line in 1..count.min(MAX_LINES as u32) + 1 {
            carried |= self.carry_touched(line);
        }
        carried
    }

    // The same where nothing was carried before.
    fn carry_rest(&mut self, count: u32, carried: bool) -> bool
        ensures { Does self.old self.new result }
    {
        if carried {
            return false;
        }
        self.carry_each(count)
    }

    // Whether a drop waits for a shard that is at work.
    fn set_patient(&mut self, patient: bool)
        ensures { self.new ≡ self.old }
    {
        if let Some(bench) = &mut self.bench {
            bench.set_patient(patient);
        }
    }

    /// Carries what connections put out on which something happened: what is for no shard that is at work, and only
    /// where nothing is, the rest, each of which waits for its shard. Says whether something was.
    pub(crate) fn carry_lines(&mut self) -> bool
        ensures { Does self.old self.new result }
    {
        let count = self.count().min(MAX_LINES) as u32;
        self.set_patient(false);
        let at_once = self.carry_each(count);
        self.set_patient(true);
        let later = self.carry_rest(count, at_once);
        at_once | later
    }
}
