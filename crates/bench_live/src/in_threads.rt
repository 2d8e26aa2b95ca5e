//! The calls of a bench in threads as a trait: what is generic over it goes through none of the callbacks that a bench
//! holds.
ghost use Rattle.std.specs.Prelude.{◌≡◌, ◌≤◌, ◌<◌, ◌+◌, ◌∷◌, ◌++◌, List, [], length, map, vec_len};
ghost use Rattle.std.specs.Prelude.{Err, IfOk, IfSome, None, OnErr, OnOk, false, true};
ghost use Rattle.std.specs.Arc.{arc_value};
ghost use Rattle.bench_desk.specs.Desks.{DeskView};
ghost use Rattle.bench_item.specs.declared.limit.TheConstants.{MAX_LINES};
ghost use Rattle.bench_item.specs.declared.step.Step.{Step};
ghost use Rattle.bench_item.specs.declared.step.Step.TheVariants as steps;
ghost use Rattle.bench_spec.specs.Merged.{is_fed};
ghost use Rattle.bench_live.specs.Ended.{missing};
ghost use Rattle.bench_live.specs.Kept.{HasTold};
ghost use Rattle.bench_live.specs.Started.{Counts};

use crate::desk::LiveDesk;
use crate::live::Live;
use crate::parts::Logged;
use acct_totals::Totals;
use bench_desk::DeskFault;
use bench_item::{Key, LineState, Step, StepFault};
use std::sync::Wait;
use std::thread::Threads;
use std::time::Clock;
use tab_step::{Event, MachineState};

/// A bench in threads, as who feeds it sees it. What is behind its locks is in no contract. It was started by a call of
/// its own (`Live::start`): none of a trait may take callbacks and answer what holds them.
///
/// In: `feed`, `set_patient`, `joined`, `tell`, `end`. Looks: `line`, `lines`, `survey`, `unsent`, `state_of`,
/// `has_waiting`, `drawn`, `entries`, `totals`.
pub trait InThreads<R>: Drop {
    /// A desk of it.
    type Desk: Drop;

    /// What a desk is to a contract.
    ghost desk_of: { Self.Desk → DeskView };

    /// The steps that were fed and taken, in order.
    ghost fed: { Self → List Step };

    /// How many desks, shards and pages it has.
    ghost counts: { Self → Counts };

    /// Takes a step of a connection: what happens to it, and what is lifted and dropped from it. Each other step is
    /// refused as Unknown.
    fn feed(&mut self, rt: &R, step: Step) -> Result<(), StepFault>
        ensures ok { OnOk result (fed self.new ≡ fed self.old ++ step ∷ []) }
        ensures fed { OnOk result (is_fed step ≡ true) }
        ensures other { is_fed step ≡ false → result ≡ Err StepFault.Unknown }
        ensures err { OnErr result (fed self.new ≡ fed self.old) }
        ensures same { counts self.new ≡ counts self.old };

    /// Whether a drop waits while its shard is at work, as at the start; else it is refused then, as for want of room.
    fn set_patient(&mut self, patient: bool)
        ensures fed { fed self.new ≡ fed self.old }
        ensures same { counts self.new ≡ counts self.old };

    /// A connection is accepted. Answers its number.
    fn joined(&mut self, rt: &R) -> Result<u64, StepFault>
        ensures number { IfOk result (λ line. (0 < line) × (line ≤ MAX_LINES)) }
        ensures ok { OnOk result (fed self.new ≡ fed self.old ++ steps.Joined ∷ []) }
        ensures err { OnErr result (fed self.new ≡ fed self.old) }
        ensures same { counts self.new ≡ counts self.old };

    /// Where a connection stands, if there is one of that number.
    fn line(&self, rt: &R, line: u64) -> Option<LineState>
        ensures zero { line ≡ 0 → result ≡ None };

    /// How many connections there are.
    fn lines(&self, rt: &R) -> usize;

    /// Says for each connection, from 1 on, whether it sent more than stands in `drawn`, or is closed, as far as
    /// `marks` reach; and how many connections there are. All is looked at under one lock.
    fn survey(&self, rt: &R, drawn: &[Vec<u8>], marks: &mut [bool]) -> usize;

    /// Copies what a connection sent from a place on, as much as there is and fits, to the front of `out`, and says how
    /// much that is.
    fn unsent(&self, rt: &R, line: u64, from: usize, out: &mut [u8]) -> usize
        ensures { result ≤ length out.new };

    /// Where a machine stands, if it is there. No desk keeps that.
    fn state_of(&self, rt: &R, key: &Key) -> Option<MachineState>;

    /// Whether something that a desk told waits in the shard of a machine.
    fn has_waiting(&self, rt: &R, desk: &Self::Desk, key: &Key) -> bool;

    /// How many stamps were drawn: no fewer than there are entries. No lock is taken.
    fn drawn(&self) -> u64;

    /// How many entries its parts have, but for those of desks. Each part is counted under its lock, one by one.
    fn entries(&self, rt: &R) -> usize;

    /// The sums of an account, if it is open: no more is reserved and debited than was given.
    fn totals(&self, rt: &R, account: u64) -> Option<Totals>
        ensures never_over { IfSome result (λ t. t.reserved + t.debited ≤ t.given) }
        ensures zero { account ≡ 0 → result ≡ None };

    /// A desk tells a machine an event. Where it is refused the desk is as it was.
    fn tell(rt: &R, desk: &mut Self::Desk, key: &Key, event: &Event) -> Result<(), DeskFault>
        ensures told { OnOk result (HasTold (desk_of desk.old) (desk_of desk.new) key.now event.now) }
        ensures err { OnErr result (desk_of desk.new ≡ desk_of desk.old) };

    /// Ends the bench: each thread is joined, and what was logged is handed over, with the pages. None where a desk is
    /// missing, and for memory: its threads then run on, and nobody has it.
    fn end(self, rt: &R, desks: Vec<Self::Desk>) -> Option<Logged>
        ensures could { IfSome result (λ logged. missing desk_of (counts self).desks desks.items ≡ None) }
        ensures desks { IfSome result (λ logged. logged.desks.items ≡ map desk_of desks.items) }
        ensures fed { IfSome result (λ logged. logged.fed.items ≡ fed self) }
        ensures shards { IfSome result (λ logged. vec_len logged.shards ≡ (counts self).shards) }
        ensures pages { IfSome result (λ logged. vec_len logged.pages ≡ (counts self).pages) };
}

impl<R: Threads + Wait + Clock + Copy + Send + 'static> InThreads<R> for Live {
    type Desk = LiveDesk;

    ghost desk_of = { λ desk. desk.desk };

    ghost fed = { λ live. live.fed.items };

    ghost counts = { λ live. record {
      desks = live.desks;
      shards = vec_len (arc_value live.shared).shards;
      pages = (arc_value live.shared).pages;
    } };

    fn feed(&mut self, rt: &R, step: Step) -> Result<(), StepFault> {
        Live::feed(self, rt, step)
    }

    fn set_patient(&mut self, patient: bool) {
        Live::set_patient(self, patient);
    }

    fn joined(&mut self, rt: &R) -> Result<u64, StepFault> {
        Live::joined(self, rt)
    }

    fn line(&self, rt: &R, line: u64) -> Option<LineState> {
        Live::line(self, rt, line)
    }

    fn lines(&self, rt: &R) -> usize {
        Live::lines(self, rt)
    }

    fn survey(&self, rt: &R, drawn: &[Vec<u8>], marks: &mut [bool]) -> usize {
        self.shared.survey(rt, drawn, marks)
    }

    fn unsent(&self, rt: &R, line: u64, from: usize, out: &mut [u8]) -> usize {
        Live::unsent(self, rt, line, from, out)
    }

    fn state_of(&self, rt: &R, key: &Key) -> Option<MachineState> {
        self.shared.state_of(rt, key)
    }

    fn has_waiting(&self, rt: &R, desk: &LiveDesk, key: &Key) -> bool {
        self.shared.has_waiting(rt, desk.desk().number(), key)
    }

    fn drawn(&self) -> u64 {
        self.shared.drawn()
    }

    fn entries(&self, rt: &R) -> usize {
        self.shared.entries(rt)
    }

    fn totals(&self, rt: &R, account: u64) -> Option<Totals> {
        self.shared.totals(rt, account)
    }

    fn tell(rt: &R, desk: &mut LiveDesk, key: &Key, event: &Event) -> Result<(), DeskFault> {
        desk.tell(rt, key, event)
    }

    // The trait's clauses: the check does not take them over here.
    fn end(self, rt: &R, desks: Vec<LiveDesk>) -> Option<Logged>
        ensures could { IfSome result (λ logged. missing (λ d. d.desk) self.desks desks.items ≡ None) }
        ensures desks { IfSome result (λ logged. logged.desks.items ≡ map (λ d. d.desk) desks.items) }
        ensures fed { IfSome result (λ logged. logged.fed.items ≡ self.fed.items) }
        ensures shards { IfSome result (λ logged. vec_len logged.shards ≡ vec_len (arc_value self.shared).shards) }
        ensures pages { IfSome result (λ logged. vec_len logged.pages ≡ (arc_value self.shared).pages) }
    {
        match Live::end(self, rt, desks) {
            Ok(parts) => Some(parts.into_logged()),
            Err(_) => None,
        }
    }
}
