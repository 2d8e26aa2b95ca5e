//! What happens on the connections of a node.
#![tactic(auto, using(crate::proofs::GoingLemmas::going))]

ghost use Rattle.std.specs.Prelude.{◌≡◌, ◌<◌, ◌≤◌, ◌+◌, ◌^◌, IfErr, IfSome, None, OnErr, OnOk, drop, length, min};
ghost use Rattle.std.specs.Prelude.{take, true};
ghost use Rattle.bench_item.specs.declared.step.Step.TheVariants as steps;
ghost use Rattle.bench_node.specs.Going.{Goes, is_closed, is_dialling};
ghost use Rattle.bench_spec.specs.Lines.{openings};
ghost use Rattle.bench_spec.specs.Taken.{Takes, fault_of, shown};

use crate::dials::NextDial;
use crate::node::{LINE_PLACES, LiveNode};
use base_list::Octets;
use bench_item::{Entry, LineState, Step, StepFault};
use live_desk::ReplayError;

impl LiveNode {
    // Takes a step that works no shard and carries nothing, or refuses it for its first reason. No callback is asked.
    fn happens(&mut self, step: Step) -> Result<(), StepFault>
        ensures ok { OnOk result (Takes self.old self.new step) }
        ensures fault { IfErr result (λ f. f ≡ fault_of self.old step) }
        ensures err { OnErr result (self.new ≡ self.old) }
    {
        if let Some(fault) = self.core.refusal(&step) {
            return Err(fault);
        }
        let entry = Entry {
            step,
            item: None,
            handled: None,
        };
        match self.core.replay(entry, &mut self.room) {
            Ok(()) => Ok(()),
            // It is not refused, so what lacks is memory.
            Err(ReplayError::Illegal) | Err(ReplayError::NoMemory) => Err(StepFault::NoMemory),
        }
    }

    // The same of a connection.
    fn happens_on(&mut self, line: u32, step: Step) -> Result<(), StepFault>
        ensures ok { OnOk result (Takes self.old self.new step) }
        ensures fault { IfErr result (λ f. f ≡ fault_of self.old step) }
        ensures err { OnErr result (self.new ≡ self.old) }
    {
        self.happens(step)?;
        self.touch(line);
        Ok(())
    }

    /// A connection was accepted. Answers its number; none where the step is refused, and then nothing changed.
    pub fn joined(&mut self) -> Option<u64>
        ensures taken { IfSome result (λ line. Takes self.old self.new steps.Joined
            × (line ≡ length (openings self.new.log))) }
        ensures none { result ≡ None → self.new ≡ self.old }
    {
        match self.happens(Step::Joined) {
            Ok(()) => Some(self.core.lines() as u64),
            Err(_) => None,
        }
    }

    /// The dial of a connection was acknowledged.
    pub fn dialled(&mut self, line: u32) -> Result<(), StepFault>
        ensures taken { OnOk result (Takes self.old self.new (steps.Dialled line)) }
        ensures fault { IfErr result (λ f. f ≡ fault_of self.old (steps.Dialled line)) }
        ensures err { OnErr result (self.new ≡ self.old) }
    {
        self.happens_on(line, Step::Dialled(line))
    }

    /// Octets came on a connection.
    pub fn came(&mut self, line: u32, piece: &[u8]) -> Result<(), StepFault>
        ensures taken { OnOk result (Takes self.old self.new (steps.Came line piece.now)) }
        ensures fault { IfErr result (λ f. f ≡ fault_of self.old (steps.Came line piece.now)) }
        ensures err { OnErr result (self.new ≡ self.old) }
    {
        // Its reasons first, then memory.
        let nothing = Octets::new(Vec::new(self.alloc));
        if let Some(fault) = self.core.refusal(&Step::Came {
            line,
            piece: nothing,
        }) {
            return Err(fault);
        }
        let Ok(piece) = Octets::from_slice(self.alloc, piece) else {
            return Err(StepFault::NoMemory);
        };
        self.happens_on(line, Step::Came { line, piece })
    }

    /// A connection was lost, or its dial refused.
    pub fn lost(&mut self, line: u32) -> Result<(), StepFault>
        ensures taken { OnOk result (Takes self.old self.new (steps.Lost line)) }
        ensures fault { IfErr result (λ f. f ≡ fault_of self.old (steps.Lost line)) }
        ensures err { OnErr result (self.new ≡ self.old) }
    {
        self.happens_on(line, Step::Lost(line))
    }

    // A connection that can be dialled nowhere is lost. Says whether it is.
    fn lose_unreachable(&mut self, line: u32) -> bool
        ensures goes { Goes self.old self.new }
        ensures same { self.new.settings ≡ self.old.settings }
    {
        if self.lost(line).is_err() {
            return false;
        }
        self.dials.give(line);
        true
    }

    /// The dial that is to be made next, if one is; it is told once. One whose peer has no usable address is lost.
    pub fn next_dial(&mut self) -> Option<NextDial>
        ensures dialling { IfSome result (λ dial. is_dialling ((shown self.new).line_of dial.line) ≡ true) }
        ensures goes { Goes self.old self.new }
        ensures same { self.new.settings ≡ self.old.settings }
    {
        'dials: for _ in 0..LINE_PLACES {
            let wanted = self.dials.first(&self.core)?;
            if let Some(address) = wanted.address {
                let line = wanted.line;
                self.dials.give(line);
                return Some(NextDial { line, address });
            }
            if !self.lose_unreachable(wanted.line) {
                return None;
            }
        }
        None
    }

    /// Whether a connection is closed, or not there.
    pub fn is_closed(&self, line: u32) -> bool
        ensures { result ≡ is_closed ((shown self.now).line_of line) }
    {
        matches!(self.core.line(line), None | Some(LineState::Closed))
    }

    /// Copies what a connection sent from a place on, as much as there is and fits, to the front of `buffer`, and
    /// says how much that is.
    pub fn unsent(&self, line: u32, from: usize, buffer: &mut [u8]) -> usize
        ensures count { result ≡ min (length (drop from ((shown self.now).sent_of line))) (length buffer.new) }
        ensures front { take result buffer.new ≡ take result (drop from ((shown self.now).sent_of line)) }
        ensures within { result ≤ length buffer.new }
        ensures fits { from + result < 2 ^ 64 }
    {
        let sent = self.core.sent(line);
        if from >= sent.len() {
            return 0;
        }
        let count = (sent.len() - from).min(buffer.len());
        buffer[..count].copy_from_slice(&sent[from..from + count]);
        count
    }
}
