//! Where a connection is kept, and why a call on it is refused.
ghost use Rattle.std.specs.Prelude.{◌≡◌, IfOk, IfErr, OnOk, OnErr, None, Some, length, nat_le};

use crate::lines::Lines;
use bench_item::{Hears, MAX_LINES, StepFault};

/// A call on a connection that may refuse it.
#[derive(Clone, Copy)]
pub(crate) enum Call {
    /// Its dial is acknowledged.
    Dialled,
    /// Octets come on it.
    Came,
    /// It is lost.
    Lost,
}

impl<T: Hears> Lines<T> {
    ghost use Rattle.bench_line.specs.Lines.{IsPlace, line_at};
    ghost use Rattle.bench_line.specs.Refusals.{refusal_of};
    ghost use Rattle.bench_line.specs.Lines.{came_refusal, dialled_refusal, lost_refusal};

    /// The place of the connection of that number.
    pub(crate) fn find(&self, line: u64) -> Result<usize, StepFault>
        ensures ok { IfOk result (IsPlace self.now.lines line) }
        ensures unknown { IfErr result (λ f. f ≡ StepFault.Unknown) }
        ensures err { OnErr result (line_at self.now.lines line ≡ None) }
    {
        if line == 0 || (line - 1) as usize >= self.lines.len() {
            return Err(StepFault::Unknown);
        }
        Ok((line - 1) as usize)
    }

    /// The place of the connection of that number, where it takes the call.
    pub(crate) fn find_for(&self, line: u64, call: Call) -> Result<usize, StepFault>
        ensures ok { IfOk result (IsPlace self.now.lines line) }
        ensures free { OnOk result (refusal_of call self.now.lines line ≡ None) }
        ensures err { IfErr result (λ f. refusal_of call self.now.lines line ≡ Some f) }
    {
        let Ok(place) = self.find(line) else {
            return Err(StepFault::Unknown);
        };
        let at = &self.lines[place];
        match at.refusal(call) {
            Some(fault) => Err(fault),
            None => Ok(place),
        }
    }

    // Why a call on the connection of that number is refused, memory aside.
    fn fault(&self, line: u64, call: Call) -> Option<StepFault>
        ensures { result ≡ refusal_of call self.now.lines line }
    {
        match self.find_for(line, call) {
            Ok(_) => None,
            Err(fault) => Some(fault),
        }
    }

    /// Why it is refused that the dial of the connection of that number is acknowledged, memory aside. Takes no memory.
    pub fn dialled_fault(&self, line: u64) -> Option<StepFault>
        ensures { result ≡ dialled_refusal self.now.lines line }
    {
        self.fault(line, Call::Dialled)
    }

    /// Why it is refused that octets come on the connection of that number, memory aside. Takes no memory.
    pub fn came_fault(&self, line: u64) -> Option<StepFault>
        ensures { result ≡ came_refusal self.now.lines line }
    {
        self.fault(line, Call::Came)
    }

    /// Why it is refused that the connection of that number is lost, memory aside. Takes no memory.
    pub fn lost_fault(&self, line: u64) -> Option<StepFault>
        ensures { result ≡ lost_refusal self.now.lines line }
    {
        self.fault(line, Call::Lost)
    }

    /// Whether there are as many connections as may be. Takes no memory.
    pub fn is_full(&self) -> bool
        ensures { result ≡ nat_le MAX_LINES (length self.now.lines) }
    {
        self.lines.len() >= MAX_LINES
    }
}
