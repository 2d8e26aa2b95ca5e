//! Breakpoints set and cleared.
ghost use Rattle.std.specs.Prelude.{◌≡◌, ◌==◌, filter, not};
ghost use Rattle.std.specs.List.{list_any};

use crate::debugger::{Debugger, MAX_NUMBER, SetBreakpoint};
use bench_item::MAX_BREAKPOINTS;
use debug_text::{Breakpoint, CommandFault, Reply};

/// Takes out the breakpoint of a number.
fn take_out(set: &mut Vec<SetBreakpoint>, number: u64)
    ensures { set.new.items ≡ filter (λ b. not (b.number == number)) set.old.items }
{
    set.retain(|b| b.number != number);
}

impl Debugger {
    ghost use Rattle.bench_debug.specs.Debug.{Answers, has_all_breakpoints, lacks_break_row};
    ghost use Rattle.bench_debug.specs.Seen.{seen};
    ghost use Rattle.debug_text.specs.declared.command.Command.TheVariants.{Break, Clear};

    /// Whether the table of a breakpoint's row has no such row.
    fn lacks_row(&self, breakpoint: &Breakpoint) -> bool
        ensures { result ≡ lacks_break_row (seen self.now) breakpoint.now }
    {
        match breakpoint {
            Breakpoint::Row { role, row } => { self.core.table(*role).rows().len() as u64 <= *row }
            _ => false,
        }
    }

    /// Whether as many breakpoints are set as there may be.
    fn has_all_breakpoints(&self) -> bool
        ensures { result ≡ has_all_breakpoints (seen self.now) }
    {
        MAX_BREAKPOINTS <= self.progress.set.len() || MAX_NUMBER <= self.progress.count
    }

    /// `break ..`
    pub(crate) fn set_breakpoint(&mut self, breakpoint: Breakpoint) -> Result<Reply, CommandFault>
        ensures { Answers (seen self.old) (seen self.new) (Break breakpoint) result }
    {
        if self.lacks_row(&breakpoint) {
            return Err(CommandFault::NoSuchRow);
        }
        if self.has_all_breakpoints() {
            return Err(CommandFault::TooManyBreakpoints);
        }
        let number = self.progress.count + 1;
        let one_more = SetBreakpoint { number, breakpoint };
        if self.progress.set.push(one_more).is_err() {
            return Err(CommandFault::NoMemory);
        }
        self.progress.count = number;
        Ok(Reply::WasSet(number))
    }

    /// Whether a breakpoint of that number is set.
    fn has_breakpoint(&self, number: u64) -> bool
        ensures { result ≡ list_any (λ b. b.number == number) self.now.progress.set.items }
    {
        self.progress.set.iter().any(|b| b.number == number)
    }

    /// `clear B`
    pub(crate) fn clear(&mut self, number: u64) -> Result<Reply, CommandFault>
        ensures { Answers (seen self.old) (seen self.new) (Clear number) result }
    {
        if !self.has_breakpoint(number) {
            return Err(CommandFault::NoSuchBreakpoint);
        }
        take_out(&mut self.progress.set, number);
        Ok(Reply::WasCleared(number))
    }
}
