//! What holds of every world, whatever was done with it: laws over its public contracts.
ghost use Rattle.std.specs.Prelude.{◌≡◌, ◌++◌, List};
ghost use Rattle.acct_book.specs.Book.{NeverOver};
ghost use Rattle.bench_item.specs.declared.entry.Entry.{Entry as LogEntry};
ghost use Rattle.bench_item.specs.declared.key.Key.{Key as MachineKey};
ghost use Rattle.bench_spec.specs.Booked.{book_at};
ghost use Rattle.bench_spec.specs.Legal.{IsLegal};
ghost use Rattle.bench_spec.specs.Own.{IsOwnRun};
ghost use Rattle.bench_spec.specs.Taken.{shown};

use crate::world::World;
use bench_core::ReplayError;
use bench_item::{Entry, Step, StepFault};

impl World {
    /// For every machine: the events of its moves are its own, those of the items that came to its shard as far as they
    /// were handled, for it and neither busy nor stale, each with what the account book says to it, in order; and its
    /// moves are a run of the table of its role, from its start (RFC 6733 section 5.6, RFC 8506 section 7).
    pub fn each_is_own_run(&self)
        ensures { (key : MachineKey) → IsOwnRun self.now.core.settings self.now.core.log key }
    {
        self.core.known()
    }

    /// The log is legal, and so was each front of it: at each place it was what steps may make.
    pub fn is_legal_at_each_place(&self)
        ensures { (front rest : List LogEntry) → front ++ rest ≡ self.now.core.log
            → IsLegal self.now.core.settings front }
    {
        self.core.known()
    }

    /// Of no account is more reserved and debited than was given (RFC 8506 section 5).
    pub fn is_never_over(&self)
        ensures { NeverOver (book_at self.now.core.settings self.now.core.log) }
    {
        self.core.known()
    }

    /// A step, taken or refused, and then back where it was taken: the world is as before, and so is all that it shows.
    pub fn step_and_back(&mut self, step: Step) -> Result<(), StepFault>
        ensures core { self.new.core ≡ self.old.core }
        ensures shown { shown self.new.core ≡ shown self.old.core }
    {
        self.step(step)?;
        self.back();
        Ok(())
    }

    /// The same of an entry that is replayed.
    pub fn replay_and_back(&mut self, entry: Entry) -> Result<(), ReplayError>
        ensures core { self.new.core ≡ self.old.core }
        ensures shown { shown self.new.core ≡ shown self.old.core }
    {
        self.replay(entry)?;
        self.back();
        Ok(())
    }
}
