//! What takes steps: a world, for a library or a program that is generic over it.
ghost use Rattle.std.specs.Prelude.{◌≡◌, [], IfErr, IsErrOf, IsFalse, IsTrue, OnOk, OnErr, false};
ghost use Rattle.std.specs.Prelude.{nat_lt, slice_set, true};
ghost use Rattle.bench_spec.specs.Legal.{MayFollow};
ghost use Rattle.bench_spec.specs.Taken.{GoesBackTo, Replays, Run, Runs, Takes, fault_of, with_paused};

use crate::world::World;
use bench_core::{Core, ReplayError};
use bench_item::{Entry, Step, StepFault};

/// What takes steps as a `World` does. What drives a bench from another crate is written over this trait, not over a
/// type that holds closures: the toolchain trusts no contract where such a type goes through a function of another
/// crate under a `&mut`. `ran` is what the bench was opened with, its log, and which shards are paused.
pub trait TakesSteps {
    ghost ran: { Self → Run };

    /// What the bench shows.
    fn core(&self) -> &Core
        ensures { result.now ≡ ran self.now };

    /// Takes a step, or refuses it, as `World::step`.
    fn step(&mut self, step: Step) -> Result<(), StepFault>
        ensures ok { OnOk result (Takes (ran self.old) (ran self.new) step) }
        ensures fault { IfErr result (λ f. f ≡ fault_of (ran self.old) step) }
        ensures err { OnErr result (ran self.new ≡ ran self.old) };

    /// Takes steps in their order, up to the first that is refused, as `World::run`.
    fn run(&mut self, steps: Vec<Step>) -> Result<(), (usize, StepFault)>
        ensures { Runs (ran self.old) (ran self.new) steps.items result };

    /// Adds an entry as it is, where it may follow, as `World::replay`.
    fn replay(&mut self, entry: Entry) -> Result<(), ReplayError>
        ensures ok { OnOk result (Replays (ran self.old) (ran self.new) entry) }
        ensures illegal { IsErrOf result ReplayError.Illegal
            → MayFollow (ran self.old).settings (ran self.old).log entry → ⊥ }
        ensures err { OnErr result (ran self.new ≡ ran self.old) };

    /// Takes the last step back, where one was taken, as `World::back`. Says whether.
    fn back(&mut self) -> bool
        ensures ok { IsTrue result → GoesBackTo (ran self.old) (ran self.new) }
        ensures none { IsFalse result → ((ran self.old).log ≡ []) × (ran self.new ≡ ran self.old) };

    /// A shard stops, as by `World::pause`. Says whether there is one of that number.
    fn pause(&mut self, shard: u32) -> bool
        ensures there { result ≡ nat_lt shard (ran self.old).settings.node.shards }
        ensures paused { IsTrue result
            → ran self.new ≡ with_paused (ran self.old) (slice_set (ran self.old).paused shard true) }
        ensures none { IsFalse result → ran self.new ≡ ran self.old };

    /// A shard goes on, as by `World::resume`. Says whether there is one of that number.
    fn resume(&mut self, shard: u32) -> bool
        ensures there { result ≡ nat_lt shard (ran self.old).settings.node.shards }
        ensures resumed { IsTrue result
            → ran self.new ≡ with_paused (ran self.old) (slice_set (ran self.old).paused shard false) }
        ensures none { IsFalse result → ran self.new ≡ ran self.old };
}

impl TakesSteps for World {
    ghost ran = { λ world. world.core };

    fn core(&self) -> &Core {
        &self.core
    }

    fn step(&mut self, step: Step) -> Result<(), StepFault> {
        World::step(self, step)
    }

    fn run(&mut self, steps: Vec<Step>) -> Result<(), (usize, StepFault)> {
        World::run(self, steps)
    }

    fn replay(&mut self, entry: Entry) -> Result<(), ReplayError> {
        World::replay(self, entry)
    }

    fn back(&mut self) -> bool {
        World::back(self)
    }

    fn pause(&mut self, shard: u32) -> bool {
        World::pause(self, shard)
    }

    fn resume(&mut self, shard: u32) -> bool {
        World::resume(self, shard)
    }
}
