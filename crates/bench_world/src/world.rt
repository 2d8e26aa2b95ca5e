//! A world: all of a bench in one value.
ghost use Rattle.std.specs.Prelude.{◌≡◌, [], None, IfOk, IfErr, IsErrOf, IsFalse, IsTrue, OnOk, OnErr, false, map};
ghost use Rattle.std.specs.Prelude.{nat_lt, replicate, slice_set, true};
ghost use Rattle.bench_item.specs.declared.step.Step.TheVariants as steps;
ghost use Rattle.bench_open.specs.Given.{config_of};
ghost use Rattle.bench_open.specs.Faults.{IsOpeningError};
ghost use Rattle.bench_spec.specs.Legal.{MayFollow};
ghost use Rattle.bench_spec.specs.Opening.{opening_refusal, settings_of};
ghost use Rattle.bench_spec.specs.Taken.{GoesBackTo, Replays, Runs, Takes, fault_of, opened, with_paused};

use bench_core::{Core, ReplayError};
use bench_item::{Entry, Source, Step, StepFault};
use bench_open::Config;
use bench_spec::OpeningError;
use std::alloc::Global;
use tab_call::Registry;
use tab_step::Stepped;

/// A bench: peers, sessions, connections, account book, timers and log in one value. A contract sees `core`:
/// what it was opened with, its log, and which shards are paused; all else is what the log says (`docs/WHOLE.md`).
///
/// In: `step`, `run`, `replay`, `back`, `pause`, `resume`. Looks: those of `core`. Laws: `law.rt`.
pub struct World {
    pub core: Core,
    registries: Vec<Registry>,
    // Where a move is decided.
    room: Box<Stepped>,
    ghost laws: { map (λ r. r.book) registries.items ≡ replicate core.settings.node.shards core.settings.node.laws },
}

// A derived `drop` is proved anew in each crate that holds a world; this one is a call.
impl Drop for World {
    fn drop(self) {
        let World {
            core,
            registries,
            room,
        } = self;
    }
}

impl World {
    /// A bench that is opened with this, and with a registry for each shard, all of the same laws. Why it isn't: the
    /// first that holds of too many or too few parts, a name that is none or twice, laws that differ or lack a kind, a
    /// name in a table that the laws lack, an account that can't be opened; and memory.
    pub fn new(
        alloc: Global,
        config: Config,
        registries: Vec<Registry>,
    ) -> Result<World, OpeningError>
        ensures ok { IfOk result (λ w. (opening_refusal (config_of config (map (λ r. r.book) registries.items)) ≡ None)
            × (w.core ≡ opened (settings_of (config_of config (map (λ r. r.book) registries.items))))) }
        ensures fault { IfErr result (IsOpeningError (config_of config (map (λ r. r.book) registries.items))) }
    {
        let core = match Core::new(alloc, config, &registries) {
            Ok(core) => core,
            Err(error) => return Err(error),
        };
        match Box::new(alloc, Stepped::new()) {
            Ok(room) => Ok(World {
                core,
                registries,
                room,
            }),
            Err(_) => Err(OpeningError::NoMemory),
        }
    }

    /// Takes a step, or refuses it: for the first of its reasons, and for memory only where there is none.
    /// A refused step changes nothing.
    pub fn step(&mut self, step: Step) -> Result<(), StepFault>
        ensures ok { OnOk result (Takes self.old.core self.new.core step) }
        ensures fault { IfErr result (λ f. f ≡ fault_of self.old.core step) }
        ensures err { OnErr result (self.new.core ≡ self.old.core) }
    {
        self.core.step(&self.registries, step, &mut self.room)
    }

    /// Takes the step that lifts the oldest item of a source, as `step` does in more time.
    pub fn lift(&mut self, source: Source) -> Result<(), StepFault>
        ensures ok { OnOk result (Takes self.old.core self.new.core (steps.Lift source)) }
        ensures fault { IfErr result (λ f. f ≡ fault_of self.old.core (steps.Lift source)) }
        ensures err { OnErr result (self.new.core ≡ self.old.core) }
    {
        self.core.take_lift(source)
    }

    /// Takes the step that drops the item in a source's hand, as `step` does in more time.
    pub fn drop_item(&mut self, source: Source) -> Result<(), StepFault>
        ensures ok { OnOk result (Takes self.old.core self.new.core (steps.Drop source)) }
        ensures fault { IfErr result (λ f. f ≡ fault_of self.old.core (steps.Drop source)) }
        ensures err { OnErr result (self.new.core ≡ self.old.core) }
    {
        self.core.take_drop(source)
    }

    /// Takes the step in which a shard handles its oldest item, as `step` does in more time.
    pub fn work(&mut self, shard: u32) -> Result<(), StepFault>
        ensures ok { OnOk result (Takes self.old.core self.new.core (steps.Work shard)) }
        ensures fault { IfErr result (λ f. f ≡ fault_of self.old.core (steps.Work shard)) }
        ensures err { OnErr result (self.new.core ≡ self.old.core) }
    {
        self.core.take_work(&self.registries, shard, &mut self.room)
    }

    /// Takes steps in their order, up to the first that is refused: answers its place in the list, from 0, and why.
    /// Those before it stay taken.
    pub fn run(&mut self, steps: Vec<Step>) -> Result<(), (usize, StepFault)>
        ensures { Runs self.old.core self.new.core steps.items result }
    {
        let count = steps.len();
        let mut left = count;
        for step in steps {
            if let Err(fault) = self.step(step) {
                return Err((count - left, fault));
            }
            left -= 1;
        }
        Ok(())
    }

    /// Adds an entry as it is, where it may follow those of the log, whatever is paused: for a log that is run
    /// again. No callback is asked; a move is checked by the laws. Want of memory may be told before it is known
    /// whether the entry may follow.
    pub fn replay(&mut self, entry: Entry) -> Result<(), ReplayError>
        ensures ok { OnOk result (Replays self.old.core self.new.core entry) }
        ensures illegal { IsErrOf result ReplayError.Illegal
            → MayFollow self.old.core.settings self.old.core.log entry → ⊥ }
        ensures err { OnErr result (self.new.core ≡ self.old.core) }
    {
        self.core.replay(entry, &mut self.room)
    }

    /// Takes the last step back, where one was taken; says whether. Which shards are paused stays.
    /// Asks no callback and takes no memory.
    pub fn back(&mut self) -> bool
        ensures ok { IsTrue result → GoesBackTo self.old.core self.new.core }
        ensures none { IsFalse result → (self.old.core.log ≡ []) × (self.new.core ≡ self.old.core) }
    {
        self.core.back()
    }

    /// A shard stops: it handles nothing until it goes on. Says whether there is one of that number. Takes no memory.
    pub fn pause(&mut self, shard: u32) -> bool
        ensures there { result ≡ nat_lt shard self.old.core.settings.node.shards }
        ensures paused { IsTrue result
            → self.new.core ≡ with_paused self.old.core (slice_set self.old.core.paused shard true) }
        ensures none { IsFalse result → self.new.core ≡ self.old.core }
    {
        self.core.pause(shard)
    }

    /// A shard goes on. Says whether there is one of that number. Takes no memory.
    pub fn resume(&mut self, shard: u32) -> bool
        ensures there { result ≡ nat_lt shard self.old.core.settings.node.shards }
        ensures resumed { IsTrue result
            → self.new.core ≡ with_paused self.old.core (slice_set self.old.core.paused shard false) }
        ensures none { IsFalse result → self.new.core ≡ self.old.core }
    {
        self.core.resume(shard)
    }
}
