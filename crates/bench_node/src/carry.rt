//! An item carried, and what a drop leaves to be dialled or timed.
#![tactic(auto, using(crate::proofs::GoingLemmas::going, crate::proofs::TimedLemmas::timing))]

ghost use Rattle.std.specs.Prelude.{◌≡◌, ◌≢◌, IfErr, IfOk, None, Ok, OnErr, OnOk, false, length};
ghost use Rattle.std.specs.Prelude.{option_to_list, true};
ghost use Rattle.std.specs.List.{AllByRecursion as Each};
ghost use Rattle.bench_item.specs.declared.source.Source.TheVariants.{Shard};
ghost use Rattle.bench_item.specs.declared.step.Step.TheVariants as steps;
ghost use Rattle.bench_item.specs.declared.step.StepFault.TheVariants.{NoMemory};
ghost use Rattle.bench_node.specs.Going.{Goes};
ghost use Rattle.bench_node.specs.Settled.{CanBe, IsRefused, IsStill, Took, Went};
ghost use Rattle.bench_node.specs.Timed.{IsTimed, LeavesTimers, Sets, orders_in};
ghost use Rattle.role_tables.specs.Roles.{all_laws};
ghost use Rattle.bench_spec.specs.Refusal.{is_source};
ghost use Rattle.bench_spec.specs.Taken.{Takes, fault_of, shown};
ghost use Rattle.tick_wheel.specs.Timers.{after_arm, with_timer_of};

use crate::node::LiveNode;
use bench_item::{Item, Source, Step, StepFault};
use std::alloc::AllocError;
use tab_call::Registry;
use tick_wheel::Wheel;

/// The most steps, but for the first, with which one source is carried before others come.
const MAX_CARRIES: usize = 4_096;

/// Whether a step was taken; want of memory is no answer.
fn is_taken(taken: Result<(), StepFault>) -> Result<bool, AllocError>
    ensures yes { OnOk taken (result ≡ Ok true) }
    ensures no { IfErr taken (λ fault. IfOk result (λ went. (went ≡ false) × (fault ≢ NoMemory))) }
{
    match taken {
        Ok(()) => Ok(true),
        Err(StepFault::NoMemory) => Err(AllocError),
        Err(_) => Ok(false),
    }
}

impl LiveNode {
    // Takes a step that is not refused, unless memory is, or else leaves all as it was.
    fn try_step(&mut self, registries: &[Registry], step: Step) -> Result<(), AllocError>
        requires laws { Each (λ r. r.book ≡ all_laws) registries.now }
        requires count { length registries.now ≡ self.old.settings.node.shards }
        ensures ok { OnOk result (Takes self.old self.new step) }
        ensures err { OnErr result (self.new ≡ self.old) }
        ensures same { self.new.settings ≡ self.old.settings }
    {
        match self.core.step(registries, step, &mut self.room) {
            Ok(()) => Ok(()),
            Err(_) => Err(AllocError),
        }
    }

    // The same, as steps that are taken.
    pub(crate) fn take(&mut self, registries: &[Registry], step: Step) -> Result<(), AllocError>
        requires laws { Each (λ r. r.book ≡ all_laws) registries.now }
        requires count { length registries.now ≡ self.old.settings.node.shards }
        ensures ok { OnOk result (Takes self.old self.new step) }
        ensures err { OnErr result (self.new ≡ self.old) }
        ensures goes { Goes self.old self.new }
        ensures same { self.new.settings ≡ self.old.settings }
    {
        self.try_step(registries, step)
    }

    // Lifts what waits at a source, where that may be.
    fn try_lift(&mut self, source: Source) -> Result<(), StepFault>
        ensures ok { OnOk result (Takes self.old self.new (steps.Lift source)) }
        ensures fault { IfErr result (λ f. f ≡ fault_of self.old (steps.Lift source)) }
        ensures err { OnErr result (self.new ≡ self.old) }
        ensures same { self.new.settings ≡ self.old.settings }
    {
        self.core.take_lift(source)
    }

    // The same, as steps that are taken. Says whether it did.
    fn lift(&mut self, source: Source) -> Result<bool, AllocError>
        ensures took { IfOk result (λ went. Took (steps.Lift source) went self.old self.new) }
        ensures goes { Goes self.old self.new }
        ensures same { self.new.settings ≡ self.old.settings }
    {
        is_taken(self.try_lift(source))
    }

    // Drops what lies in a source's hand, where that may be.
    fn try_drop(&mut self, source: Source) -> Result<(), StepFault>
        ensures ok { OnOk result (Takes self.old self.new (steps.Drop source)) }
        ensures fault { IfErr result (λ f. f ≡ fault_of self.old (steps.Drop source)) }
        ensures err { OnErr result (self.new ≡ self.old) }
        ensures same { self.new.settings ≡ self.old.settings }
    {
        self.core.take_drop(source)
    }

    // The same, as steps that are taken. Says whether it did.
    fn drop_plain(&mut self, source: Source) -> Result<bool, AllocError>
        ensures took { IfOk result (λ went. Took (steps.Drop source) went self.old self.new) }
        ensures goes { Goes self.old self.new }
        ensures same { self.new.settings ≡ self.old.settings }
    {
        is_taken(self.try_drop(source))
    }

    // A shard handles its oldest item, where it may.
    fn try_work(&mut self, registries: &[Registry], shard: u32) -> Result<(), StepFault>
        requires laws { Each (λ r. r.book ≡ all_laws) registries.now }
        requires count { length registries.now ≡ self.old.settings.node.shards }
        ensures ok { OnOk result (Takes self.old self.new (steps.Work shard)) }
        ensures fault { IfErr result (λ f. f ≡ fault_of self.old (steps.Work shard)) }
        ensures err { OnErr result (self.new ≡ self.old) }
        ensures same { self.new.settings ≡ self.old.settings }
    {
        self.core.take_work(registries, shard, &mut self.room)
    }

    // The same, as steps that are taken. Says whether it did.
    pub(crate) fn work_once(
        &mut self,
        registries: &[Registry],
        shard: u32,
    ) -> Result<bool, AllocError>
        requires laws { Each (λ r. r.book ≡ all_laws) registries.now }
        requires count { length registries.now ≡ self.old.settings.node.shards }
        ensures timed { LeavesTimers self.old self.new }
        ensures went { IfOk result (λ went. Went (λ run. IsRefused run (steps.Work shard)) went self.old self.new) }
        ensures goes { Goes self.old self.new }
        ensures same { self.new.settings ≡ self.old.settings }
    {
        is_taken(self.try_work(registries, shard))
    }

    // Whether what lies in a source's hand may be dropped.
    fn can_drop(&self, source: Source) -> bool
        ensures { CanBe result self.now (steps.Drop source) }
    {
        self.core.refusal(&Step::Drop(source)).is_none()
    }

    // Drops a dial: a connection is opened that is to be dialled. Says whether it did.
    fn drop_dial(&mut self, source: Source) -> Result<bool, AllocError>
        ensures took { IfOk result (λ went. Took (steps.Drop source) went self.old self.new) }
        ensures goes { Goes self.old self.new }
        ensures same { self.new.settings ≡ self.old.settings }
    {
        self.dials.reserve()?;
        if !self.drop_plain(source)? {
            return Ok(false);
        }
        self.dials
            .put(self.core.lines().min(u32::MAX as usize) as u32);
        Ok(true)
    }

    // Drops what arms a timer: it is due so many ticks from the last moment on. Says whether it did. Where memory lacks
    // for the step it fires in vain.
    fn drop_arm(
        &mut self,
        timers: &mut Wheel,
        source: Source,
        machine: u64,
        generation: u64,
        ticks: u64,
    ) -> Result<bool, AllocError>
        ensures armed { IfOk result (λ went. Sets went timers.old (after_arm timers.old machine generation ticks)
            timers.new) }
        ensures took { IfOk result (λ went. Took (steps.Drop source) went self.old self.new) }
        ensures goes { Goes self.old self.new }
        ensures same { self.new.settings ≡ self.old.settings }
    {
        if !self.can_drop(source) {
            return Ok(false);
        }
        timers.arm(machine, generation, ticks)?;
        self.drop_plain(source)
    }

    // Drops what disarms a timer. Says whether it did.
    fn drop_disarm(
        &mut self,
        timers: &mut Wheel,
        source: Source,
        machine: u64,
    ) -> Result<bool, AllocError>
        ensures disarmed { IfOk result (λ went. Sets went timers.old (with_timer_of timers.old machine None)
            timers.new) }
        ensures took { IfOk result (λ went. Took (steps.Drop source) went self.old self.new) }
        ensures goes { Goes self.old self.new }
        ensures same { self.new.settings ≡ self.old.settings }
    {
        if !self.drop_plain(source)? {
            return Ok(false);
        }
        timers.disarm(machine);
        Ok(true)
    }

    // What lies in a source's hand, if it is for no machine and no connection.
    fn order(&self, source: Source) -> Option<Item>
        ensures { is_source self.now.settings self.now.log source ≡ true
            → option_to_list result ≡ orders_in ((shown self.now).hand_of source) }
    {
        match self.core.hand_kept(source) {
            None => None,
            Some(kept) => kept.order(),
        }
    }

    // Drops an item of a shard, if one lies in its hand. Says whether it did.
    fn drop_of_shard(&mut self, timers: &mut Wheel, shard: u32) -> Result<bool, AllocError>
        ensures timed { OnOk result (IsTimed self.old timers.old self.new timers.new) }
        ensures took { IfOk result (λ went. Took (steps.Drop (Shard shard)) went self.old self.new) }
        ensures goes { Goes self.old self.new }
        ensures same { self.new.settings ≡ self.old.settings }
    {
        let source = Source::Shard(shard);
        let Some(item) = self.order(source) else {
            return self.drop_plain(source);
        };
        match item {
            Item::Dial { .. } => self.drop_dial(source),
            Item::Arm {
                machine,
                generation,
                ticks,
            } => self.drop_arm(timers, source, machine, generation, ticks),
            Item::Disarm { machine } => self.drop_disarm(timers, source, machine),
            _ => self.drop_plain(source),
        }
    }

    // Drops the item in a source's hand, if one lies there. Says whether it did. Shards alone put out what is dialled
    // or timed.
    fn drop_item(&mut self, timers: &mut Wheel, source: Source) -> Result<bool, AllocError>
        ensures timed { OnOk result (IsTimed self.old timers.old self.new timers.new) }
        ensures took { IfOk result (λ went. Took (steps.Drop source) went self.old self.new) }
        ensures goes { Goes self.old self.new }
        ensures same { self.new.settings ≡ self.old.settings }
    {
        match source {
            Source::Shard(shard) => self.drop_of_shard(timers, shard),
            _ => self.drop_plain(source),
        }
    }

    // Drops what is in a source's hand, or else lifts what waits there. Says whether it did.
    fn carry_once(&mut self, timers: &mut Wheel, source: Source) -> Result<bool, AllocError>
        ensures timed { OnOk result (IsTimed self.old timers.old self.new timers.new) }
        ensures went { IfOk result (λ went. Went (IsStill source) went self.old self.new) }
        ensures goes { Goes self.old self.new }
        ensures same { self.new.settings ≡ self.old.settings }
    {
        if self.drop_item(timers, source)? {
            return Ok(true);
        }
        self.lift(source)
    }

    // Carries what a source put out, as far as it can be. Says whether something was.
    pub(crate) fn carry(&mut self, timers: &mut Wheel, source: Source) -> Result<bool, AllocError>
        ensures timed { OnOk result (IsTimed self.old timers.old self.new timers.new) }
        ensures went { IfOk result (λ went. Went (IsStill source) went self.old self.new) }
        ensures goes { Goes self.old self.new }
        ensures same { self.new.settings ≡ self.old.settings }
    {
        if !self.carry_once(timers, source)? {
            return Ok(false);
        }
        'carries: for _ in 0..MAX_CARRIES {
            if !self.carry_once(timers, source)? {
                return Ok(true);
            }
        }
        Ok(true)
    }
}
