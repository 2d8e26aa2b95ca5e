//! A step is taken, or refused.
ghost use Rattle.std.specs.Prelude.{◌≡◌, IfErr, OnOk, OnErr, None, length};
ghost use Rattle.std.specs.List.{AllByRecursion as Each};
ghost use Rattle.bench_item.specs.declared.step.Step.TheVariants as steps;
ghost use Rattle.bench_spec.specs.Refusal.{refusal};
ghost use Rattle.bench_spec.specs.Taken.{Takes, fault_of};
ghost use Rattle.bench_core.specs.Replaying.{IsCarried};

use crate::keeping::Core;
use bench_item::{Source, Step, StepFault};
use std::alloc::AllocError;
use tab_call::Registry;
use tab_step::Stepped;

impl Core {
    /// Why a step is refused, memory aside: the first of the reasons; none where it may be taken. Takes no memory.
    pub fn refusal(&self, step: &Step) -> Option<StepFault>
        ensures { result ≡ refusal self.now.settings self.now.log self.now.paused step.now }
    {
        match step {
            Step::Joined => self.joined_fault(),
            Step::Dialled(line) => self.dialled_fault(*line),
            Step::Came { line, piece: _ } => self.came_fault(*line),
            Step::Lost(line) => self.lost_fault(*line),
            Step::Told { desk, key, event } => self.told_fault(*desk, key, event),
            Step::Fired {
                machine,
                generation,
            } => self.fired_fault(*machine, *generation),
            Step::Lift(source) => self.lift_fault(*source),
            Step::Drop(source) => self.drop_fault(*source),
            Step::Work(shard) => self.work_fault(*shard),
        }
    }

    // Takes a step that works no shard and is not refused, unless memory is.
    pub(crate) fn take_carried(&mut self, step: Step) -> Result<(), AllocError>
        requires carried { IsCarried step }
        requires could { refusal self.old.settings self.old.log self.old.paused step ≡ None }
        ensures ok { OnOk result (Takes self.old self.new step) }
        ensures err { OnErr result (self.new ≡ self.old) }
    {
        match step {
            Step::Joined => self.joined(),
            Step::Dialled(line) => self.dialled(line),
            Step::Came { line, piece } => self.came(line, piece),
            Step::Lost(line) => self.lost(line),
            Step::Told { desk, key, event } => self.tell(desk, key, event),
            Step::Fired {
                machine,
                generation,
            } => self.fire(machine, generation),
            Step::Lift(source) => self.lift(source),
            Step::Drop(source) => self.drop_item(source),
            Step::Work(_) => unreachable!(),
        }
    }

    // Takes a step that works no shard, or refuses it.
    fn take_other(&mut self, step: Step) -> Result<(), StepFault>
        requires carried { IsCarried step }
        ensures ok { OnOk result (Takes self.old self.new step) }
        ensures fault { IfErr result (λ f. f ≡ fault_of self.old step) }
        ensures err { OnErr result (self.new ≡ self.old) }
    {
        if let Some(fault) = self.refusal(&step) {
            return Err(fault);
        }
        self.take_carried(step)?;
        Ok(())
    }

    /// Takes the step that lifts the oldest item of a source, as `step` does, and hands no step on.
    pub fn take_lift(&mut self, source: Source) -> Result<(), StepFault>
        ensures ok { OnOk result (Takes self.old self.new (steps.Lift source)) }
        ensures fault { IfErr result (λ f. f ≡ fault_of self.old (steps.Lift source)) }
        ensures err { OnErr result (self.new ≡ self.old) }
    {
        if let Some(fault) = self.lift_fault(source) {
            return Err(fault);
        }
        self.lift(source)?;
        Ok(())
    }

    /// Takes the step that drops the item in a source's hand, as `step` does, and hands no step on.
    pub fn take_drop(&mut self, source: Source) -> Result<(), StepFault>
        ensures ok { OnOk result (Takes self.old self.new (steps.Drop source)) }
        ensures fault { IfErr result (λ f. f ≡ fault_of self.old (steps.Drop source)) }
        ensures err { OnErr result (self.new ≡ self.old) }
    {
        if let Some(fault) = self.drop_fault(source) {
            return Err(fault);
        }
        self.drop_item(source)?;
        Ok(())
    }

    /// Takes the step in which a shard handles its oldest item, as `step` does, and hands no step on.
    pub fn take_work(
        &mut self,
        registries: &[Registry],
        shard: u32,
        room: &mut Stepped,
    ) -> Result<(), StepFault>
        requires laws { Each (λ r. r.book ≡ self.old.settings.node.laws) registries.now }
        requires count { length registries.now ≡ self.old.settings.node.shards }
        ensures ok { OnOk result (Takes self.old self.new (steps.Work shard)) }
        ensures fault { IfErr result (λ f. f ≡ fault_of self.old (steps.Work shard)) }
        ensures err { OnErr result (self.new ≡ self.old) }
    {
        if let Some(fault) = self.work_fault(shard) {
            return Err(fault);
        }
        self.work(&registries[shard as usize], shard, room)?;
        Ok(())
    }

    /// Takes a step, or refuses it: for the first of its reasons, and for memory only where there is none.
    /// The registries' callbacks are asked where a shard works; `room` is where a move is decided, and
    /// what stands there is gone.
    pub fn step(
        &mut self,
        registries: &[Registry],
        step: Step,
        room: &mut Stepped,
    ) -> Result<(), StepFault>
        requires laws { Each (λ r. r.book ≡ self.old.settings.node.laws) registries.now }
        requires count { length registries.now ≡ self.old.settings.node.shards }
        ensures ok { OnOk result (Takes self.old self.new step) }
        ensures fault { IfErr result (λ f. f ≡ fault_of self.old step) }
        ensures err { OnErr result (self.new ≡ self.old) }
    {
        // A step is large: here it is handed on only where it has to be.
        match step {
            Step::Work(shard) => self.take_work(registries, shard, room),
            Step::Lift(source) => self.take_lift(source),
            Step::Drop(source) => self.take_drop(source),
            other => self.take_other(other),
        }
    }
}
