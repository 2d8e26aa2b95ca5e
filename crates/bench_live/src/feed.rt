//! Steps of connections are fed.
ghost use Rattle.std.specs.Prelude.{◌≡◌, ◌<◌, ◌≤◌, ◌∷◌, ◌++◌, [], Err, IfOk, OnErr, OnOk, false, true};
ghost use Rattle.bench_item.specs.declared.limit.TheConstants.{MAX_LINES};
ghost use Rattle.bench_item.specs.declared.step.Step.TheVariants as steps;
ghost use Rattle.bench_spec.specs.Merged.{is_fed};

use crate::live::Live;
use bench_item::{Source, Step, StepFault};
use std::sync::Wait;

/// Whether a step is one of a connection.
fn is_fed(step: &Step) -> bool
    ensures { result ≡ is_fed step.now }
{
    match step {
        Step::Joined | Step::Dialled(_) | Step::Came { .. } | Step::Lost(_) => true,
        Step::Lift(Source::Line(_)) | Step::Drop(Source::Line(_)) => true,
        Step::Told { .. } | Step::Fired { .. } | Step::Lift(_) | Step::Drop(_) | Step::Work(_) => {
            false
        }
    }
}

impl Live {
    /// Takes a step of a connection: what happens to it, and what is lifted and dropped from it. A step that is taken
    /// is kept behind the others; where it is refused nothing is kept. Each other step is refused as Unknown.
    pub fn feed<R: Wait>(&mut self, rt: &R, step: Step) -> Result<(), StepFault>
        ensures ok { OnOk result (self.new.fed.items ≡ self.old.fed.items ++ step ∷ []) }
        ensures fed { OnOk result (is_fed step ≡ true) }
        ensures other { is_fed step ≡ false → result ≡ Err StepFault.Unknown }
        ensures err { OnErr result (self.new.fed.items ≡ self.old.fed.items) }
        ensures same { (self.new.shared ≡ self.old.shared) × (self.new.desks ≡ self.old.desks) }
    {
        if !is_fed(&step) {
            return Err(StepFault::Unknown);
        }
        if self.fed.reserve(1).is_err() {
            return Err(StepFault::NoMemory);
        }
        self.shared.take(rt, &mut self.hands, &step, self.patient)?;
        self.fed.push(step).unwrap();
        Ok(())
    }

    /// Whether a drop waits while its shard is at work, as at the start; else it is refused then, as for want of room.
    pub fn set_patient(&mut self, patient: bool)
        ensures { self.new ≡ record self.old { patient = patient } }
    {
        self.patient = patient;
    }

    /// A connection is accepted, as by `feed`; its step is kept behind the others. Answers its number.
    pub fn joined<R: Wait>(&mut self, rt: &R) -> Result<u64, StepFault>
        ensures number { IfOk result (λ line. (0 < line) × (line ≤ MAX_LINES)) }
        ensures ok { OnOk result (self.new.fed.items ≡ self.old.fed.items ++ steps.Joined ∷ []) }
        ensures err { OnErr result (self.new.fed.items ≡ self.old.fed.items) }
        ensures same { (self.new.shared ≡ self.old.shared) × (self.new.desks ≡ self.old.desks) }
    {
        if self.fed.reserve(1).is_err() {
            return Err(StepFault::NoMemory);
        }
        let line = self.shared.joined(rt)?;
        self.fed.push(Step::Joined).unwrap();
        Ok(line)
    }
}
