//! The step that a script asks for next, or why it is refused.
ghost use Rattle.std.specs.Prelude.{◌≡◌, None, Some, IfErr, IfOk, OnOk};
ghost use Rattle.bench_spec.specs.Refusal.{refusal};
ghost use Rattle.bench_debug.specs.Asking.{IsRefused, IsRefusedWith, step_of};

use bench_core::Core;
use bench_item::{Key, Step, StepFault};
use debug_text::CommandFault;
use script_text::ScriptStep;
use std::alloc::{AllocError, Global};

/// The same key in memory of its own.
pub(crate) fn copy_key(alloc: Global, key: &Key) -> Result<Key, AllocError>
    ensures { IfOk result (λ copy. copy ≡ key.now) }
{
    Ok(Key {
        role: key.role,
        name: key.name.copy(alloc)?,
    })
}

/// The same step in memory of its own.
fn copy_step(alloc: Global, step: &Step) -> Result<Step, AllocError>
    ensures { IfOk result (λ copy. copy ≡ step.now) }
{
    match step {
        Step::Joined => Ok(Step::Joined),
        Step::Dialled(line) => Ok(Step::Dialled(*line)),
        Step::Came { line, piece } => Ok(Step::Came {
            line: *line,
            piece: piece.copy(alloc)?,
        }),
        Step::Lost(line) => Ok(Step::Lost(*line)),
        Step::Told { desk, key, event } => Ok(Step::Told {
            desk: *desk,
            key: copy_key(alloc, key)?,
            event: *event,
        }),
        Step::Fired {
            machine,
            generation,
        } => Ok(Step::Fired {
            machine: *machine,
            generation: *generation,
        }),
        Step::Lift(source) => Ok(Step::Lift(*source)),
        Step::Drop(source) => Ok(Step::Drop(*source)),
        Step::Work(shard) => Ok(Step::Work(*shard)),
    }
}

/// A step that may be taken, to be taken; or why it may not.
fn free_step(alloc: Global, core: &Core, step: &Step) -> Result<Step, CommandFault>
    ensures step { IfOk result (λ copy. copy ≡ step.now) }
    ensures could { OnOk result (refusal core.now.settings core.now.log core.now.paused step.now ≡ None) }
    ensures fault { IfErr result (IsRefusedWith (refusal core.now.settings core.now.log core.now.paused step.now)) }
{
    if let Some(fault) = core.refusal(step) {
        return Err(CommandFault::StepRefused(fault));
    }
    match copy_step(alloc, step) {
        Ok(copy) => Ok(copy),
        Err(_) => Err(CommandFault::NoMemory),
    }
}

/// That a timer fires, where it may.
fn free_firing(core: &Core, machine: u64, generation: u64) -> Result<Step, CommandFault>
    ensures step { IfOk result (λ step. step ≡ Step.Fired machine generation) }
    ensures could { OnOk result
        (refusal core.now.settings core.now.log core.now.paused (Step.Fired machine generation) ≡ None) }
    ensures fault { IfErr result
        (IsRefusedWith (refusal core.now.settings core.now.log core.now.paused (Step.Fired machine generation))) }
{
    let step = Step::Fired {
        machine,
        generation,
    };
    match core.refusal(&step) {
        Some(fault) => Err(CommandFault::StepRefused(fault)),
        None => Ok(step),
    }
}

/// The step that a script asks for, where it may be taken; or why it may not.
pub(crate) fn next_step(alloc: Global, core: &Core, ask: &ScriptStep) -> Result<Step, CommandFault>
    ensures step { IfOk result (λ step. step_of core.now ask.now ≡ Some step) }
    ensures could { IfOk result (λ step. refusal core.now.settings core.now.log core.now.paused step ≡ None) }
    ensures fault { IfErr result (IsRefused core.now ask.now) }
{
    match ask {
        ScriptStep::Step(step) => free_step(alloc, core, step),
        ScriptStep::Fired { key, generation } => match core.number_of(key) {
            Some(machine) => free_firing(core, machine, *generation),
            None => Err(CommandFault::StepRefused(StepFault::Unknown)),
        },
    }
}
