//! A step tried; all that waits settled.
ghost use Rattle.std.specs.Prelude.{◌≡◌, OnOk, Some, map};
ghost use Rattle.bench_script.specs.Ran.{Fires, IsRunBy, Prints, Settles, TakesTold, Tries};
ghost use Rattle.bench_script.specs.Settled.{next_settled};
ghost use Rattle.bench_spec.specs.Machines.{number_of};

use crate::entry::{put_last, put_refused};
use crate::next::next_settled;
use bench_core::Core;
use bench_item::{Key, Step, StepFault};
use std::alloc::{AllocError, Global};
use tab_call::Registry;
use tab_step::Stepped;

/// Takes a step and puts its entry, or puts why it was refused.
pub(crate) fn try_step(
    alloc: Global,
    core: &mut Core,
    registries: &[Registry],
    room: &mut Stepped,
    step: Step,
    out: &mut Vec<u8>,
) -> Result<(), AllocError>
    requires { IsRunBy core.old (map (λ r. r.book) registries.now) }
    ensures { OnOk result (Prints (Tries core.old step core.new) out.old.items out.new.items) }
{
    match core.step(registries, step, room) {
        Ok(()) => {
            put_last(alloc, core, out)?;
            Ok(())
        }
        Err(StepFault::NoMemory) => Err(AllocError),
        Err(fault) => {
            put_refused(out, fault)?;
            Ok(())
        }
    }
}

/// Has the timer of a machine fire, where it is there.
pub(crate) fn fire(
    alloc: Global,
    core: &mut Core,
    registries: &[Registry],
    room: &mut Stepped,
    key: &Key,
    generation: u64,
    out: &mut Vec<u8>,
) -> Result<(), AllocError>
    requires { IsRunBy core.old (map (λ r. r.book) registries.now) }
    ensures { OnOk result (Prints (Fires core.old (number_of core.old.settings.node core.old.log key.now) generation
        core.new) out.old.items out.new.items) }
{
    match core.number_of(key) {
        Some(machine) => {
            let step = Step::Fired {
                machine,
                generation,
            };
            try_step(alloc, core, registries, room, step, out)
        }
        None => put_refused(out, StepFault::Unknown),
    }
}

/// Takes the next step that carries or handles what waits, and puts its entry.
fn take_next(
    alloc: Global,
    core: &mut Core,
    registries: &[Registry],
    room: &mut Stepped,
    step: Step,
    out: &mut Vec<u8>,
) -> Result<(), AllocError>
    requires by { IsRunBy core.old (map (λ r. r.book) registries.now) }
    requires next { next_settled core.old ≡ Some step }
    ensures { OnOk result (Prints (TakesTold core.old step core.new) out.old.items out.new.items) }
{
    match core.step(registries, step, room) {
        Ok(()) => {
            put_last(alloc, core, out)?;
            Ok(())
        }
        // It may be taken, so what lacks is memory.
        Err(_) => Err(AllocError),
    }
}

/// Carries and handles what waits until nothing is left that could be, and puts the entries.
pub(crate) fn settle(
    alloc: Global,
    core: &mut Core,
    registries: &[Registry],
    room: &mut Stepped,
    out: &mut Vec<u8>,
) -> Result<(), AllocError>
    requires { IsRunBy core.old (map (λ r. r.book) registries.now) }
    ensures { OnOk result (Prints (Settles core.old core.new) out.old.items out.new.items) }
{
    'steps: while let Some(step) = next_settled(core) {
        take_next(alloc, core, registries, room, step, out)?;
        // A log has no more entries than it may, so that this ends.
        let _entries = core.log().len();
    }
    Ok(())
}
