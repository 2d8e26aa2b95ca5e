//! Steps that are refused for memory: nothing changes, and they are taken when they are tried again.
//!
//! Where memory is there nothing is put. `tools/memory` refuses each allocation of a run in turn:
//! what a step that was refused for it leaves is compared with a twin, and the step is tried again.

use crate::transcript::is_played;
use bench_item::{Step, StepFault};
use bench_play::{Play, all_of, step_of};
use bench_world::TakesSteps;
use std::alloc::{AllocError, Global};

/// The step of a line.
fn asked<B: TakesSteps>(
    alloc: Global,
    list: &str,
    world: &B,
    line: &str,
) -> Result<Step, AllocError> {
    match step_of(alloc, list, world.core(), line)? {
        Some(step) => Ok(step),
        None => Ok(Step::Work(u32::MAX)),
    }
}

/// The number of the fault with which a step is refused, 0 where it is taken.
fn fault_of<B: TakesSteps>(world: &mut B, step: Step) -> u8 {
    match world.step(step) {
        Ok(()) => 0,
        Err(fault) => fault.number(),
    }
}

/// What is told of a step that was refused for memory, by what is shown and by what comes of it when it is tried again.
fn told_of(same: bool, again: u8) -> &'static str {
    if !same {
        " changed\n"
    } else if again == StepFault::NoMemory.number() {
        " refused twice\n"
    } else {
        " refused once\n"
    }
}

/// Takes the step of a line, again if it was refused for memory. The twin stands where the world stood before.
/// What is told of that; nothing where there was memory.
fn tries<B: TakesSteps>(
    alloc: Global,
    list: &str,
    world: &mut B,
    twin: &B,
    line: &str,
) -> Result<(u8, &'static str), AllocError> {
    let step = asked(alloc, list, world, line)?;
    let first = fault_of(world, step);
    if first != StepFault::NoMemory.number() {
        return Ok((first, ""));
    }
    let shown = all_of(alloc, world.core())?;
    let wanted = all_of(alloc, twin.core())?;
    let step = asked(alloc, list, world, line)?;
    let again = fault_of(world, step);
    let same = shown.as_slice() == wanted.as_slice();
    Ok((again, told_of(same, again)))
}

/// Takes the steps of all lines in two worlds; whether both show the same at the end. What is told of memory is put.
fn are_tried<B: TakesSteps>(
    alloc: Global,
    list: &str,
    world: &mut B,
    twin: &mut B,
    lines: &str,
    out: &mut Vec<u8>,
) -> Result<bool, AllocError> {
    let mut same = true;
    for line in lines.split('\n') {
        if !is_played(line) {
            continue;
        }
        let (fault, told) = tries(alloc, list, world, twin, line)?;
        out.extend_from_slice(told.as_bytes())?;
        let (other, told) = tries(alloc, list, twin, world, line)?;
        if told == " refused twice\n" {
            out.extend_from_slice(told.as_bytes())?;
        }
        same = same && fault == other;
    }
    let shown = all_of(alloc, world.core())?;
    let wanted = all_of(alloc, twin.core())?;
    Ok(same && shown.as_slice() == wanted.as_slice())
}

/// Takes the steps of all lines in two worlds of one node, the last two.
/// What goes wrong is put, and what was refused for memory.
pub fn take_in_lockstep<B: TakesSteps + Drop>(
    play: &mut Play<'_, B>,
    lines: &str,
    report: &mut Vec<u8>,
) -> Result<(), AllocError> {
    let (Some(mut twin), Some(mut world)) = (play.worlds.pop(), play.worlds.pop()) else {
        return Ok(());
    };
    if !are_tried(play.alloc, play.list, &mut world, &mut twin, lines, report)? {
        report.extend_from_slice(b" not the same\n")?;
    }
    Ok(())
}
