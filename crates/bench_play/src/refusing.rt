//! Steps that are refused where a bench stands.

use base_list::Octets;
use bench_item::{Source, Step};
use bench_world::TakesSteps;
use std::alloc::{AllocError, Global};

/// Lines, shards and desks below this are tried, and machines.
const TRIED: u32 = 4;

/// Whether a step that may not be taken is refused for the reason that is looked up.
/// One that may be taken is not tried.
fn is_refused<B: TakesSteps>(world: &mut B, step: Step) -> bool {
    let Some(wanted) = world.core().refusal(&step) else {
        return true;
    };
    match world.step(step) {
        Ok(()) => false,
        Err(fault) => fault.number() == wanted.number(),
    }
}

/// Tries to carry from a source.
fn is_carrying_refused<B: TakesSteps>(world: &mut B, source: Source) -> bool {
    is_refused(world, Step::Lift(source)) && is_refused(world, Step::Drop(source))
}

/// Tries what happens to a line.
fn are_line_steps_refused<B: TakesSteps>(
    alloc: Global,
    world: &mut B,
    line: u32,
) -> Result<bool, AllocError> {
    let piece = Octets::from_slice(alloc, b"\x02")?;
    Ok(
        is_refused(world, Step::Dialled(line))
            && is_refused(world, Step::Lost(line))
            && is_refused(world, Step::Came { line, piece })
            && is_carrying_refused(world, Source::Line(line)),
    )
}

/// Tries a shard, a desk and a timer of that number.
fn are_others_refused<B: TakesSteps>(world: &mut B, number: u32) -> bool {
    let machine = u64::from(number);
    is_refused(world, Step::Work(number))
        && is_carrying_refused(world, Source::Shard(number))
        && is_carrying_refused(world, Source::Desk(number))
        && is_refused(
            world,
            Step::Fired {
                machine,
                generation: 1,
            },
        )
}

/// Tries steps, as far as they may not be taken: whether each is refused, for its reason, and no entry is added.
pub fn are_refused<B: TakesSteps>(alloc: Global, world: &mut B) -> Result<bool, AllocError> {
    let place = world.core().place();
    let mut all = is_carrying_refused(world, Source::Clock);
    for number in 0..TRIED {
        all = all && are_line_steps_refused(alloc, world, number)?;
        all = all && are_others_refused(world, number);
    }
    Ok(all && world.core().place() == place)
}
