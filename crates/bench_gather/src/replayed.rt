//! A log is replayed from the opening on.
ghost use Rattle.std.specs.Prelude.{◌≡◌, ◌<◌, [], length};
ghost use Rattle.bench_gather.specs.Replayed.{IsReplayed, ReplaysAt};

use crate::fault::GatherFault;
use crate::unwind::unwind;
use bench_core::{Core, ReplayError};
use bench_log::Log;
use std::alloc::Global;
use tab_step::Stepped;

/// Adds the entry at a place of the log, where it may follow.
fn replay_at(
    alloc: Global,
    core: &mut Core,
    log: &Log,
    place: usize,
    room: &mut Stepped,
) -> Result<(), GatherFault>
    requires { place < length log.now.entries }
    ensures { ReplaysAt core.old core.new log.now.entries place result }
{
    match log.entry(place, alloc)? {
        None => unreachable!(),
        Some(entry) => match core.replay(entry, room) {
            Ok(()) => Ok(()),
            Err(ReplayError::Illegal) => {
                core.known();
                Err(GatherFault::Disagree(place))
            }
            Err(ReplayError::NoMemory) => Err(GatherFault::NoMemory),
        },
    }
}

/// Replays a log on a world at its opening. Where it is not legal, the fault tells how many of its entries are, the
/// most; then, and where memory is refused, the world is as it was. No callback is asked. `room` is where moves are
/// checked, and what stands there is gone.
pub fn replay_log(
    alloc: Global,
    core: &mut Core,
    log: &Log,
    room: &mut Stepped,
) -> Result<(), GatherFault>
    requires { core.old.log ≡ [] }
    ensures { IsReplayed core.old core.new log.now.entries result }
{
    for place in 0..log.len() {
        if let Err(fault) = replay_at(alloc, core, log, place, room) {
            unwind(core);
            return Err(fault);
        }
    }
    core.known();
    Ok(())
}
