//! What stands in the way of nodes of which all was read.
ghost use Rattle.std.specs.Prelude.{◌≡◌, ◌≢◌, ◌<◌, ◌≤◌, ◌-◌, ◌^◌, max};
ghost use Rattle.cmd_live.specs.Stops.{IsToldStop};
ghost use Rattle.cmd_live.specs.declared.opening.Refused.TheVariants.{NoMemory};
ghost use Rattle.cmd_live.specs.declared.stop.Stop.TheVariants as stops;

use crate::opening::Refused;
use base_device::{ByteSink, MAX_IDLE_WRITES, Status, tell};
use bench_setup::tell_halt;
use live_report::CopyError;
use node_logs::unwritten_text;
use std::alloc::{AllocError, Global};

/// What stands in the way of nodes.
#[derive(Drop)]
pub(crate) enum Stop {
    /// A node does not live.
    Refused(Refused),
    /// A file that a node names is not copied.
    Uncopied(CopyError),
}

impl From<Refused> for Stop {
    ghost from_gives = { λ why e. e ≡ stops.Refused why };

    fn from(why: Refused) -> Stop {
        Stop::Refused(why)
    }
}

impl From<CopyError> for Stop {
    ghost from_gives = { λ error e. e ≡ stops.Uncopied error };

    fn from(error: CopyError) -> Stop {
        Stop::Uncopied(error)
    }
}

impl From<AllocError> for Stop {
    ghost from_gives = { λ _ e. e ≡ stops.Refused NoMemory };

    fn from(_e: AllocError) -> Stop {
        Stop::Refused(Refused::NoMemory)
    }
}

/// Tells what stands in the way.
pub(crate) fn tell_stop<O: ByteSink>(alloc: Global, stop: Stop, sink: &mut O) -> Status
    requires idle { O.idle sink.old ≡ 0 }
    requires failures { O.failures sink.old < 2 ^ 64 - 1 }
    ensures told { IsToldStop O.contents O.failures O.idle sink.old sink.new stop result }
    ensures row { O.most_idle sink.new ≤ max (O.most_idle sink.old) MAX_IDLE_WRITES }
    ensures words { result ≢ Status.Usage }
{
    match stop {
        Stop::Refused(Refused::Told(text)) => tell(sink, &text, Status::Refused),
        Stop::Refused(Refused::Failed(text)) => tell(sink, &text, Status::Fault),
        Stop::Refused(Refused::NoMemory) => tell(sink, b"no memory\n", Status::NoMemory),
        Stop::Uncopied(CopyError::Unread(halt)) => tell_halt(alloc, halt, sink),
        Stop::Uncopied(CopyError::Unwritten(name)) => match unwritten_text(alloc, &name) {
            Ok(text) => tell(sink, &text, Status::Fault),
            Err(AllocError) => tell(sink, b"no memory\n", Status::NoMemory),
        },
    }
}
