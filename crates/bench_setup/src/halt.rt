//! What stands in the way before a bench is opened.
ghost use Rattle.std.specs.Prelude.{◌≡◌, ◌<◌, ◌≤◌, ◌-◌, ◌^◌, max};
ghost use Rattle.base_device.specs.Inputs.{IsToldUnread};
ghost use Rattle.bench_setup.specs.Halts.{IsToldHalt};
ghost use Rattle.bench_setup.specs.declared.halt.Halt.TheVariants.{NoMemory};

use base_device::{ByteSink, InputError, MAX_IDLE_WRITES, Status, tell, tell_unread};
use std::alloc::{AllocError, AllocFailed, Global};

/// What stands in the way before a bench is opened.
#[derive(Drop)]
pub enum Halt {
    /// An input was not read whole: the file of that name, or standard input.
    Unread(Option<String>, InputError),
    /// What was read is refused, with this text.
    Refused(Vec<u8>),
    NoMemory,
}

impl From<AllocError> for Halt {
    ghost from_gives = { λ _ e. e ≡ NoMemory };

    fn from(_e: AllocError) -> Halt {
        Halt::NoMemory
    }
}

impl<T: Drop> From<AllocFailed<T>> for Halt {
    ghost from_gives = { λ _ e. e ≡ NoMemory };

    fn from(_e: AllocFailed<T>) -> Halt {
        Halt::NoMemory
    }
}

/// Tells why an input was not read whole.
fn tell_named<O: ByteSink>(
    alloc: Global,
    name: Option<String>,
    why: InputError,
    sink: &mut O,
) -> Status
    requires idle { O.idle sink.old ≡ 0 }
    requires failures { O.failures sink.old < 2 ^ 64 - 1 }
    ensures told { IsToldUnread O.contents O.failures O.idle sink.old sink.new why result }
    ensures row { O.most_idle sink.new ≤ max (O.most_idle sink.old) MAX_IDLE_WRITES }
{
    match name {
        Some(name) => tell_unread(alloc, Some(name.as_str()), why, sink),
        None => tell_unread(alloc, None, why, sink),
    }
}

/// Tells what stands in the way.
pub fn tell_halt<O: ByteSink>(alloc: Global, halt: Halt, sink: &mut O) -> Status
    requires idle { O.idle sink.old ≡ 0 }
    requires failures { O.failures sink.old < 2 ^ 64 - 1 }
    ensures told { IsToldHalt O.contents O.failures O.idle sink.old sink.new halt result }
    ensures row { O.most_idle sink.new ≤ max (O.most_idle sink.old) MAX_IDLE_WRITES }
{
    match halt {
        Halt::Unread(name, why) => tell_named(alloc, name, why, sink),
        Halt::Refused(text) => tell(sink, &text, Status::Refused),
        Halt::NoMemory => tell(sink, b"no memory\n", Status::NoMemory),
    }
}
