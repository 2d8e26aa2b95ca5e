//! Text that goes out to a sink, whole or with a fault that has a cause.
ghost use Rattle.std.specs.Prelude.{◌≡◌, ◌<◌, ◌≤◌, ◌+◌, ◌-◌, ◌^◌, max, OnOk, OnErr, IfOk};
ghost use Rattle.base_device.specs.Devices.{HasWriteCause, IsTaken, TakesWhole, Tells};

use crate::device::{ByteSink, DeviceFailed};
use crate::status::Status;
use thiserror::Error;

/// How many writes in a row may take nothing.
pub const MAX_IDLE_WRITES: u64 = 1_048_576;

/// The sink failed, or took nothing in `MAX_IDLE_WRITES` writes in a row.
#[derive(Clone, Copy, Debug, PartialEq, Eq, Error)]
#[error("write fault")]
pub struct WriteFault;

/// Writes until the sink takes something, and says how many octets it took.
fn write_some<O: ByteSink>(sink: &mut O, octets: &[u8]) -> Result<usize, WriteFault>
    requires idle { O.idle sink.old ≡ 0 }
    requires failures { O.failures sink.old < 2 ^ 64 - 1 }
    ensures taken { IfOk result (λ count. IsTaken O.contents O.failures O.idle sink.old sink.new octets.now count) }
    ensures cause { OnErr result (HasWriteCause O.failures O.idle sink.old sink.new) }
    ensures row { O.most_idle sink.new ≤ max (O.most_idle sink.old) MAX_IDLE_WRITES }
{
    'tries: for _ in 0..MAX_IDLE_WRITES {
        let Ok(count) = sink.write(octets) else {
            return Err(WriteFault);
        };
        if count > 0 {
            return Ok(count);
        }
    }
    Err(WriteFault)
}

/// Hands all octets to the sink.
pub fn write_whole<O: ByteSink>(sink: &mut O, octets: &[u8]) -> Result<(), WriteFault>
    requires idle { O.idle sink.old ≡ 0 }
    requires failures { O.failures sink.old < 2 ^ 64 - 1 }
    ensures whole { OnOk result (TakesWhole O.contents O.failures O.idle sink.old sink.new octets.now) }
    ensures cause { OnErr result (HasWriteCause O.failures O.idle sink.old sink.new) }
    ensures row { O.most_idle sink.new ≤ max (O.most_idle sink.old) MAX_IDLE_WRITES }
{
    let mut at = 0;
    'pieces: while at < octets.len() {
        at += write_some(sink, &octets[at..])?;
    }
    Ok(())
}

/// Hands a text to the sink, and answers this status, or a fault where the sink doesn't take it.
pub fn tell<O: ByteSink>(sink: &mut O, text: &[u8], status: Status) -> Status
    requires idle { O.idle sink.old ≡ 0 }
    requires failures { O.failures sink.old < 2 ^ 64 - 1 }
    ensures told { Tells O.contents O.failures O.idle sink.old sink.new text.now status result }
    ensures row { O.most_idle sink.new ≤ max (O.most_idle sink.old) MAX_IDLE_WRITES }
{
    match write_whole(sink, text) {
        Ok(()) => status,
        Err(WriteFault) => Status::Fault,
    }
}
