//! One write.
ghost use Rattle.std.specs.Prelude.{◌≡◌, ◌<◌, ◌≤◌, ◌-◌, ◌+◌, ◌^◌, length, take};
ghost use Rattle.std.specs.Io.KnownBytes.{Appends};
ghost use Rattle.base_device.specs.Devices.{counted};
ghost use Rattle.bench_net.specs.Givens.{taken_of, IsPut};

use base_device::ByteSink;

/// What one write took.
#[derive(Drop)]
pub(crate) enum Put {
    /// So many octets, maybe none.
    Taken(usize),
    /// Nothing for now.
    Blocked,
    /// A fault.
    Failed,
}

/// Writes once.
pub(crate) fn write_once<O: ByteSink>(sink: &mut O, octets: &[u8]) -> Put
    requires failures { O.failures sink.old < 2 ^ 64 - 1 }
    requires idle { O.idle sink.old < 2 ^ 64 - 1 }
    requires blocked { O.blocked sink.old < 2 ^ 64 - 1 }
    ensures octets { Appends (O.contents sink.old) (O.contents sink.new) (take (taken_of result) octets.now) }
    ensures within { taken_of result ≤ length octets.now }
    ensures put { IsPut O.failures O.blocked sink.old sink.new result }
    ensures writes { O.writes sink.new ≡ counted (O.writes sink.old) }
    ensures idle { O.idle sink.new ≤ O.idle sink.old + 1 }
{
    let before = sink.blocked();
    let Ok(taken) = sink.write(octets) else {
        return Put::Failed;
    };
    if sink.blocked() > before {
        return Put::Blocked;
    }
    Put::Taken(taken)
}
