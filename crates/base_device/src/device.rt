//! Devices: what octets come from and go to. Each counts its calls, so that a fault has a cause
//! that a contract can name.
ghost use Rattle.std.specs.Prelude.{◌≡◌, ◌<◌, ◌+◌, ◌-◌, ◌^◌, ℕ, List, Option, max};
ghost use Rattle.std.specs.Io.{WritesAtMost};
ghost use Rattle.std.specs.Io.KnownBytes.{WriteAppends};
ghost use Rattle.base_device.specs.Devices.{counted, failures_after, idle_after, Blocks, BlocksIdle, Gives, Within};

use thiserror::Error;

/// A call of a device failed.
#[derive(Clone, Copy, Debug, PartialEq, Eq, Error)]
#[error("the device failed")]
pub struct DeviceFailed;

/// Where octets come from.
pub trait ByteSource {
    /// The octets that reads will give from here on, where they are known.
    ghost remaining: { Self → Option (List ℕ) };

    /// How many reads were made.
    ghost reads: { Self → ℕ };

    /// How many calls failed.
    ghost failures: { Self → ℕ };

    /// How many calls would have had to wait for octets; counted to 2^64 - 1.
    ghost blocked: { Self → ℕ };

    /// How many reads were made.
    fn reads(&self) -> u64
        ensures { result ≡ reads self.now };

    /// How many calls failed.
    fn failures(&self) -> u64
        ensures { result ≡ failures self.now };

    /// How many calls would have had to wait: where this has grown over a call that gave nothing, that call is one.
    fn blocked(&self) -> u64
        ensures { result ≡ blocked self.now };

    /// Reads into the front of `buffer`, and says how many octets: 0 at the end of the input, `None` where the
    /// call was interrupted or would block, so that the caller may read again.
    fn read(&mut self, buffer: &mut [u8]) -> Result<Option<usize>, DeviceFailed>
        requires reads { reads self.old < 2 ^ 64 - 1 }
        requires failures { failures self.old < 2 ^ 64 - 1 }
        ensures within { Within result buffer.new }
        ensures octets { Gives (remaining self.old) (remaining self.new) result buffer.new }
        ensures reads { reads self.new ≡ reads self.old + 1 }
        ensures failures { failures self.new ≡ failures_after result (failures self.old) }
        ensures blocked { Blocks result (blocked self.old) (blocked self.new) };
}

/// Where octets go.
pub trait ByteSink {
    /// The octets that were taken, where they are known.
    ghost contents: { Self → Option (List ℕ) };

    /// How many calls failed.
    ghost failures: { Self → ℕ };

    /// How many writes in a row, up to now, took nothing.
    ghost idle: { Self → ℕ };

    /// The most writes in a row that took nothing.
    ghost most_idle: { Self → ℕ };

    /// How many writes were made; counted to 2^64 - 1.
    ghost writes: { Self → ℕ };

    /// How many calls would have had to wait for room; counted to 2^64 - 1.
    ghost blocked: { Self → ℕ };

    /// How many writes were made.
    fn writes(&self) -> u64
        ensures { result ≡ writes self.now };

    /// How many calls failed.
    fn failures(&self) -> u64
        ensures { result ≡ failures self.now };

    /// How many writes in a row, up to now, took nothing.
    fn idle(&self) -> u64
        ensures { result ≡ idle self.now };

    /// How many calls would have had to wait: where this has grown over a call that took nothing, that call is one.
    fn blocked(&self) -> u64
        ensures { result ≡ blocked self.now };

    /// Takes octets from the front of `octets`, and says how many; 0 where it took nothing, also where the call
    /// was interrupted or would block, so that the caller may write again.
    fn write(&mut self, octets: &[u8]) -> Result<usize, DeviceFailed>
        requires failures { failures self.old < 2 ^ 64 - 1 }
        requires idle { idle self.old < 2 ^ 64 - 1 }
        ensures within { WritesAtMost result octets.now }
        ensures octets { WriteAppends (contents self.old) (contents self.new) result octets.now }
        ensures failures { failures self.new ≡ failures_after result (failures self.old) }
        ensures idle { idle self.new ≡ idle_after result (idle self.old) }
        ensures most_idle { most_idle self.new ≡ max (most_idle self.old) (idle self.new) }
        ensures writes { writes self.new ≡ counted (writes self.old) }
        ensures blocked { BlocksIdle result (blocked self.old) (blocked self.new) };
}
