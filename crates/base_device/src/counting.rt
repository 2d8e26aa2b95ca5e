//! Devices of the system, or of memory, with their calls counted.
ghost use Rattle.std.specs.Prelude.{◌≡◌, ◌⊎◌};
ghost use Rattle.base_device.specs.Devices.{counted};

use crate::device::{ByteSink, ByteSource, DeviceFailed};
use std::io::{ErrorKind, Read, Write};

/// Makes a `ByteSource` of any `Read`, and a `ByteSink` of any `Write`.
///
/// `flush` is never called: hand in a writer that keeps nothing back.
#[derive(Drop)]
pub struct Counting<T> {
    pub device: T,
    pub reads: u64,
    pub writes: u64,
    pub failures: u64,
    pub blocked: u64,
    pub idle: u64,
    pub most_idle: u64,
}

impl<T> Counting<T> {
    /// A device that has made no calls yet.
    pub fn new(device: T) -> Counting<T>
        ensures { result
            ≡ record { device = device; reads = 0; writes = 0; failures = 0; blocked = 0; idle = 0; most_idle = 0 } }
    {
        Counting {
            device,
            reads: 0,
            writes: 0,
            failures: 0,
            blocked: 0,
            idle: 0,
            most_idle: 0,
        }
    }
}

/// Whether a call that failed so failed in earnest: one that was interrupted or would block may be made again.
fn has_failed(kind: ErrorKind) -> bool {
    !matches!(kind, ErrorKind::Interrupted | ErrorKind::WouldBlock)
}

/// A count of the calls that would block, after one more call that answered this kind of error.
fn blocked_after(kind: ErrorKind, blocked: u64) -> u64
    ensures { (result ≡ blocked) ⊎ (result ≡ counted blocked) }
{
    if matches!(kind, ErrorKind::WouldBlock) {
        return blocked.saturating_add(1);
    }
    blocked
}

impl<T: Read> ByteSource for Counting<T> {
    ghost remaining = { λ s. T.remaining s.device };

    ghost reads = { λ s. s.reads };

    ghost failures = { λ s. s.failures };

    ghost blocked = { λ s. s.blocked };

    fn reads(&self) -> u64 {
        self.reads
    }

    fn failures(&self) -> u64 {
        self.failures
    }

    fn blocked(&self) -> u64 {
        self.blocked
    }

    fn read(&mut self, buffer: &mut [u8]) -> Result<Option<usize>, DeviceFailed> {
        self.reads += 1;
        match self.device.read(buffer) {
            Ok(count) => Ok(Some(count)),
            Err(error) => {
                let kind = error.kind();
                if has_failed(kind) {
                    self.failures += 1;
                    return Err(DeviceFailed);
                }
                self.blocked = blocked_after(kind, self.blocked);
                Ok(None)
            }
        }
    }
}

impl<T: Write> ByteSink for Counting<T> {
    ghost contents = { λ s. T.contents s.device };

    ghost failures = { λ s. s.failures };

    ghost idle = { λ s. s.idle };

    ghost most_idle = { λ s. s.most_idle };

    ghost writes = { λ s. s.writes };

    ghost blocked = { λ s. s.blocked };

    fn writes(&self) -> u64 {
        self.writes
    }

    fn failures(&self) -> u64 {
        self.failures
    }

    fn idle(&self) -> u64 {
        self.idle
    }

    fn blocked(&self) -> u64 {
        self.blocked
    }

    fn write(&mut self, octets: &[u8]) -> Result<usize, DeviceFailed> {
        self.writes = self.writes.saturating_add(1);
        let taken = match self.device.write(octets) {
            Ok(taken) => taken,
            Err(error) => {
                let kind = error.kind();
                if has_failed(kind) {
                    self.failures += 1;
                    self.most_idle = self.most_idle.max(self.idle);
                    return Err(DeviceFailed);
                }
                self.blocked = blocked_after(kind, self.blocked);
                0
            }
        };
        self.idle = if taken == 0 { self.idle + 1 } else { 0 };
        self.most_idle = self.most_idle.max(self.idle);
        Ok(taken)
    }
}
