//! Entries with the stamps that were drawn for them.
ghost use Rattle.std.specs.Prelude.{◌≡◌, ◌<◌, [], OnOk, length, map};
ghost use Rattle.bench_parts.specs.Views.{kept_in};
ghost use Rattle.bench_spec.specs.Merged.{Did};
ghost use Rattle.bench_spec.specs.Refusal.{is_log_full};
ghost use Rattle.live_parts.specs.Stamps.{added, entries_in};

use bench_item::MAX_ENTRIES;
use bench_log::{KeptEntry, Log, LogError};
use bench_parts::Lent;
use std::alloc::{AllocError, Global};
use std::marker::Model;

/// The entries of a part of a log, in order, each with the stamp that was drawn for it.
/// A contract sees these, and how many more it takes without memory.
///
/// In: `reserve`, then `put`. Looks: `len`, `is_full`, `stamps`, `log`, `lent`.
pub struct StampedLog {
    log: Log,
    stamps: Vec<u64>,
}

// A derived `drop` is proved anew in each crate that holds a part; this one is a call.
impl Drop for StampedLog {
    fn drop(self) {
        let StampedLog { log, stamps } = self;
    }
}

impl Model for StampedLog {
    ghost use Rattle.std.specs.Prelude.{◌≡◌, ◌≤◌, ◌+◌, length, vec_len, vec_capacity};
    ghost use Rattle.bench_parts.specs.Views.{stamped_of};
    ghost use Rattle.live_parts.specs.Stamps.{StampedView};

    ghost Value = { StampedView };

    ghost view = { λ s. record { entries = stamped_of s.stamps.items s.log.entries; room = s.log.room } };

    ghost invariant = { λ s. (length s.stamps.items ≡ length s.log.entries)
        × (s.log.room ≤ 1) × (vec_len s.stamps + s.log.room ≤ vec_capacity s.stamps) };
}

impl StampedLog {
    /// No entries. Takes no memory.
    pub fn new(alloc: Global) -> StampedLog
        ensures { result ≡ record { entries = []; room = 0 } }
    {
        StampedLog {
            log: Log::new(alloc),
            stamps: Vec::new(alloc),
        }
    }

    /// How many entries there are.
    pub fn len(&self) -> usize
        ensures { result ≡ length (entries_in self.now) }
    {
        self.log.len()
    }

    /// Whether there are as many as there may be.
    pub fn is_full(&self) -> bool
        ensures { result ≡ is_log_full (entries_in self.now) }
    {
        self.len() >= MAX_ENTRIES
    }

    /// Makes room for one more entry of a log that is not full.
    pub fn reserve(&mut self) -> Result<(), AllocError>
        ensures room { OnOk result (0 < self.new.room) }
        ensures entries { self.new.entries ≡ self.old.entries }
    {
        self.stamps.reserve(1)?;
        match self.log.reserve(1) {
            Ok(()) => Ok(()),
            Err(LogError::Full | LogError::NoMemory) => Err(AllocError),
        }
    }

    /// Adds an entry with its stamp, for which there is room. Takes no memory.
    pub fn put(&mut self, stamp: u64, entry: KeptEntry)
        requires { 0 < self.old.room }
        ensures { self.new ≡ added self.old stamp entry }
    {
        self.log.put(entry);
        self.stamps.push(stamp).unwrap();
    }

    /// The entries with their stamps, lent to who gathers them.
    pub fn lent(&self) -> Lent<'_>
        ensures { kept_in result ≡ map Did self.now.entries }
    {
        Lent::Entries {
            stamps: &self.stamps,
            log: &self.log,
        }
    }

    /// The stamps, in order.
    pub fn stamps(&self) -> &[u64]
        ensures { result.now ≡ map (λ s. s.stamp) self.now.entries }
    {
        &self.stamps
    }

    /// The entries, in order.
    pub fn log(&self) -> &Log
        ensures { result.now.entries ≡ entries_in self.now }
    {
        &self.log
    }
}
