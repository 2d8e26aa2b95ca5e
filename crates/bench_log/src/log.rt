//! The log.
ghost use Rattle.std.specs.Prelude.{◌≡◌, ◌==◌, ◌-◌, ◌≤◌, ◌<◌, [], false, None, Ok, IsOk, IfOk, OnOk, OnErr};
ghost use Rattle.std.specs.Prelude.{IfErr, length, max};
ghost use Rattle.std.specs.List.{slice_get};
ghost use Rattle.std.specs.Option.{option_map, option_and_then};
ghost use Rattle.bench_log.specs.declared.log.LogError.TheVariants.{NoMemory};
ghost use Rattle.bench_log.specs.Moves.{machine_in, places_of};
ghost use Rattle.bench_log.specs.Logged.{added, cut, fault_of, is_past, with_room};

use crate::entry::KeptEntry;
use bench_item::{Entry, Item, MAX_ENTRIES, Step};
use std::alloc::{AllocError, AllocFailed, Global};
use std::marker::Model;
use thiserror::Error;

/// Why an entry is not added to the log. The log is then as it was.
#[derive(Clone, Copy, Debug, PartialEq, Eq, Error)]
pub enum LogError {
    /// The log has as many entries as it may.
    #[error("the log is full")]
    Full,
    /// There is room in the log, and memory was refused.
    #[error("out of memory")]
    NoMemory,
}

impl From<AllocError> for LogError {
    ghost from_gives = { λ _ e. e ≡ NoMemory };

    fn from(_e: AllocError) -> LogError {
        LogError::NoMemory
    }
}

impl<T: Drop> From<AllocFailed<T>> for LogError {
    ghost from_gives = { λ _ e. e ≡ NoMemory };

    fn from(_e: AllocFailed<T>) -> LogError {
        LogError::NoMemory
    }
}

/// The steps that were taken, in order, with what each carried and which machine it moved; 1,048,576 at most.
/// A contract sees the plain entries, and how many more the log takes without memory.
pub struct Log {
    entries: Vec<KeptEntry>,
    // So many entries can be put without memory.
    room: usize,
}

// A derived `drop` is proved anew in each crate that holds a log; this one is a call.
impl Drop for Log {
    fn drop(self) {
        let Log { entries, room: _ } = self;
    }
}

impl Model for Log {
    ghost use Rattle.std.specs.Prelude.{◌+◌, ◌≤◌, vec_len, vec_capacity};
    ghost use Rattle.bench_item.specs.declared.limit.TheConstants.{MAX_ENTRIES};
    ghost use Rattle.bench_log.specs.Logged.{Logged};

    ghost Value = { Logged };

    ghost view = { λ l. record { entries = l.entries.items; room = l.room } };

    ghost invariant = { λ l. (vec_len l.entries + l.room ≤ vec_capacity l.entries)
        × (vec_len l.entries + l.room ≤ MAX_ENTRIES) };
}

impl Log {
    /// A log without entries. Takes no memory.
    pub fn new(alloc: Global) -> Log
        ensures { result ≡ record { entries = []; room = 0 } }
    {
        Log {
            entries: Vec::new(alloc),
            room: 0,
        }
    }

    /// How many entries there are.
    pub fn len(&self) -> usize
        ensures count { result ≡ length self.now.entries }
        ensures within { result ≤ MAX_ENTRIES }
    {
        self.entries.len()
    }

    /// Whether there is none.
    pub fn is_empty(&self) -> bool
        ensures { result ≡ (length self.now.entries == 0) }
    {
        self.entries.is_empty()
    }

    /// Whether the log takes no more entries.
    pub fn is_full(&self) -> bool
        ensures { result ≡ is_past self.now.entries 1 }
    {
        self.is_past(1)
    }

    // Whether so many more entries are past the limit.
    fn is_past(&self, n: usize) -> bool
        ensures { result ≡ is_past self.now.entries n }
    {
        MAX_ENTRIES - self.entries.len() < n
    }

    /// Makes room for so many more entries, which can then be put without fail.
    pub fn reserve(&mut self, n: usize) -> Result<(), LogError>
        ensures ok { OnOk result (self.new ≡ with_room self.old (max self.old.room n)) }
        ensures within { OnOk result (is_past self.old.entries n ≡ false) }
        ensures fault { IfErr result (λ fault. fault ≡ fault_of self.old.entries n) }
        // A refused call changes nothing.
        ensures err { OnErr result (self.new ≡ self.old) }
        ensures there { n ≤ self.old.room → IsOk result }
    {
        if self.is_past(n) {
            return Err(LogError::Full);
        }
        self.entries.reserve(n)?;
        self.room = self.room.max(n);
        Ok(())
    }

    /// Adds an entry for which there is room. Takes no memory.
    pub fn put(&mut self, entry: KeptEntry)
        requires { 0 < self.old.room }
        ensures added { self.new ≡ added self.old entry }
        ensures within { is_past self.old.entries 1 ≡ false }
    {
        self.entries.push(entry).unwrap();
        self.room -= 1;
    }

    /// Adds an entry that was made ready by `KeptEntry::keep`.
    pub fn add(&mut self, entry: KeptEntry) -> Result<(), LogError>
        ensures ok { OnOk result (self.new ≡ added self.old entry) }
        ensures within { OnOk result (is_past self.old.entries 1 ≡ false) }
        ensures fault { IfErr result (λ fault. fault ≡ fault_of self.old.entries 1) }
        ensures err { OnErr result (self.new ≡ self.old) }
        ensures there { 0 < self.old.room → IsOk result }
    {
        self.reserve(1)?;
        self.put(entry);
        Ok(())
    }

    /// Adds an entry at the end.
    pub fn push(&mut self, alloc: Global, entry: &Entry) -> Result<(), LogError>
        ensures ok { OnOk result (self.new ≡ added self.old entry.now) }
        ensures within { OnOk result (is_past self.old.entries 1 ≡ false) }
        ensures fault { IfErr result (λ fault. fault ≡ fault_of self.old.entries 1) }
        ensures err { OnErr result (self.new ≡ self.old) }
    {
        if self.is_full() {
            return Err(LogError::Full);
        }
        let kept = KeptEntry::keep(alloc, entry)?;
        self.add(kept)
    }

    /// The entry at a place, counted from 0; none past the end.
    pub fn entry(&self, place: usize, alloc: Global) -> Result<Option<Entry>, AllocError>
        ensures entry { IfOk result (λ entry. entry ≡ slice_get self.now.entries place) }
        ensures past { length self.now.entries ≤ place → result ≡ Ok None }
    {
        match self.entries.get(place) {
            None => Ok(None),
            Some(kept) => Ok(Some(kept.show(alloc)?)),
        }
    }

    /// The last entry; none in an empty log.
    pub fn last(&self, alloc: Global) -> Result<Option<Entry>, AllocError>
        ensures entry { IfOk result (λ entry. entry ≡ slice_get self.now.entries (length self.now.entries - 1)) }
        ensures none { self.now.entries ≡ [] → result ≡ Ok None }
    {
        match self.len() {
            0 => Ok(None),
            count => self.entry(count - 1, alloc),
        }
    }

    /// The step of the entry at a place; none past the end.
    pub fn step(&self, place: usize, alloc: Global) -> Result<Option<Step>, AllocError>
        ensures step { IfOk result (λ step. step
            ≡ option_map (λ entry. entry.step) (slice_get self.now.entries place)) }
        ensures past { length self.now.entries ≤ place → result ≡ Ok None }
    {
        match self.entries.get(place) {
            None => Ok(None),
            Some(kept) => Ok(Some(kept.step(alloc)?)),
        }
    }

    /// The item of the entry at a place; none where it has none, and past the end.
    pub fn item(&self, place: usize, alloc: Global) -> Result<Option<Item>, AllocError>
        ensures item { IfOk result (λ item. item
            ≡ option_and_then (λ entry. entry.item) (slice_get self.now.entries place)) }
        ensures past { length self.now.entries ≤ place → result ≡ Ok None }
    {
        match self.entries.get(place) {
            None => Ok(None),
            Some(kept) => kept.item(alloc),
        }
    }

    /// The number of the machine that the entry at a place moved;
    /// none where it moved none, and past the end. Takes no memory.
    pub fn machine(&self, place: usize) -> Option<u64>
        ensures { result ≡ option_and_then machine_in (slice_get self.now.entries place) }
    {
        match self.entries.get(place) {
            None => None,
            Some(kept) => kept.machine(),
        }
    }

    /// The places of the entries that moved a machine, in order. Entries that were stale or too busy moved none.
    pub fn of_machine(&self, machine: u64, alloc: Global) -> Result<Vec<usize>, AllocError>
        ensures { IfOk result (λ places. places.items ≡ places_of machine self.now.entries) }
    {
        let mut places = Vec::new(alloc);
        for place in 0..self.len() {
            if self.entries[place].moves(machine) {
                places.push(place)?;
            }
        }
        Ok(places)
    }

    /// Keeps the first entries, as many as `len`, and drops those behind them. Takes no memory.
    pub fn truncate(&mut self, len: usize)
        ensures { self.new ≡ cut self.old len }
    {
        self.entries.truncate(len);
    }
}
