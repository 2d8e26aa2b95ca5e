//! The records of all steps.
ghost use Rattle.std.specs.Prelude.{◌≡◌, ◌<◌, ◌≤◌, ◌++◌, ◌∷◌, ◌-◌, [], IsOk, OnOk, OnErr, IfSome, IfNone, length, max};

use crate::undo::Undo;
use std::alloc::{AllocError, Global};
use std::marker::Model;

/// The records of all steps that were taken, in their order.
/// A contract sees them as a list, with how many more can be put without memory.
pub struct UndoLog {
    records: Vec<Undo>,
    // So many records can be put without memory.
    room: usize,
}

// A derived `drop` is proved anew in each crate that holds a log; this one is a call.
impl Drop for UndoLog {
    fn drop(self) {
        let UndoLog { records, room: _ } = self;
    }
}

impl Model for UndoLog {
    ghost use Rattle.std.specs.Prelude.{◌+◌, ◌≤◌, vec_len, vec_capacity};
    ghost use Rattle.bench_undo.specs.Records.{UndoState};

    ghost Value = { UndoState };

    ghost view = { λ l. record { records = l.records.items; room = l.room } };

    ghost invariant = { λ l. vec_len l.records + l.room ≤ vec_capacity l.records };
}

impl UndoLog {
    /// No records. Takes no memory.
    pub fn new(alloc: Global) -> UndoLog
        ensures { result ≡ record { records = []; room = 0 } }
    {
        UndoLog {
            records: Vec::new(alloc),
            room: 0,
        }
    }

    /// How many records there are.
    pub fn len(&self) -> usize
        ensures { result ≡ length self.now.records }
    {
        self.records.len()
    }

    /// Makes room for so many more records, which can then be put without fail.
    pub fn reserve(&mut self, n: usize) -> Result<(), AllocError>
        ensures ok { OnOk result (self.new ≡ record { records = self.old.records; room = max self.old.room n }) }
        // A refused call changes nothing.
        ensures err { OnErr result (self.new ≡ self.old) }
        ensures there { n ≤ self.old.room → IsOk result }
    {
        self.records.reserve(n)?;
        self.room = self.room.max(n);
        Ok(())
    }

    /// Puts a record for which there is room. Takes no memory.
    pub fn put(&mut self, undo: Undo)
        requires { 0 < self.old.room }
        ensures { self.new ≡ record { records = self.old.records ++ undo ∷ []; room = self.old.room - 1 } }
    {
        self.records.push(undo).unwrap();
        self.room -= 1;
    }

    /// Takes the last record, if there is one. Takes no memory.
    pub fn pop(&mut self) -> Option<Undo>
        ensures last { IfSome result (λ undo. self.old.records ≡ self.new.records ++ undo ∷ []) }
        ensures none { IfNone result ((self.old.records ≡ []) × (self.new ≡ self.old)) }
    {
        self.records.pop()
    }
}
