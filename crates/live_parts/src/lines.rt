//! The connections' part: what happens to them, and what is lifted from them.
ghost use Rattle.std.specs.Prelude.{◌≡◌, ◌+◌, [], None, Some, IfOk, IfErr, OnOk, OnErr, IsSome, length, map, unwrap_or};
ghost use Rattle.bench_item.specs.declared.source.Source.TheVariants as sources;
ghost use Rattle.bench_item.specs.declared.step.Step.TheVariants as steps;
ghost use Rattle.bench_line.specs.Lines.{came_refusal, dialled_refusal, lost_refusal, next_on};
ghost use Rattle.bench_parts.specs.Views.{kept_in};
ghost use Rattle.bench_spec.specs.Merged.{Did};
ghost use Rattle.live_parts.specs.Entries.{bare_entry, carried_entry};
ghost use Rattle.live_parts.specs.LineParts.{IsAdded, entries_of, fault_or_full, joined_refusal, lift_refusal};

use crate::entries::{bare_entry, lift_entry};
use crate::stamped::StampedLog;
use base_list::Octets;
use bench_item::{Source, Step, StepFault};
use bench_line::Lines;
use bench_log::{KeptEntry, KeptItem, Log};
use bench_parts::Lent;
use line_message::Listener;
use std::alloc::{AllocError, Global};
use std::marker::Model;

/// The connections of a node, and the entries of their part of the log: what happened to them, what was lifted from
/// them, and what was dropped at them. Each entry has the stamp that was drawn for it.
///
/// In: `joined`, `dialled`, `came`, `lost`, and `deliver`, `dial`, `undial` of what is dropped here. Out: `lift`.
/// Looks: `lines`, `len`, `stamps`, `log`, `lent`.
pub struct LinesPart {
    pub(crate) alloc: Global,
    pub(crate) lines: Lines<Listener>,
    pub(crate) log: StampedLog,
}

// A derived `drop` is proved anew in each crate that holds a part; this one is a call.
impl Drop for LinesPart {
    fn drop(self) {
        let LinesPart {
            alloc: _,
            lines,
            log,
        } = self;
    }
}

impl Model for LinesPart {
    ghost use Rattle.std.specs.Prelude.{map};
    ghost use Rattle.live_parts.specs.LineParts.{AreSo, LinesPartView};

    ghost Value = { LinesPartView };

    ghost view = { λ l. record { rules = l.lines.rules; lines = l.lines.lines; entries = l.log.entries } };

    ghost invariant = { λ l. AreSo l.lines.rules l.lines.lines (map (λ s. s.entry) l.log.entries) };
}

/// The entry of octets that came on a connection.
fn came_entry(alloc: Global, line: u32, piece: &[u8]) -> Result<KeptEntry, AllocError>
    ensures { IfOk result (λ kept. kept ≡ bare_entry (steps.Came line piece.now)) }
{
    let piece = Octets::from_slice(alloc, piece)?;
    Ok(KeptEntry::of_came(line, piece))
}

impl LinesPart {
    /// The part of connections of which none was opened yet. Takes no memory.
    pub fn new(alloc: Global, rules: Listener) -> LinesPart
        ensures { result ≡ record { rules = rules; lines = []; entries = [] } }
    {
        LinesPart {
            alloc,
            lines: Lines::new(alloc, rules),
            log: StampedLog::new(alloc),
        }
    }

    /// The connections.
    pub fn lines(&self) -> &Lines<Listener>
        ensures rules { result.now.rules ≡ self.now.rules }
        ensures lines { result.now.lines ≡ self.now.lines }
    {
        &self.lines
    }

    /// How many entries its part of the log has.
    pub fn len(&self) -> usize
        ensures { result ≡ length (entries_of self.now) }
    {
        self.log.len()
    }

    /// Its entries with their stamps, lent to who gathers them.
    pub fn lent(&self) -> Lent<'_>
        ensures { kept_in result ≡ map Did self.now.entries }
    {
        self.log.lent()
    }

    /// The stamps of its entries, in order.
    pub fn stamps(&self) -> &[u64]
        ensures { result.now ≡ map (λ s. s.stamp) self.now.entries }
    {
        self.log.stamps()
    }

    /// The entries of its part, in order.
    pub fn log(&self) -> &Log
        ensures { result.now.entries ≡ entries_of self.now }
    {
        self.log.log()
    }

    // Why nothing can be done, memory aside: what the connection says,
    // and then that the part has as many entries as it may.
    fn fault_or_full(&self, fault: Option<StepFault>) -> Option<StepFault>
        ensures { result ≡ fault_or_full self.now fault }
    {
        match fault {
            Some(fault) => Some(fault),
            None if self.log.is_full() => Some(StepFault::Full),
            None => None,
        }
    }

    /// The peer's side opened a connection. Answers its number.
    pub fn joined(&mut self, stamp: u64) -> Result<u64, StepFault>
        ensures number { IfOk result (λ line. line ≡ length self.old.lines + 1) }
        ensures could { OnOk result (joined_refusal self.old ≡ None) }
        ensures ok { OnOk result (IsAdded self.old self.new stamp (bare_entry steps.Joined)) }
        ensures fault { IfErr result (λ f. f ≡ unwrap_or (joined_refusal self.old) StepFault.NoMemory) }
        // A refused call changes nothing.
        ensures err { OnErr result (self.new ≡ self.old) }
    {
        if self.log.is_full() {
            return Err(StepFault::Full);
        }
        if self.lines.is_full() {
            return Err(StepFault::Full);
        }
        let entry = bare_entry(self.alloc, Step::Joined)?;
        self.log.reserve()?;
        let line = self.lines.joined()?;
        self.log.put(stamp, entry);
        Ok(line)
    }

    /// The dial of a connection was acknowledged.
    pub fn dialled(&mut self, line: u32, stamp: u64) -> Result<(), StepFault>
        ensures could { OnOk result (fault_or_full self.old (dialled_refusal self.old.lines line) ≡ None) }
        ensures ok { OnOk result (IsAdded self.old self.new stamp (bare_entry (steps.Dialled line))) }
        ensures fault { IfErr result (λ f. f
            ≡ unwrap_or (fault_or_full self.old (dialled_refusal self.old.lines line)) StepFault.NoMemory) }
        // A refused call changes nothing.
        ensures err { OnErr result (self.new ≡ self.old) }
    {
        if let Some(fault) = self.fault_or_full(self.lines.dialled_fault(line as u64)) {
            return Err(fault);
        }
        let entry = bare_entry(self.alloc, Step::Dialled(line))?;
        self.log.reserve()?;
        let _posted = self.lines.dialled(line as u64)?;
        self.log.put(stamp, entry);
        Ok(())
    }

    /// Octets came on a connection.
    pub fn came(&mut self, line: u32, piece: &[u8], stamp: u64) -> Result<(), StepFault>
        ensures could { OnOk result (fault_or_full self.old (came_refusal self.old.lines line) ≡ None) }
        ensures ok { OnOk result (IsAdded self.old self.new stamp (bare_entry (steps.Came line piece.now))) }
        ensures fault { IfErr result (λ f. f
            ≡ unwrap_or (fault_or_full self.old (came_refusal self.old.lines line)) StepFault.NoMemory) }
        // A refused call changes nothing.
        ensures err { OnErr result (self.new ≡ self.old) }
    {
        if let Some(fault) = self.fault_or_full(self.lines.came_fault(line as u64)) {
            return Err(fault);
        }
        let entry = came_entry(self.alloc, line, piece)?;
        self.log.reserve()?;
        let _came = self.lines.came(line as u64, piece)?;
        self.log.put(stamp, entry);
        Ok(())
    }

    /// A connection was lost, or its dial refused.
    pub fn lost(&mut self, line: u32, stamp: u64) -> Result<(), StepFault>
        ensures could { OnOk result (fault_or_full self.old (lost_refusal self.old.lines line) ≡ None) }
        ensures ok { OnOk result (IsAdded self.old self.new stamp (bare_entry (steps.Lost line))) }
        ensures fault { IfErr result (λ f. f
            ≡ unwrap_or (fault_or_full self.old (lost_refusal self.old.lines line)) StepFault.NoMemory) }
        // A refused call changes nothing.
        ensures err { OnErr result (self.new ≡ self.old) }
    {
        if let Some(fault) = self.fault_or_full(self.lines.lost_fault(line as u64)) {
            return Err(fault);
        }
        let entry = bare_entry(self.alloc, Step::Lost(line))?;
        self.log.reserve()?;
        let _posted = self.lines.lost(line as u64)?;
        self.log.put(stamp, entry);
        Ok(())
    }

    // Why nothing is lifted from a connection, memory aside.
    fn lift_refusal(&self, line: u32) -> Option<StepFault>
        ensures { result ≡ lift_refusal self.now line }
    {
        if self.lines.state(line as u64).is_none() {
            return Some(StepFault::Unknown);
        }
        if self.lines.next(line as u64).is_none() {
            return Some(StepFault::Nothing);
        }
        self.fault_or_full(None)
    }

    // The oldest item that waits on a connection, of which there is one.
    fn next(&self, line: u32) -> Result<KeptItem, AllocError>
        requires { IsSome (next_on self.now.lines line) }
        ensures { IfOk result (λ item. next_on self.now.lines line ≡ Some item) }
    {
        match self.lines.next(line as u64) {
            Some(item) => item.copy(),
            None => unreachable!(),
        }
    }

    /// Lifts the oldest item that waits on a connection, and hands it out. The entry shares it.
    pub fn lift(&mut self, line: u32, stamp: u64) -> Result<KeptItem, StepFault>
        ensures could { OnOk result (lift_refusal self.old line ≡ None) }
        ensures item { IfOk result (λ item. next_on self.old.lines line ≡ Some item) }
        ensures ok { IfOk result (λ item. IsAdded self.old self.new stamp
            (carried_entry (steps.Lift (sources.Line line)) item)) }
        ensures fault { IfErr result (λ f. f ≡ unwrap_or (lift_refusal self.old line) StepFault.NoMemory) }
        ensures err { OnErr result (self.new ≡ self.old) }
    {
        if let Some(fault) = self.lift_refusal(line) {
            return Err(fault);
        }
        let item = self.next(line)?;
        let entry = lift_entry(Source::Line(line), &item)?;
        self.log.reserve()?;
        let _change = self.lines.lift(line as u64);
        self.log.put(stamp, entry);
        Ok(item)
    }
}
