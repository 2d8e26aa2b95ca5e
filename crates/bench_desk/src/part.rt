//! A shard with the stamped entries of what was done to it.
ghost use Rattle.std.specs.Prelude.{◌≡◌, ◌<◌, ◌+◌, ◌^◌, [], IfOk, IfErr, OnOk, OnErr, count_by};
ghost use Rattle.std.specs.Prelude.{length, nat_lt, vec_len, vec_capacity};
ghost use Rattle.std.specs.Arc.{arc_value};
ghost use Rattle.bench_item.specs.Keys.{home, node_of};
ghost use Rattle.bench_item.specs.Steps.{is_same_source};
ghost use Rattle.bench_item.specs.declared.source.Source.TheVariants.{Desk};
ghost use Rattle.bench_queue.specs.Inbox.{nothing_in};
ghost use Rattle.bench_queue.specs.Inbox.{items_in};
ghost use Rattle.bench_shard.specs.Stands.{HasMachines};
ghost use Rattle.bench_spec.specs.Refusal.{is_crowded, is_log_full};
ghost use Rattle.bench_desk.specs.Parts.{arrive_error, drop_entry, entries_in, handled_from, inbox_by, node_in};
ghost use Rattle.bench_desk.specs.Runs.{AreRuns};
ghost use Rattle.bench_desk.specs.Parts.{is_full, waiting_from, with_arrival};

use bench_item::{MAX_ENTRIES, MAX_WAITING, Source};
use bench_log::{KeptEntry, KeptItem, KeptMachineItem, Log, LogError};
use bench_move::Roles;
use bench_shard::{PutError, ShardState};
use std::alloc::{AllocError, Global};
use std::marker::Model;
use std::sync::Arc;

/// A shard with its tables, and the entries of its part of the log: its Work, what was lifted from it, and
/// what was dropped at it. Each entry has the stamp that was drawn for it. A contract sees the tables, the
/// shard and the stamped entries.
///
/// In: `arrive`. Looks: `known`, `shard`, `roles`, `counts`, `has_waiting`, `is_full`, `len`, `stamp`, `entry`.
pub struct ShardPart {
    pub(crate) alloc: Global,
    pub(crate) roles: Arc<Roles, Global>,
    pub(crate) shard: ShardState,
    // Who put each item there, in the order in which they came.
    pub(crate) sources: Vec<Source>,
    pub(crate) log: Log,
    pub(crate) stamps: Vec<u64>,
}

// A derived `drop` is proved anew in each crate that holds a part; this one is a call.
impl Drop for ShardPart {
    fn drop(self) {
        let ShardPart {
            alloc: _,
            roles,
            shard,
            sources,
            log,
            stamps,
        } = self;
    }
}

impl Model for ShardPart {
    ghost use Rattle.std.specs.Prelude.{◌≡◌, length};
    ghost use Rattle.std.specs.Arc.{arc_value};
    ghost use Rattle.bench_desk.specs.Parts.{IsKept, PartView};
    ghost use Rattle.bench_parts.specs.Views.{stamped_of};

    ghost Value = { PartView };

    ghost view = { λ p.
        record { tables = arc_value p.roles; shard = p.shard; entries = stamped_of p.stamps.items p.log.entries } };

    ghost invariant = { λ p. IsKept (arc_value p.roles) p.shard p.sources.items p.log.entries
        × (length p.stamps.items ≡ length p.log.entries) };
}

/// Makes room for one more entry of a log that is not full, for its stamp, and for its source. Nothing else changes.
fn make_room(
    log: &mut Log,
    stamps: &mut Vec<u64>,
    sources: &mut Vec<Source>,
) -> Result<(), AllocError>
    ensures log { OnOk result (0 < log.new.room) }
    ensures stamps { OnOk result (vec_len stamps.new < vec_capacity stamps.new) }
    ensures sources { OnOk result (vec_len sources.new < vec_capacity sources.new) }
    ensures entries { log.new.entries ≡ log.old.entries }
    ensures drawn { stamps.new.items ≡ stamps.old.items }
    ensures came { sources.new.items ≡ sources.old.items }
{
    stamps.reserve(1)?;
    sources.reserve(1)?;
    match log.reserve(1) {
        Ok(()) => Ok(()),
        Err(LogError::Full | LogError::NoMemory) => Err(AllocError),
    }
}

/// The entry of an item that a source drops at a shard, which the entry shares.
fn drop_entry(source: Source, item: &KeptMachineItem) -> Result<KeptEntry, AllocError>
    ensures { IfOk result (λ entry. entry ≡ drop_entry source item.now) }
{
    let own = item.copy()?;
    Ok(KeptEntry::of_drop(source, Some(KeptItem::of_event(own))))
}

/// Whether a source is that desk.
fn is_desk(source: Source, desk: u32) -> bool
    ensures { result ≡ is_same_source (Desk desk) source }
{
    match source {
        Source::Desk(other) => desk == other,
        Source::Line(_) | Source::Shard(_) | Source::Clock => false,
    }
}

/// How many of these a desk put there.
fn count_of(sources: &[Source], desk: u32) -> usize
    ensures { result ≡ count_by (is_same_source (Desk desk)) sources.now }
{
    let mut count = 0;
    for source in sources {
        if is_desk(*source, desk) {
            count += 1;
        }
    }
    count
}

impl ShardPart {
    /// The part of a shard to which nothing came yet. Takes no memory.
    pub fn new(alloc: Global, roles: Arc<Roles, Global>, shard: ShardState) -> ShardPart
        requires inbox { shard.inbox ≡ nothing_in }
        requires machines { HasMachines (node_of (arc_value roles).laws shard.peers) [] shard }
        ensures { result ≡ record { tables = arc_value roles; shard = shard; entries = [] } }
    {
        ShardPart {
            alloc,
            roles,
            shard,
            sources: Vec::new(alloc),
            log: Log::new(alloc),
            stamps: Vec::new(alloc),
        }
    }

    /// What it is, whatever was done with it: what its part of the log says. What came and how much of it was handled;
    /// its machines, each where its last move left it; and of each that its moves are a run of its role's table from
    /// its start, by the first row that takes an event (RFC 6733 section 5.6, RFC 8506 section 7).
    pub fn known(&self)
        ensures inbox { self.now.shard.inbox ≡ inbox_by self.now }
        ensures machines { HasMachines (node_in self.now) (entries_in self.now) self.now.shard }
        ensures runs { AreRuns self.now.tables self.now.shard.peers (entries_in self.now) }
    {
        let _entries = self.log.len();
    }

    /// The shard.
    pub fn shard(&self) -> &ShardState
        ensures { result.now ≡ self.now.shard }
    {
        &self.shard
    }

    /// Its tables and laws.
    pub fn roles(&self) -> &Roles
        ensures { result.now ≡ self.now.tables }
    {
        &self.roles
    }

    /// How many entries its part of the log has.
    pub fn len(&self) -> usize
        ensures { result ≡ length (entries_in self.now) }
    {
        self.log.len()
    }

    // Whether as many items wait as may.
    fn is_crowded(&self) -> bool
        ensures { result ≡ is_crowded (items_in self.now.shard.inbox) }
    {
        self.shard.waiting() >= MAX_WAITING
    }

    // Whether its part of the log has as many entries as it may.
    pub(crate) fn is_log_full(&self) -> bool
        ensures { result ≡ is_log_full (entries_in self.now) }
    {
        self.len() >= MAX_ENTRIES
    }

    /// Whether no item may come: as many wait as may, or the part has as many entries as it may.
    pub fn is_full(&self) -> bool
        ensures { result ≡ is_full self.now }
    {
        self.is_crowded() || self.is_log_full()
    }

    /// How many items of a desk wait there, and how many were handled. Takes no memory.
    pub fn counts(&self, desk: u32) -> (u64, u64)
        ensures counts { result ≡ (waiting_from self.now desk, handled_from self.now desk) }
        ensures fits { result.0 + result.1 < 2 ^ 64 }
    {
        let worked = self.sources.len().saturating_sub(self.shard.waiting());
        let handled = count_of(&self.sources[..worked], desk);
        let waiting = count_of(&self.sources[worked..], desk);
        (waiting as u64, handled as u64)
    }

    /// Whether an item of a desk waits there. Takes no memory.
    pub fn has_waiting(&self, desk: u32) -> bool
        ensures { result ≡ nat_lt 0 (waiting_from self.now desk) }
    {
        let worked = self.sources.len().saturating_sub(self.shard.waiting());
        count_of(&self.sources[worked..], desk) > 0
    }

    /// An item comes from a source, behind the others: a Drop, with the stamp that was drawn for it.
    /// It is to be for this shard. Inbox and entry share it.
    pub fn arrive(
        &mut self,
        source: Source,
        stamp: u64,
        item: &KeptMachineItem,
    ) -> Result<(), PutError>
        requires { home self.old.shard.peers.shards item.now.key.name ≡ self.old.shard.number }
        ensures ok { OnOk result (self.new ≡ with_arrival self.old source stamp item.now) }
        ensures fault { IfErr result (λ e. e ≡ arrive_error self.old) }
        // A refused call changes nothing.
        ensures err { OnErr result (self.new ≡ self.old) }
    {
        if self.is_full() {
            return Err(PutError::Full);
        }
        let entry = drop_entry(source, item)?;
        let own = item.copy()?;
        make_room(&mut self.log, &mut self.stamps, &mut self.sources)?;
        self.shard.put_kept(own)?;
        self.log.put(entry);
        self.stamps.push(stamp).unwrap();
        self.sources.push(source).unwrap();
        Ok(())
    }
}
