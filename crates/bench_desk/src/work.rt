//! A shard's part handles its oldest item, and hands on what it put out.
ghost use Rattle.std.specs.Prelude.{◌≡◌, ◌<◌, false, true, None, Some, IfOk, IfErr, OnOk, OnErr};
ghost use Rattle.std.specs.Prelude.{map, vec_len, vec_capacity, unwrap_or};
ghost use Rattle.bench_move.specs.Moves.{Holds};
ghost use Rattle.bench_queue.specs.Outbox.{items_out, next_out};
ghost use Rattle.bench_shard.specs.Tasks.{IsTask};
ghost use Rattle.bench_shard.specs.Works.{Fits};
ghost use Rattle.bench_spec.specs.Merged.{Did};
ghost use Rattle.bench_spec.specs.Refusal.{is_empty};
ghost use Rattle.bench_parts.specs.Views.{kept_in};
ghost use Rattle.bench_desk.specs.Parts.{entries_in};
ghost use Rattle.bench_desk.specs.Working.{IsDone, IsLifted, IsUnwritten, IsWorked, IsWritten};
ghost use Rattle.bench_desk.specs.Working.{key_in_part, lift_refusal, paused_part};
ghost use Rattle.bench_desk.specs.Working.{with_lift, work_refusal};

use crate::fault::CarryFault;
use crate::part::ShardPart;
use acct_book::Page;
use bench_item::{Key, MAX_MACHINES, Source};
use bench_log::{KeptEntry, KeptItem, Log, LogError};
use bench_move::{Roles, book_ops, make_page_room};
use bench_parts::Lent;
use bench_shard::{Effects, ShardState, Task, Work, WorkFault};
use std::alloc::{AllocError, Global};
use tab_call::Registry;
use tab_step::Stepped;

/// Makes room for one more entry of a log that is not full, and for its stamp. Nothing else changes.
fn make_room(log: &mut Log, stamps: &mut Vec<u64>) -> Result<(), AllocError>
    ensures log { OnOk result (0 < log.new.room) }
    ensures stamps { OnOk result (vec_len stamps.new < vec_capacity stamps.new) }
    ensures entries { log.new.entries ≡ log.old.entries }
    ensures drawn { stamps.new.items ≡ stamps.old.items }
{
    stamps.reserve(1)?;
    match log.reserve(1) {
        Ok(()) => Ok(()),
        Err(LogError::Full | LogError::NoMemory) => Err(AllocError),
    }
}

/// Writes what a shard is to do, all of it with the stamp that was drawn for it, or nothing where memory is refused.
fn write(
    shard: &mut ShardState,
    page: &mut Page,
    log: &mut Log,
    stamps: &mut Vec<u64>,
    stamp: u64,
    work: Work,
) -> Result<(), AllocError>
    requires { Fits shard.old work.item work.handled }
    ensures ok { OnOk result (IsWritten work stamp shard.old shard.new page.old page.new log.old.entries log.new.entries
        stamps.old.items stamps.new.items) }
    ensures err { OnErr result (IsUnwritten shard.old shard.new page.old page.new log.old.entries log.new.entries
        stamps.old.items stamps.new.items) }
{
    let Work {
        item,
        handled,
        effects,
    } = work;
    let Effects { posts, ops } = effects;
    let _shards = shard.peers().shards();
    let number = shard.number() as u32;
    make_room(log, stamps)?;
    make_page_room(page, ops.len())?;
    let _record = shard.commit(item.plain(), &handled, posts)?;
    book_ops(page, ops.as_slice());
    log.put(KeptEntry::of_work(number, item, handled));
    stamps.push(stamp).unwrap();
    Ok(())
}

/// Decides and writes what a shard is to do next.
fn do_task(
    alloc: Global,
    roles: &Roles,
    registry: &Registry,
    shard: &mut ShardState,
    page: &mut Page,
    log: &mut Log,
    stamps: &mut Vec<u64>,
    stamp: u64,
    task: Task,
    room: &mut Stepped,
) -> Result<(), AllocError>
    requires task { IsTask roles.now.laws shard.old task }
    requires laws { registry.now.book ≡ roles.now.laws }
    ensures ok { OnOk result (IsDone roles.now stamp shard.old shard.new page.old page.new log.old.entries
        log.new.entries stamps.old.items stamps.new.items) }
    ensures err { OnErr result (IsUnwritten shard.old shard.new page.old page.new log.old.entries log.new.entries
        stamps.old.items stamps.new.items) }
{
    let work = shard.prepare(alloc, roles, registry, page, task, room)?;
    write(shard, page, log, stamps, stamp, work)?;
    Ok(())
}

/// The oldest item that a shard put out and that waits, of which there is one.
fn next_post(shard: &ShardState) -> Result<KeptItem, AllocError>
    requires { is_empty (items_out shard.now.outbox) ≡ false }
    ensures { IfOk result (λ item. next_out shard.now.outbox ≡ Some item) }
{
    match shard.next_post_kept() {
        Some(item) => item.copy(),
        None => unreachable!(),
    }
}

/// Writes that the oldest item which a shard put out is lifted and taken out of its hand,
/// or nothing where memory is refused. The entry shares the item.
fn write_lift(
    shard: &mut ShardState,
    log: &mut Log,
    stamps: &mut Vec<u64>,
    stamp: u64,
) -> Result<(), AllocError>
    requires { is_empty (items_out shard.old.outbox) ≡ false }
    ensures ok { OnOk result (IsLifted stamp shard.old shard.new log.old.entries log.new.entries
        stamps.old.items stamps.new.items) }
    ensures err { OnErr result ((shard.new ≡ shard.old)
        × (log.new.entries ≡ log.old.entries) × (stamps.new.items ≡ stamps.old.items)) }
{
    let _shards = shard.peers().shards();
    let item = next_post(shard)?;
    let source = Source::Shard(shard.number() as u32);
    make_room(log, stamps)?;
    shard.lift();
    shard.drop_hand();
    log.put(KeptEntry::of_lift(source, Some(item)));
    stamps.push(stamp).unwrap();
    Ok(())
}

impl ShardPart {
    /// Why it does not work, memory aside: Paused; Nothing where no item waits;
    /// Full where its outbox lacks the room for a step, or its part has as many entries as it may. Takes no memory.
    pub fn work_refusal(&self) -> Option<WorkFault>
        ensures { result ≡ work_refusal self.now }
    {
        if let Some(fault) = self.shard.work_refusal() {
            return Some(fault);
        }
        if self.is_log_full() {
            return Some(WorkFault::Full);
        }
        None
    }

    /// What it is to do next. `Task::page` says which page of the account book that needs.
    pub fn task(&self) -> Result<Task, WorkFault>
        ensures task { IfOk result (IsTask self.now.tables.laws self.now.shard) }
        ensures could { OnOk result (work_refusal self.now ≡ None) }
        ensures fault { IfErr result (λ f. f ≡ unwrap_or (work_refusal self.now) WorkFault.NoMemory) }
    {
        if let Some(fault) = self.work_refusal() {
            return Err(fault);
        }
        match self.shard.task(self.alloc, &self.roles)? {
            Some(task) => Ok(task),
            None => unreachable!(),
        }
    }

    /// Handles its oldest item, as `task` told it, with the page of the account book that this needs, any page where it
    /// needs none: a Work, with the stamp that was drawn for it. A move is decided by the registry's callbacks, in
    /// `room`. Refused for memory alone.
    pub fn work(
        &mut self,
        registry: &Registry,
        page: &mut Page,
        task: Task,
        stamp: u64,
        room: &mut Stepped,
    ) -> Result<(), AllocError>
        requires task { IsTask self.old.tables.laws self.old.shard task }
        requires laws { registry.now.book ≡ self.old.tables.laws }
        ensures ok { OnOk result (IsWorked self.old self.new page.old page.new stamp) }
        // A refused call changes nothing.
        ensures err { OnErr result (self.new ≡ self.old) }
        ensures page { OnErr result (Holds page.old page.new page.old.book) }
    {
        do_task(
            self.alloc,
            &self.roles,
            registry,
            &mut self.shard,
            page,
            &mut self.log,
            &mut self.stamps,
            stamp,
            task,
            room,
        )
    }

    /// Why nothing is lifted, memory aside: Nothing where no item waits;
    /// Full where its part has as many entries as it may. Takes no memory.
    pub fn lift_refusal(&self) -> Option<CarryFault>
        ensures { result ≡ lift_refusal self.now }
    {
        if self.shard.posted() == 0 {
            return Some(CarryFault::Nothing);
        }
        if self.is_log_full() {
            return Some(CarryFault::Full);
        }
        None
    }

    /// Lifts the oldest item that it put out, and hands it out: a Lift, with the stamp that was drawn for it.
    pub fn lift(&mut self, stamp: u64) -> Result<KeptItem, CarryFault>
        ensures item { IfOk result (λ item. next_out self.old.shard.outbox ≡ Some item) }
        ensures ok { IfOk result (λ item. self.new ≡ with_lift self.old stamp item) }
        ensures fault { IfErr result (λ f. f ≡ unwrap_or (lift_refusal self.old) CarryFault.NoMemory) }
        // A refused call changes nothing.
        ensures err { OnErr result (self.new ≡ self.old) }
    {
        if let Some(fault) = self.lift_refusal() {
            return Err(fault);
        }
        let item = next_post(&self.shard)?;
        write_lift(&mut self.shard, &mut self.log, &mut self.stamps, stamp)?;
        Ok(item)
    }

    /// Stops: it handles nothing until it resumes. Nothing else changes.
    pub fn pause(&mut self)
        ensures { self.new ≡ paused_part self.old true }
    {
        self.shard.pause();
    }

    /// Goes on.
    pub fn resume(&mut self)
        ensures { self.new ≡ paused_part self.old false }
    {
        self.shard.resume();
    }

    /// The machine of that number, if it is one of the shard's.
    pub fn key_numbered(&self, machine: u64) -> Result<Option<Key>, AllocError>
        ensures { IfOk result (λ key. key ≡ key_in_part self.now machine) }
    {
        if machine / MAX_MACHINES as u64 != self.shard.number() as u64 {
            return Ok(None);
        }
        self.shard
            .key(self.alloc, (machine % MAX_MACHINES as u64) as usize)
    }

    /// Its entries with their stamps, lent to who gathers them.
    pub fn lent(&self) -> Lent<'_>
        ensures { kept_in result ≡ map Did self.now.entries }
    {
        Lent::Entries {
            stamps: &self.stamps,
            log: &self.log,
        }
    }

    /// The stamps of its entries, in order.
    pub fn stamps(&self) -> &[u64]
        ensures { result.now ≡ map (λ s. s.stamp) self.now.entries }
    {
        &self.stamps
    }

    /// The entries of its part, in order.
    pub fn log(&self) -> &Log
        ensures { result.now.entries ≡ entries_in self.now }
    {
        &self.log
    }
}
