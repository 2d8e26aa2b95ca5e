//! What a shard's thread does.
ghost use Rattle.std.specs.Prelude.{◌≡◌, ◌<◌, None, Some};
ghost use Rattle.bench_desk.specs.Working.{work_refusal};
ghost use Rattle.bench_shard.specs.Tasks.{IsTask, page_of};
ghost use Rattle.bench_live.specs.Carried.{Lifts, Nexts};
ghost use Rattle.bench_live.specs.Worked.{Works};

use crate::point::{Gate, Point};
use crate::shared::{ShardLock, Shared};
use crate::slot::Slot;
use acct_book::Page;
use acct_pages::Pages;
use base_lock::hold;
use bench_desk::CarryFault;
use bench_item::Source;
use bench_shard::Task;
use live_slot::{Hand, Turn, draw};
use std::sync::Wait;
use std::sync::atomic::AtomicU64;
use std::thread;
use std::time::{Clock, Duration};

/// How long a thread rests where memory was refused, in milliseconds.
const REST: u64 = 10;

/// Rests where memory was refused.
pub(crate) fn rest<R: Clock>(rt: &R, refused: bool) {
    if refused {
        thread::sleep(rt, Duration::from_millis(REST));
    }
}

/// A shard whose lock is held handles its oldest item, as it was told, with a page.
fn work_with(slot: &mut Slot, page: &mut Page, task: Task, stamps: &AtomicU64) -> Turn
    requires task { IsTask slot.old.part.tables.laws slot.old.part.shard task }
    requires could { work_refusal slot.old.part ≡ None }
    ensures { Works result slot.old.part slot.new.part }
{
    let stamp = draw(stamps);
    match slot.work(page, task, stamp) {
        Ok(()) => Turn::Done,
        Err(_) => Turn::NoMemory,
    }
}

/// The same of what needs no page, with one that is nobody's: no other shard waits meanwhile.
fn work_apart(slot: &mut Slot, pages: u64, spare: &mut Page, task: Task, stamps: &AtomicU64) -> Turn
    requires none { page_of pages task.want ≡ None }
    requires task { IsTask slot.old.part.tables.laws slot.old.part.shard task }
    requires could { work_refusal slot.old.part ≡ None }
    ensures { Works result slot.old.part slot.new.part }
{
    work_with(slot, spare, task, stamps)
}

/// The same of what needs a page, under its lock.
fn work_paged<R: Wait>(
    rt: &R,
    slot: &mut Slot,
    pages: &Pages,
    number: u64,
    task: Task,
    stamps: &AtomicU64,
) -> Turn
    requires page { page_of pages.now task.want ≡ Some number }
    requires there { number < pages.now }
    requires task { IsTask slot.old.part.tables.laws slot.old.part.shard task }
    requires could { work_refusal slot.old.part ≡ None }
    ensures { Works result slot.old.part slot.new.part }
{
    let mut page = pages.lock(rt, number);
    work_with(slot, &mut page, task, stamps)
}

/// A shard whose lock is held handles its oldest item, under the lock of the page that it needs, if it needs one.
fn work_under<R: Wait>(
    rt: &R,
    slot: &mut Slot,
    pages: &Pages,
    spare: &mut Page,
    stamps: &AtomicU64,
) -> Turn
    ensures { Works result slot.old.part slot.new.part }
{
    if !slot.has_work() {
        return Turn::Idle;
    }
    let Ok(task) = slot.task() else {
        return Turn::NoMemory;
    };
    let count = pages.count();
    match task.page(count) {
        None => work_apart(slot, count, spare, task, stamps),
        Some(number) => work_paged(rt, slot, pages, number, task, stamps),
    }
}

/// Lifts the oldest item that a shard, whose lock is held, put out, with a stamp that is drawn now.
fn lift_under(slot: &mut Slot, stamps: &AtomicU64) -> (Option<Hand>, Turn)
    ensures { Lifts result.0 result.1 slot.old.part slot.new.part }
{
    match slot.lift(draw(stamps)) {
        Ok(hand) => (Some(named(slot, hand)), Turn::Done),
        Err(CarryFault::NoMemory) => (None, Turn::NoMemory),
        Err(CarryFault::Nothing | CarryFault::Full) => (None, Turn::Idle),
    }
}

/// The item with the key that goes with it, where memory is there for it.
fn named(slot: &Slot, hand: Hand) -> Hand
    ensures { result.item ≡ hand.item }
{
    let mut hand = hand;
    slot.name(&mut hand);
    hand
}

/// The item in the worker's hand, or the oldest that was put out where that is empty. That there may be room is heard
/// by this.
fn next_under(slot: &mut Slot, held: Option<Hand>, stamps: &AtomicU64) -> (Option<Hand>, Turn)
    ensures { Nexts held result.0 result.1 slot.old.part slot.new.part }
{
    slot.hear();
    match held {
        Some(hand) => (Some(named(slot, hand)), Turn::Idle),
        None => lift_under(slot, stamps),
    }
}

/// Carries what a shard put out where it is for, until nothing is left or an item finds no room, which stays in the
/// hand; where it has no patience, so does one whose lock another thread holds. Passes the gate behind each item that it
/// dropped at the connections, while it holds no lock.
fn carry<R: Wait, G: Gate>(
    rt: &R,
    shared: &Shared,
    gate: &G,
    shard: &ShardLock,
    number: u32,
    held: Option<Hand>,
    patient: bool,
) -> (Option<Hand>, Turn) {
    let mut hand = held;
    for _ in rt.forever() {
        let (lifted, turn) = next_under(&mut hold(rt, &shard.slot), hand, &shared.stamps);
        let Some(own) = lifted else {
            return (None, turn);
        };
        if !patient && shared.is_busy(&own) {
            return (Some(own), Turn::Idle);
        }
        let (dropped, at_lines) = shared.drop_item(rt, Source::Shard(number), &own);
        if dropped != Turn::Done {
            return (Some(own), dropped);
        }
        if at_lines {
            gate.pass(Point::Sent(number));
        }
        hand = None;
    }
    unreachable!()
}

/// Handles the oldest item of a shard. Says besides whether an item found no room there before.
fn handle<R: Wait, G: Gate>(
    rt: &R,
    shared: &Shared,
    gate: &G,
    shard: &ShardLock,
    spare: &mut Page,
    number: u32,
) -> (Turn, bool) {
    let mut slot = hold(rt, &shard.slot);
    let turn = work_under(rt, &mut slot, &shared.pages, spare, &shared.stamps);
    if turn != Turn::Done {
        return (turn, false);
    }
    gate.pass(Point::AfterWork(number));
    (turn, slot.take_wanted())
}

/// Handles the oldest item of a shard, and calls all where an item found no room there before.
fn work<R: Wait, G: Gate>(
    rt: &R,
    shared: &Shared,
    gate: &G,
    shard: &ShardLock,
    spare: &mut Page,
    number: u32,
) -> Turn {
    gate.pass(Point::BeforeWork(number));
    let (turn, wanted) = handle(rt, shared, gate, shard, spare, number);
    if wanted {
        shared.say_all(rt, false);
    }
    turn
}

/// Waits until there is something to do; not where it goes on at once. Says whether the bench ends.
fn wait<R: Wait>(rt: &R, shard: &ShardLock, has_hand: bool, again: bool) -> bool {
    let slot = shard.moved.wait_while(rt, hold(rt, &shard.slot), |slot| {
        !again && slot.is_idle(has_hand)
    });
    slot.ending
}

/// Carries what a shard put out, and handles its oldest item. Who has nothing to handle waits for a lock that is held.
/// Says what is in its hand then, and whether it goes on at once.
fn turn<R: Wait + Clock, G: Gate>(
    rt: &R,
    shared: &Shared,
    gate: &G,
    shard: &ShardLock,
    spare: &mut Page,
    number: u32,
    held: Option<Hand>,
) -> (Option<Hand>, bool) {
    let (left, carried) = carry(rt, shared, gate, shard, number, held, false);
    let worked = work(rt, shared, gate, shard, spare, number);
    if worked == Turn::Done {
        rest(rt, carried == Turn::NoMemory);
        return (left, true);
    }
    let (hand, carried) = carry(rt, shared, gate, shard, number, left, true);
    let refused = carried == Turn::NoMemory || worked == Turn::NoMemory;
    rest(rt, refused);
    (hand, refused)
}

/// Works a shard and carries what it puts out, until the bench ends.
pub fn run_worker<R: Wait + Clock, G: Gate>(rt: &R, shared: &Shared, gate: &G, number: u32) {
    let Some(shard) = shared.shards.get(number as usize) else {
        return;
    };
    // It has no account.
    let mut spare = Page::new(shared.alloc);
    let mut hand = None;
    for _ in rt.forever() {
        let (held, again) = turn(rt, shared, gate, shard, &mut spare, number, hand);
        if wait(rt, shard, held.is_some(), again) {
            return;
        }
        hand = held;
    }
}
