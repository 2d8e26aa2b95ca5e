//! An item comes where it is for.
ghost use Rattle.std.specs.Prelude.{◌≡◌, ◌<◌, ◌≤◌, ◌++◌, ◌∷◌, [], IfOk, None, OnErr, OnOk, false, length, map};
ghost use Rattle.bench_item.specs.declared.limit.TheConstants.{MAX_SHARDS};
ghost use Rattle.bench_item.specs.declared.source.Source.{Source};
ghost use Rattle.bench_item.specs.Keys.{home};
ghost use Rattle.bench_item.specs.Lines.{Delivered, Undialled};
ghost use Rattle.bench_log.specs.Targets.{event_in};
ghost use Rattle.bench_line.specs.Lines.{one_more, with_step};
ghost use Rattle.bench_queue.specs.Inbox.{put_in};
ghost use Rattle.bench_shard.specs.View.{with_inbox};
ghost use Rattle.bench_undo.specs.declared.undo.Undo.{Undo};
ghost use Rattle.bench_undo.specs.declared.undo.Undo.TheVariants.{Dropped};
ghost use Rattle.bench_views.specs.Behind.{changed_at};
ghost use Rattle.bench_views.specs.Stored.{Stored};
ghost use Rattle.tick_wheel.specs.Timers.{Timers, after_arm, with_timer_of};
ghost use Rattle.bench_carry.specs.Dropped.{Arrives, LinesGoOn, OneLineMore, meaning_to, with_arrived};
ghost use Rattle.bench_carry.specs.Hands.{is_home_crowded, lacks_room};
ghost use Rattle.bench_carry.specs.Placed.{IsPlaced};
ghost use Rattle.bench_carry.specs.Undone.{unarrived};

use bench_item::{Item, LineItem, home};
use bench_line::{Change, Lines};
use bench_log::{KeptItem, KeptMachineItem};
use bench_shard::ShardState;
use bench_undo::Arrival;
use line_message::Listener;
use std::alloc::{AllocError, Global};
use tick_wheel::Wheel;

// An event comes to the shard of its machine.
fn put_event(shards: &mut [ShardState], item: KeptMachineItem) -> Result<Arrival, AllocError>
    requires some { 0 < length shards.old }
    requires few { length shards.old ≤ MAX_SHARDS }
    requires room { is_home_crowded shards.old item.key ≡ false }
    ensures came { OnOk result (shards.new
        ≡ changed_at (home (length shards.old) item.key.name)
        (λ v. with_inbox v (put_in v.inbox (item ∷ []))) shards.old) }
    ensures undone { IfOk result (λ a. (s : Stored)
        → unarrived a (record s { shards = shards.new }) ≡ record s { shards = shards.old }) }
    ensures placed { IfOk result (λ a. (wheel : Timers) (source : Source) → IsPlaced wheel (Dropped source a)) }
    ensures err { OnErr result (shards.new ≡ shards.old) }
{
    let place = home(shards.len(), item.key());
    match shards[place].put_kept(item) {
        Ok(()) => Ok(Arrival::Shard(place as u32)),
        Err(_) => Err(AllocError),
    }
}

// A deed comes to its connection.
fn deliver(lines: &mut Lines<Listener>, item: &LineItem) -> Result<Arrival, AllocError>
    ensures came { OnOk result (LinesGoOn (meaning_to lines.old.rules) lines.old.lines lines.new.lines
        (with_step item.now.line (Delivered item.now))) }
    ensures undone { IfOk result (λ a. (s : Stored)
        → unarrived a (record s { lines = lines.new.lines }) ≡ record s { lines = lines.old.lines }) }
    ensures placed { IfOk result (λ a. (wheel : Timers) (source : Source) → IsPlaced wheel (Dropped source a)) }
    ensures rules { lines.new.rules ≡ lines.old.rules }
    ensures err { OnErr result (lines.new ≡ lines.old) }
{
    match lines.deliver(item) {
        Ok(change) => Ok(Arrival::Lines(change)),
        Err(_) => Err(AllocError),
    }
}

// A dial opens a connection, of which nothing was dropped.
fn open_line(
    lines: &mut Lines<Listener>,
    carried: &mut Vec<usize>,
    peer: u64,
    generation: u64,
) -> Result<Arrival, AllocError>
    ensures came { OnOk result
        (OneLineMore (meaning_to lines.old.rules) lines.old.lines lines.new.lines peer generation) }
    ensures carried { OnOk result (carried.new.items ≡ carried.old.items ++ 0 ∷ []) }
    ensures undone { IfOk result (λ a. (s : Stored)
        → unarrived a (record s { lines = lines.new.lines; carried = carried.new.items })
        ≡ record s { lines = lines.old.lines; carried = carried.old.items }) }
    ensures placed { IfOk result (λ a. (wheel : Timers) (source : Source) → IsPlaced wheel (Dropped source a)) }
    ensures rules { lines.new.rules ≡ lines.old.rules }
    ensures err { OnErr result ((lines.new ≡ lines.old) × (carried.new.items ≡ carried.old.items)) }
{
    carried.reserve(1)?;
    match lines.dial(peer, generation) {
        Ok(_) => {
            carried.push(0).unwrap();
            Ok(Arrival::Opened)
        }
        Err(_) => Err(AllocError),
    }
}

// A dial is given up.
fn close_line(
    lines: &mut Lines<Listener>,
    peer: u64,
    generation: u64,
) -> Result<Arrival, AllocError>
    ensures came { OnOk result (LinesGoOn (meaning_to lines.old.rules) lines.old.lines lines.new.lines
        (map (one_more (Undialled peer generation)))) }
    ensures undone { IfOk result (λ a. (s : Stored)
        → unarrived a (record s { lines = lines.new.lines }) ≡ record s { lines = lines.old.lines }) }
    ensures placed { IfOk result (λ a. (wheel : Timers) (source : Source) → IsPlaced wheel (Dropped source a)) }
    ensures rules { lines.new.rules ≡ lines.old.rules }
    ensures err { OnErr result (lines.new ≡ lines.old) }
{
    match lines.undial(peer, generation) {
        Ok(change) => Ok(Arrival::Lines(change)),
        Err(_) => Err(AllocError),
    }
}

// The timer of a machine is armed.
fn arm(wheel: &mut Wheel, machine: u64, generation: u64, ticks: u64) -> Result<Arrival, AllocError>
    ensures came { OnOk result (wheel.new ≡ after_arm wheel.old machine generation ticks) }
    ensures undone { IfOk result (λ a. (s : Stored)
        → unarrived a (record s { timers = wheel.new.armed }) ≡ record s { timers = wheel.old.armed }) }
    ensures placed { IfOk result (λ a. (source : Source) → IsPlaced wheel.new (Dropped source a)) }
    ensures places { (undo : Undo) → IsPlaced wheel.old undo → IsPlaced wheel.new undo }
    ensures err { OnErr result (wheel.new ≡ wheel.old) }
{
    let old = wheel.armed(machine);
    wheel.arm(machine, generation, ticks)?;
    Ok(Arrival::Timer { machine, old })
}

// The timer of a machine is disarmed. Where none is armed nothing changes: the machine need not have a place then.
fn disarm(wheel: &mut Wheel, machine: u64) -> Arrival
    ensures came { wheel.new ≡ with_timer_of wheel.old machine None }
    ensures undone { (s : Stored)
        → unarrived result (record s { timers = wheel.new.armed }) ≡ record s { timers = wheel.old.armed } }
    ensures placed { (source : Source) → IsPlaced wheel.new (Dropped source result) }
    ensures places { (undo : Undo) → IsPlaced wheel.old undo → IsPlaced wheel.new undo }
{
    match wheel.armed(machine) {
        None => Arrival::Lines(Change::Nothing),
        Some(timer) => {
            wheel.disarm(machine);
            let old = Some(timer);
            Arrival::Timer { machine, old }
        }
    }
}

// An item that is for no machine comes where it is for. Answers what takes that back.
fn arrive_elsewhere(
    shards: &mut [ShardState],
    lines: &mut Lines<Listener>,
    carried: &mut Vec<usize>,
    wheel: &mut Wheel,
    item: &Item,
) -> Result<Arrival, AllocError>
    requires some { 0 < length shards.old }
    requires few { length shards.old ≤ MAX_SHARDS }
    requires room { lacks_room shards.old lines.old.lines item.now ≡ false }
    requires elsewhere { event_in item.now ≡ None }
    ensures came { OnOk result ((s : Stored) → Arrives (meaning_to lines.old.rules) item.now
        (with_arrived s shards.old lines.old.lines carried.old.items wheel.old.armed)
        (with_arrived s shards.new lines.new.lines carried.new.items wheel.new.armed)) }
    ensures undone { IfOk result (λ a. (s : Stored)
        → unarrived a (with_arrived s shards.new lines.new.lines carried.new.items wheel.new.armed)
        ≡ with_arrived s shards.old lines.old.lines carried.old.items wheel.old.armed) }
    ensures placed { IfOk result (λ a. (source : Source) → IsPlaced wheel.new (Dropped source a)) }
    ensures places { (undo : Undo) → IsPlaced wheel.old undo → IsPlaced wheel.new undo }
    ensures rules { lines.new.rules ≡ lines.old.rules }
    ensures err { OnErr result ((shards.new ≡ shards.old) × (lines.new ≡ lines.old)
        × (carried.new.items ≡ carried.old.items) × (wheel.new ≡ wheel.old)) }
{
    match item {
        Item::ToMachine(_) => unreachable!(),
        Item::ToLine(item) => deliver(lines, item),
        Item::Dial { peer, generation } => open_line(lines, carried, *peer, *generation),
        Item::Undial { peer, generation } => close_line(lines, *peer, *generation),
        Item::Arm {
            machine,
            generation,
            ticks,
        } => arm(wheel, *machine, *generation, *ticks),
        Item::Disarm { machine } => Ok(disarm(wheel, *machine)),
    }
}

/// An item comes where it is for. Answers what takes that back.
/// An event is copied as it is kept; of other items the plain form is small.
pub(crate) fn arrive(
    alloc: Global,
    shards: &mut [ShardState],
    lines: &mut Lines<Listener>,
    carried: &mut Vec<usize>,
    wheel: &mut Wheel,
    item: &KeptItem,
) -> Result<Arrival, AllocError>
    requires some { 0 < length shards.old }
    requires few { length shards.old ≤ MAX_SHARDS }
    requires room { lacks_room shards.old lines.old.lines item.now ≡ false }
    ensures came { OnOk result ((s : Stored) → Arrives (meaning_to lines.old.rules) item.now
        (with_arrived s shards.old lines.old.lines carried.old.items wheel.old.armed)
        (with_arrived s shards.new lines.new.lines carried.new.items wheel.new.armed)) }
    ensures undone { IfOk result (λ a. (s : Stored)
        → unarrived a (with_arrived s shards.new lines.new.lines carried.new.items wheel.new.armed)
        ≡ with_arrived s shards.old lines.old.lines carried.old.items wheel.old.armed) }
    ensures placed { IfOk result (λ a. (source : Source) → IsPlaced wheel.new (Dropped source a)) }
    ensures places { (undo : Undo) → IsPlaced wheel.old undo → IsPlaced wheel.new undo }
    ensures rules { lines.new.rules ≡ lines.old.rules }
    ensures err { OnErr result ((shards.new ≡ shards.old) × (lines.new ≡ lines.old)
        × (carried.new.items ≡ carried.old.items) × (wheel.new ≡ wheel.old)) }
{
    match item.event() {
        Some(event) => {
            let copy = event.copy()?;
            let arrival = put_event(shards, copy)?;
            Ok(arrival)
        }
        None => match item.deed() {
            Some(deed) => {
                let delivered = deliver(lines, deed)?;
                Ok(delivered)
            }
            None => {
                let plain = item.show(alloc)?;
                arrive_elsewhere(shards, lines, carried, wheel, &plain)
            }
        },
    }
}
