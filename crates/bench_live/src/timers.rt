//! What the timers' thread does.
ghost use Rattle.bench_live.specs.Carried.{LiftsFired, StaysInHand};

use crate::shared::Shared;
use crate::worker::rest;
use bench_desk::CarryFault;
use bench_item::Source;
use live_slot::{ClockSlot, Hand, Turn, draw};
use std::sync::Wait;
use std::sync::atomic::AtomicU64;
use std::time::{Clock, Duration, Instant};

/// Lifts the oldest item that fired, if one waits, with a stamp that is drawn now.
fn lift_under(slot: &mut ClockSlot, stamps: &AtomicU64) -> (Option<Hand>, Turn)
    ensures { LiftsFired result.0 result.1 slot.old.part slot.new.part }
{
    match slot.lift(draw(stamps)) {
        Ok(hand) => (Some(hand), Turn::Done),
        Err(CarryFault::NoMemory) => (None, Turn::NoMemory),
        Err(CarryFault::Nothing | CarryFault::Full) => (None, Turn::Idle),
    }
}

/// Fires what is due, and lifts the oldest item that fired where the hand is empty. That there may be room is heard by
/// this.
fn tick_under(
    slot: &mut ClockSlot,
    moment: u64,
    held: Option<Hand>,
    stamps: &AtomicU64,
) -> (Option<Hand>, Turn)
    ensures { StaysInHand held result.0 }
{
    slot.hear();
    let advanced = slot.advance(moment, stamps);
    let (hand, turn) = match held {
        Some(hand) => (Some(hand), Turn::Idle),
        None => lift_under(slot, stamps),
    };
    match advanced {
        Err(CarryFault::NoMemory) => (hand, Turn::NoMemory),
        _ => (hand, turn),
    }
}

/// The whole seconds since the start; the last moment where the clock can't be read.
fn moment<R: Clock>(rt: &R, start: &Instant, last: u64) -> u64 {
    match start.elapsed(rt) {
        Ok(passed) => passed.as_secs(),
        Err(_) => last,
    }
}

/// How long it is to the next whole second since the start.
fn rest_of_second<R: Clock>(rt: &R, start: &Instant) -> Duration {
    match start.elapsed(rt) {
        Ok(passed) => Duration::from_millis(u64::from(1_000 - passed.subsec_millis().min(999))),
        Err(_) => Duration::from_millis(1_000),
    }
}

/// Carries what fired where it is for, until nothing is left or an item finds no room, which stays in the hand.
fn carry<R: Wait>(
    rt: &R,
    shared: &Shared,
    moment: u64,
    held: Option<Hand>,
) -> (Option<Hand>, Turn) {
    let mut hand = held;
    for _ in rt.forever() {
        let (lifted, turn) = tick_under(&mut shared.clock.lock(rt), moment, hand, &shared.stamps);
        let Some(own) = lifted else {
            return (None, turn);
        };
        let (dropped, _at_lines) = shared.drop_item(rt, Source::Clock, &own);
        if dropped != Turn::Done {
            return (Some(own), dropped);
        }
        hand = None;
    }
    unreachable!()
}

/// Waits for the next tick, or until there is something to do. Says whether the bench ends.
fn wait<R: Wait + Clock>(rt: &R, shared: &Shared, start: &Instant, has_hand: bool) -> bool {
    let left = rest_of_second(rt, start);
    let (slot, _timed_out) = shared
        .ticked
        .wait_timeout_while(rt, shared.clock.lock(rt), left, |slot| {
            slot.is_idle(has_hand)
        });
    slot.ending
}

/// Fires timers and carries what fired, until the bench ends. A tick is a second.
pub fn run_timers<R: Wait + Clock>(rt: &R, shared: &Shared) {
    let Ok(start) = Instant::now(rt) else {
        return;
    };
    let mut hand = None;
    let mut last = 0;
    for _ in rt.forever() {
        last = moment(rt, &start, last);
        let (held, turn) = carry(rt, shared, last, hand);
        rest(rt, turn == Turn::NoMemory);
        if wait(rt, shared, &start, held.is_some()) {
            return;
        }
        hand = held;
    }
}
