//! A log that is run again: each entry is added as it is, no callback is asked,
//! and an entry that is wrong in one value is refused.

use bench_core::{Core, ReplayError};
use bench_item::{Entry, Handled, Item, KeptEvent, Moved, Series, Step};
use bench_play::{Play, all_of};
use bench_world::TakesSteps;
use std::alloc::{AllocError, Global};

/// In how many ways an entry is made wrong.
const WAYS: u8 = 15;

/// Makes an item another; whether it is one that can be made so.
fn alters_item(alloc: Global, item: &mut Item) -> bool {
    match item {
        Item::ToMachine(item) => {
            let mut event = item.event.show();
            event.facts[20] = event.facts[20].wrapping_add(1);
            match KeptEvent::keep(alloc, &event) {
                Ok(event) => item.event = event,
                Err(_) => return false,
            }
            true
        }
        Item::ToLine(item) => {
            item.line = item.line.wrapping_add(1);
            true
        }
        Item::Arm { ticks, .. } => {
            *ticks = ticks.wrapping_add(1);
            true
        }
        _ => false,
    }
}

/// Makes a move another, in one of 9 ways; whether that can be done.
fn alters_move(alloc: Global, moved: &mut Moved, way: u8) -> bool {
    match way {
        0 => moved.row = None,
        1 => moved.after.state = moved.after.state.wrapping_add(1),
        2 => moved.after.regs[5] = moved.after.regs[5].wrapping_add(1),
        3 => moved.before.regs[40] = moved.before.regs[40].wrapping_add(1),
        4 => moved.event.facts[13] = moved.event.facts[13].wrapping_add(1),
        5 => moved.machine = moved.machine.wrapping_add(1),
        6 if moved.deeds.len() > 0 => moved.deeds = Series::empty(alloc),
        7 if moved.outcomes.len() > 0 => moved.outcomes = Series::empty(alloc),
        8 if moved.chain.len() > 0 => moved.chain = Series::empty(alloc),
        _ => return false,
    }
    true
}

/// Makes what became of an item another; whether that can be done.
fn alters_handled(alloc: Global, handled: &mut Option<Handled>, way: u8) -> bool {
    if handled.is_none() {
        return false;
    }
    match way {
        0 => *handled = None,
        1 => *handled = Some(Handled::Stale(0)),
        2 => *handled = Some(Handled::TooBusy),
        _ => {
            return match handled {
                Some(Handled::Move(moved)) => alters_move(alloc, moved, way - 3),
                _ => false,
            };
        }
    }
    true
}

/// Makes an entry wrong, in one of the ways; whether that can be done.
fn alters(alloc: Global, entry: &mut Entry, way: u8) -> bool {
    match way {
        0 => {
            entry.step = Step::Work(9);
            true
        }
        1 => {
            let there = entry.item.is_some();
            entry.item = None;
            there
        }
        2 => match &mut entry.item {
            Some(item) => alters_item(alloc, item),
            None => false,
        },
        _ => alters_handled(alloc, &mut entry.handled, way - 3),
    }
}

/// The number of the first way in which an entry is made wrong and not refused, or changes what is shown.
fn wrong_way<B: TakesSteps>(
    alloc: Global,
    from: &Core,
    place: usize,
    to: &mut B,
) -> Result<Option<u8>, AllocError> {
    let shown = all_of(alloc, to.core())?;
    for way in 0..WAYS {
        let Some(mut entry) = from.log().entry(place, alloc)? else {
            return Ok(Some(way));
        };
        if !alters(alloc, &mut entry, way) {
            continue;
        }
        let is_refused = matches!(to.replay(entry), Err(ReplayError::Illegal));
        if !is_refused || all_of(alloc, to.core())?.as_slice() != shown.as_slice() {
            return Ok(Some(way));
        }
    }
    Ok(None)
}

/// Adds an entry of a world to another; whether it may follow there.
pub fn is_added<B: TakesSteps>(
    alloc: Global,
    from: &Core,
    place: usize,
    to: &mut B,
) -> Result<bool, AllocError> {
    match from.log().entry(place, alloc)? {
        Some(entry) => Ok(to.replay(entry).is_ok()),
        None => Ok(false),
    }
}

/// Runs the log of a world again in another: what goes wrong is put.
fn replays<B: TakesSteps>(
    alloc: Global,
    from: &Core,
    to: &mut B,
    out: &mut Vec<u8>,
) -> Result<(), AllocError> {
    for place in 0..from.place() {
        if let Some(way) = wrong_way(alloc, from, place, to)? {
            let text = format!(in alloc; "entry {place} made wrong in way {way}\n")?;
            out.extend_from_slice(text.as_bytes())?;
        }
        if !is_added(alloc, from, place, to)? {
            let text = format!(in alloc; "entry {place} is refused\n")?;
            out.extend_from_slice(text.as_bytes())?;
        }
    }
    if all_of(alloc, from)?.as_slice() != all_of(alloc, to.core())?.as_slice() {
        out.extend_from_slice(b"not the same is shown\n")?;
    }
    Ok(())
}

/// Runs the steps of a bench in another, with one that is refused behind them:
/// whether all before it are taken, and the same is shown.
fn is_run<B: TakesSteps>(alloc: Global, from: &Core, to: &mut B) -> Result<bool, AllocError> {
    let mut steps = Vec::new(alloc);
    for place in 0..from.place() {
        if let Some(step) = from.log().step(place, alloc)? {
            steps.push(step)?;
        }
    }
    let count = steps.len();
    steps.push(Step::Lost(9))?;
    steps.push(Step::Joined)?;
    let is_none_run = to.run(Vec::new(alloc)).is_ok() && to.core().place() == 0;
    let is_stopped = match to.run(steps) {
        Ok(()) => false,
        Err((place, fault)) => place == count && fault.number() == 2,
    };
    let is_same = all_of(alloc, from)?.as_slice() == all_of(alloc, to.core())?.as_slice();
    Ok(is_none_run && is_stopped && is_same)
}

/// Whether the last three entries, of which the first is a shard's work,
/// are taken back and added again while the shard is paused.
fn is_added_while_paused<B: TakesSteps>(
    alloc: Global,
    from: &Core,
    to: &mut B,
) -> Result<bool, AllocError> {
    let mut all = to.pause(0) && to.back() && to.back() && to.back();
    let first = to.core().place();
    let is_work = matches!(from.log().step(first, alloc)?, Some(Step::Work(0)));
    for place in first..from.place() {
        all = all && is_added(alloc, from, place, to)?;
    }
    Ok(all && is_work && to.core().place() == first.saturating_add(3))
}

/// Runs the log of the first bench again in the second, entry by entry, without a callback that is asked, and then its
/// last three entries while a shard of that is paused. What goes wrong is put.
fn replays_in<B: TakesSteps + Drop>(
    play: &mut Play<'_, B>,
    other: &mut B,
) -> Result<(), AllocError> {
    let asked = play.asked();
    let Some(first) = play.worlds.get(0) else {
        return Ok(());
    };
    replays(play.alloc, first.core(), other, &mut play.out)?;
    if !is_added_while_paused(play.alloc, first.core(), other)? {
        play.out
            .extend_from_slice(b"a paused shard's entry is refused\n")?;
    }
    if play.asked() != asked {
        play.out.extend_from_slice(b"a callback is asked\n")?;
    }
    Ok(())
}

/// Runs the log of the first bench again in the second, and its steps in the third. These are gone then.
pub fn run_again<B: TakesSteps + Drop>(play: &mut Play<'_, B>) -> Result<(), AllocError> {
    let (Some(mut third), Some(mut second)) = (play.worlds.pop(), play.worlds.pop()) else {
        return Ok(());
    };
    replays_in(play, &mut second)?;
    let Some(first) = play.worlds.get(0) else {
        return Ok(());
    };
    if !is_run(play.alloc, first.core(), &mut third)? {
        play.out.extend_from_slice(b"steps are not run so\n")?;
    }
    Ok(())
}
