//! The logs of whole transcripts, run again: on benches that were opened alike,
//! and on the benches themselves, back at their start.

use crate::replay::is_added;
use bench_item::Entry;
use bench_play::{Play, all_of, log_of};
use bench_world::TakesSteps;
use std::alloc::{AllocError, Global};

/// What a bench shows, and the text of its log.
struct Seen {
    shown: Vec<u8>,
    log: Vec<u8>,
}

impl Drop for Seen {
    fn drop(self) {
        let Seen { shown, log } = self;
    }
}

/// What a bench shows now.
fn seen_of<B: TakesSteps>(alloc: Global, world: &B) -> Result<Seen, AllocError> {
    Ok(Seen {
        shown: all_of(alloc, world.core())?,
        log: log_of(alloc, world.core())?,
    })
}

/// Whether both are the same.
fn is_same(one: &Seen, other: &Seen) -> bool {
    one.shown.as_slice() == other.shown.as_slice() && one.log.as_slice() == other.log.as_slice()
}

/// Adds the log of a bench to one that was opened alike:
/// whether each entry may follow there, and both show the same then.
fn is_run_again<B: TakesSteps>(alloc: Global, from: &B, to: &mut B) -> Result<bool, AllocError> {
    let mut all = true;
    for place in 0..from.core().place() {
        all = all && is_added(alloc, from.core(), place, to)?;
    }
    Ok(all && is_same(&seen_of(alloc, from)?, &seen_of(alloc, to)?))
}

/// The entries of a bench.
fn entries_of<B: TakesSteps>(alloc: Global, world: &B) -> Result<Vec<Entry>, AllocError> {
    let mut entries = Vec::new(alloc);
    for place in 0..world.core().place() {
        if let Some(entry) = world.core().log().entry(place, alloc)? {
            entries.push(entry)?;
        }
    }
    Ok(entries)
}

/// Back to the start, where the bench shows what it showed there, and forward by its entries:
/// whether it shows the same then.
fn is_retraced<B: TakesSteps>(
    alloc: Global,
    world: &mut B,
    start: &Seen,
) -> Result<bool, AllocError> {
    let end = seen_of(alloc, world)?;
    let entries = entries_of(alloc, world)?;
    let mut all = true;
    for _ in 0..entries.len() {
        all = all && world.back();
    }
    all = all && !world.back() && is_same(&seen_of(alloc, world)?, start);
    for entry in entries {
        all = all && world.replay(entry).is_ok();
    }
    Ok(all && is_same(&seen_of(alloc, world)?, &end))
}

/// The log of the last bench that was played, on the last that was opened alike, which is gone then.
fn runs_last_again<B: TakesSteps + Drop>(
    play: &mut Play<'_, B>,
    place: usize,
) -> Result<bool, AllocError> {
    let Some(mut fresh) = play.worlds.pop() else {
        return Ok(false);
    };
    let Some(world) = play.worlds.get_mut(place) else {
        return Ok(false);
    };
    let start = seen_of(play.alloc, &fresh)?;
    Ok(is_run_again(play.alloc, world, &mut fresh)? && is_retraced(play.alloc, world, &start)?)
}

/// Runs the log of each bench that was played again: of as many, behind which as many stand that were opened alike.
/// No callback may be asked. What goes wrong is put.
pub fn run_alike<B: TakesSteps + Drop>(
    play: &mut Play<'_, B>,
    report: &mut Vec<u8>,
) -> Result<(), AllocError> {
    let asked = play.asked();
    let count = play.worlds.len() / 2;
    let mut all = true;
    for done in 0..count {
        all = all && runs_last_again(play, count - 1 - done)?;
    }
    if !all || count == 0 {
        report.extend_from_slice(b" the log is not run again so\n")?;
    }
    if play.asked() != asked {
        report.extend_from_slice(b" a callback is asked\n")?;
    }
    Ok(())
}
