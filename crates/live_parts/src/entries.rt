//! Entries, as logs keep them.
ghost use Rattle.std.specs.Prelude.{◌≡◌, IfOk};
ghost use Rattle.bench_item.specs.declared.step.Step.TheVariants as steps;
ghost use Rattle.live_parts.specs.Entries.{bare_entry, carried_entry, fired_entry};

use bench_item::{Entry, Item, Source, Step};
use bench_log::{KeptEntry, KeptItem};
use std::alloc::{AllocError, Global};

/// The entry of a step that carries nothing and moves nothing.
pub(crate) fn bare_entry(alloc: Global, step: Step) -> Result<KeptEntry, AllocError>
    ensures { IfOk result (λ kept. kept ≡ bare_entry step) }
{
    let entry = Entry {
        step,
        item: None,
        handled: None,
    };
    KeptEntry::keep(alloc, &entry)
}

/// The entry of an item that is lifted from a source, which the entry shares.
pub(crate) fn lift_entry(source: Source, item: &KeptItem) -> Result<KeptEntry, AllocError>
    ensures { IfOk result (λ kept. kept ≡ carried_entry (steps.Lift source) item.now) }
{
    let own = item.copy()?;
    Ok(KeptEntry::of_lift(source, Some(own)))
}

/// The entry of an item that a source drops, which the entry shares.
pub(crate) fn drop_entry(source: Source, item: &KeptItem) -> Result<KeptEntry, AllocError>
    ensures { IfOk result (λ kept. kept ≡ carried_entry (steps.Drop source) item.now) }
{
    let own = item.copy()?;
    Ok(KeptEntry::of_drop(source, Some(own)))
}

/// The entry of an item for the timers that a source drops.
pub(crate) fn timer_entry(
    alloc: Global,
    source: Source,
    item: Item,
) -> Result<KeptEntry, AllocError>
    ensures { IfOk result (λ kept. kept ≡ carried_entry (steps.Drop source) item) }
{
    let own = KeptItem::new(alloc, item)?;
    Ok(KeptEntry::of_drop(source, Some(own)))
}

/// The entry of a timer that fires, with what it puts out.
pub(crate) fn fired_entry(
    alloc: Global,
    machine: u64,
    generation: u64,
    item: Option<Item>,
) -> Result<KeptEntry, AllocError>
    ensures { IfOk result (λ kept. kept ≡ fired_entry machine generation item) }
{
    let entry = Entry {
        step: Step::Fired {
            machine,
            generation,
        },
        item,
        handled: None,
    };
    KeptEntry::keep(alloc, &entry)
}
