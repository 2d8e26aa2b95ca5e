//! The entries of a part that were stamped before, place by place.
ghost use Rattle.std.specs.Prelude.{◌≡◌, ◌≤◌, ◌∷◌, [], IfOk, length, map, option_to_list};
ghost use Rattle.bench_looks.specs.Before.{before, before_at};
ghost use Rattle.bench_parts.specs.Views.{kept_in, kept_of, stamped_of};
ghost use Rattle.bench_spec.specs.Merged.{Did};

use bench_item::Entry;
use bench_log::Log;
use bench_parts::{Lent, Note};
use std::alloc::{AllocError, Global};

/// A number of places past which a part has nothing.
pub(crate) fn places(part: &Lent<'_>) -> usize
    ensures { length (kept_in part.now) ≤ result }
{
    match part {
        Lent::Entries { stamps, log: _ } => stamps.len(),
        Lent::Notes(notes) => notes.len(),
    }
}

/// The entry at a place of a log, if it was stamped before.
fn logged_before(
    alloc: Global,
    stamps: &[u64],
    log: &Log,
    place: usize,
    stamp: u64,
) -> Result<Option<Entry>, AllocError>
    ensures { IfOk result (λ entry. option_to_list entry
        ≡ before_at stamp (map Did (stamped_of stamps.now log.now.entries)) place) }
{
    if stamps.len() <= place {
        return Ok(None);
    }
    if stamp <= stamps[place] {
        return Ok(None);
    }
    let entry = log.entry(place, alloc)?;
    Ok(entry)
}

/// The entry of what a desk kept, if it is one that was stamped before.
fn noted_before(alloc: Global, note: &Note, stamp: u64) -> Result<Option<Entry>, AllocError>
    ensures { IfOk result (λ entry. option_to_list entry ≡ before stamp (kept_of note.now ∷ [])) }
{
    match note {
        Note::Did { stamp: own, entry } => {
            if *own < stamp {
                Ok(Some(entry.show(alloc)?))
            } else {
                Ok(None)
            }
        }
        Note::Saw(_) => Ok(None),
    }
}

/// The entry at a place of what a desk kept, if one stands there that was stamped before.
fn kept_before(
    alloc: Global,
    notes: &[Note],
    place: usize,
    stamp: u64,
) -> Result<Option<Entry>, AllocError>
    ensures { IfOk result (λ entry. option_to_list entry ≡ before_at stamp (map kept_of notes.now) place) }
{
    match notes.get(place) {
        None => Ok(None),
        Some(note) => noted_before(alloc, note, stamp),
    }
}

/// The entry at a place of a part, if one stands there that was stamped before.
pub(crate) fn entry_before(
    alloc: Global,
    part: &Lent<'_>,
    place: usize,
    stamp: u64,
) -> Result<Option<Entry>, AllocError>
    ensures { IfOk result (λ entry. option_to_list entry ≡ before_at stamp (kept_in part.now) place) }
{
    match part {
        Lent::Entries { stamps, log } => logged_before(alloc, stamps, log, place, stamp),
        Lent::Notes(notes) => kept_before(alloc, notes, place, stamp),
    }
}
