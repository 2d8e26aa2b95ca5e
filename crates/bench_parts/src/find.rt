//! The entry that stands at a place of a part, found without a copy of it.
#![tactic(auto, using(crate::proofs::FoundLemmas::brief_is, crate::proofs::FoundLemmas::none_is))]

ghost use Rattle.std.specs.Prelude.{◌≡◌, IfOk, map, option_to_list, slice_get};
ghost use Rattle.bench_spec.specs.Merged.{Did};
ghost use Rattle.bench_parts.specs.Found.{brief_of, entries_found, is_still, step_of};
ghost use Rattle.bench_parts.specs.Views.{entries_there, kept_in, kept_of, stamped_at, stamped_of};

use crate::view::{Lent, Note};
use bench_item::{Entry, Item, Step};
use bench_log::{KeptEntry, Log};
use std::alloc::{AllocError, Global};

/// Where an entry is: nowhere, at a place of a log, if one stands there, or among what a desk kept.
#[derive(Clone, Copy)]
pub(crate) enum Found<'a> {
    Nothing,
    InLog { log: &'a Log, place: usize },
    Kept(&'a KeptEntry),
}

/// An entry without what became of its item.
#[derive(Drop)]
pub struct Brief {
    pub step: Step,
    pub item: Option<Item>,
}

/// The step and the item of the entry at a place of a log, if one stands there.
fn brief_in(alloc: Global, log: &Log, place: usize) -> Result<Option<Brief>, AllocError>
    ensures { IfOk result (λ brief. option_to_list brief
        ≡ map brief_of (option_to_list (slice_get log.now.entries place))) }
{
    let Some(step) = log.step(place, alloc)? else {
        return Ok(None);
    };
    let item = log.item(place, alloc)?;
    Ok(Some(Brief { step, item }))
}

/// The step and the item of an entry.
fn brief_kept(alloc: Global, entry: &KeptEntry) -> Result<Brief, AllocError>
    ensures { IfOk result (λ brief. brief ≡ brief_of entry.now) }
{
    let step = entry.step(alloc)?;
    let item = entry.item(alloc)?;
    Ok(Brief { step, item })
}

/// The entry that is found.
fn entry_found(alloc: Global, found: Found<'_>) -> Result<Option<Entry>, AllocError>
    ensures { IfOk result (λ entry. option_to_list entry ≡ entries_found found.entry) }
{
    match found {
        Found::Nothing => Ok(None),
        Found::InLog { log, place } => log.entry(place, alloc),
        Found::Kept(entry) => Ok(Some(entry.show(alloc)?)),
    }
}

/// Its step alone.
fn step_found(alloc: Global, found: Found<'_>) -> Result<Option<Step>, AllocError>
    ensures { IfOk result (λ step. option_to_list step ≡ map step_of (entries_found found.entry)) }
{
    match found {
        Found::Nothing => Ok(None),
        Found::InLog { log, place } => log.step(place, alloc),
        Found::Kept(entry) => Ok(Some(entry.step(alloc)?)),
    }
}

/// Its step and its item.
fn brief_found(alloc: Global, found: Found<'_>) -> Result<Option<Brief>, AllocError>
    ensures { IfOk result (λ brief. option_to_list brief ≡ map brief_of (entries_found found.entry)) }
{
    match found {
        Found::Nothing => Ok(None),
        Found::InLog { log, place } => brief_in(alloc, log, place),
        Found::Kept(entry) => Ok(Some(brief_kept(alloc, entry)?)),
    }
}

/// Whether no machine moved there.
fn is_found_still(found: Found<'_>) -> bool
    ensures { result ≡ is_still (entries_found found.entry) }
{
    match found {
        Found::Nothing => true,
        Found::InLog { log, place } => log.machine(place).is_none(),
        Found::Kept(entry) => entry.machine().is_none(),
    }
}

/// The entry at a place of a log, if it has a stamp.
fn find_stamped<'a>(stamps: &[u64], log: &'a Log, place: usize) -> Found<'a>
    ensures { entries_found result ≡ entries_there (map Did (stamped_of stamps.now log.now.entries)) place }
{
    if stamps.len() <= place {
        return Found::Nothing;
    }
    Found::InLog { log, place }
}

/// The entry at a place of what a desk kept: none where a look stands there, and past the end.
fn find_kept<'a>(notes: &'a [Note], place: usize) -> Found<'a>
    ensures { entries_found result ≡ entries_there (map kept_of notes.now) place }
{
    let Some(note) = notes.get(place) else {
        return Found::Nothing;
    };
    match note {
        Note::Did { stamp: _, entry } => Found::Kept(entry),
        Note::Saw(_) => Found::Nothing,
    }
}

/// The entry at a place of a part.
fn find_in<'a>(part: &Lent<'a>, place: usize) -> Found<'a>
    ensures { entries_found result ≡ entries_there (kept_in part.now) place }
{
    match part {
        Lent::Entries { stamps, log } => find_stamped(stamps, log, place),
        Lent::Notes(notes) => find_kept(notes, place),
    }
}

/// Where the entry is that stands at a place of one of these parts.
fn find<'a>(parts: &[Lent<'a>], part: usize, place: usize) -> Found<'a>
    ensures { entries_found result ≡ map (λ s. s.entry) (stamped_at (map kept_in parts.now) part place) }
{
    match parts.get(part) {
        None => Found::Nothing,
        Some(part) => find_in(part, place),
    }
}

/// The entry that stands at a place of one of these parts: none where a look stands there, and past the end.
pub fn entry_of(
    alloc: Global,
    parts: &[Lent<'_>],
    part: usize,
    place: usize,
) -> Result<Option<Entry>, AllocError>
    ensures { IfOk result (λ entry. option_to_list entry
        ≡ map (λ s. s.entry) (stamped_at (map kept_in parts.now) part place)) }
{
    entry_found(alloc, find(parts, part, place))
}

/// The step of that entry, without what else it has.
pub fn step_of(
    alloc: Global,
    parts: &[Lent<'_>],
    part: usize,
    place: usize,
) -> Result<Option<Step>, AllocError>
    ensures { IfOk result (λ step. option_to_list step
        ≡ map step_of (map (λ s. s.entry) (stamped_at (map kept_in parts.now) part place))) }
{
    step_found(alloc, find(parts, part, place))
}

/// The step and the item of that entry.
pub fn brief_of(
    alloc: Global,
    parts: &[Lent<'_>],
    part: usize,
    place: usize,
) -> Result<Option<Brief>, AllocError>
    ensures { IfOk result (λ brief. option_to_list brief
        ≡ map brief_of (map (λ s. s.entry) (stamped_at (map kept_in parts.now) part place))) }
{
    brief_found(alloc, find(parts, part, place))
}

/// Whether no machine moved there. Takes no memory.
pub fn is_still(parts: &[Lent<'_>], part: usize, place: usize) -> bool
    ensures { result ≡ is_still (map (λ s. s.entry) (stamped_at (map kept_in parts.now) part place)) }
{
    is_found_still(find(parts, part, place))
}
