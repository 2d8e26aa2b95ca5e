//! The stamps of parts.
ghost use Rattle.std.specs.Prelude.{◌≡◌, IfOk, map};
ghost use Rattle.bench_spec.specs.Merged.{stamp_of};
ghost use Rattle.bench_parts.specs.Views.{kept_of, stamps_in};

use crate::view::{Lent, Note, stamped_len};
use bench_item::Series;
use std::alloc::{AllocError, Global};

/// The stamp of what a desk kept.
fn stamp_of(note: &Note) -> u64
    ensures { result ≡ stamp_of (kept_of note.now) }
{
    match note {
        Note::Did { stamp, entry: _ } => *stamp,
        Note::Saw(look) => look.stamp,
    }
}

/// The stamps of all that a desk kept.
fn stamps_kept(alloc: Global, notes: &[Note]) -> Result<Vec<u64>, AllocError>
    ensures { IfOk result (λ stamps. stamps.items ≡ map (λ note. stamp_of (kept_of note)) notes.now) }
{
    let mut stamps = Vec::with_capacity(alloc, notes.len())?;
    for note in notes {
        stamps.push(stamp_of(note))?;
    }
    Ok(stamps)
}

/// The stamps of a part.
fn stamps_in(alloc: Global, part: &Lent<'_>) -> Result<Series<u64>, AllocError>
    ensures { IfOk result (λ stamps. stamps ≡ stamps_in part.now) }
{
    match part {
        Lent::Entries { stamps, log } => {
            let count = stamped_len(stamps, log);
            Ok(Series::new(Vec::from_slice(alloc, &stamps[..count])?))
        }
        Lent::Notes(notes) => Ok(Series::new(stamps_kept(alloc, notes)?)),
    }
}

/// The stamps of each part.
pub fn stamps_of(alloc: Global, parts: &[Lent<'_>]) -> Result<Vec<Series<u64>>, AllocError>
    ensures { IfOk result (λ all. all.items ≡ map stamps_in parts.now) }
{
    let mut all = Vec::with_capacity(alloc, parts.len())?;
    for part in parts {
        all.push(stamps_in(alloc, part)?)?;
    }
    Ok(all)
}
