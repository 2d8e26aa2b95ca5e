//! Whether parts have more entries than a log may.
ghost use Rattle.std.specs.Prelude.{◌≡◌, ◌≤◌, flat_map, length, nat_lt};
ghost use Rattle.bench_item.specs.declared.limit.TheConstants.{MAX_ENTRIES};
ghost use Rattle.bench_parts.specs.Views.{entries_in, kept_of};
ghost use Rattle.bench_spec.specs.Merged.{entries_kept};

use crate::view::{Lent, Note, stamped_len};
use bench_item::MAX_ENTRIES;

/// Whether a desk kept an entry, or a look.
fn count_of(note: &Note) -> usize
    ensures count { result ≡ length (entries_kept (kept_of note.now)) }
    ensures few { result ≤ 1 }
{
    match note {
        Note::Did { stamp: _, entry: _ } => 1,
        Note::Saw(_) => 0,
    }
}

/// How many entries a desk kept.
fn count_kept(notes: &[Note]) -> usize
    ensures { result ≡ length (flat_map (λ note. entries_kept (kept_of note)) notes.now) }
{
    let mut count = 0;
    for note in notes {
        count += count_of(note);
    }
    count
}

/// How many entries a part has.
fn count_in(part: &Lent<'_>) -> usize
    ensures { result ≡ length (entries_in part.now) }
{
    match part {
        Lent::Entries { stamps, log } => stamped_len(stamps, log),
        Lent::Notes(notes) => count_kept(notes),
    }
}

/// Whether parts have more entries than a log may. Takes no memory.
pub fn is_past(parts: &[Lent<'_>]) -> bool
    ensures { result ≡ nat_lt MAX_ENTRIES (length (flat_map entries_in parts.now)) }
{
    let mut left = MAX_ENTRIES;
    for part in parts {
        let count = count_in(part);
        if left < count {
            return true;
        }
        left -= count;
    }
    false
}
