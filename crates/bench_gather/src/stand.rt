//! Whether looks stand in the parts of desks alone.
ghost use Rattle.std.specs.Prelude.{◌≡◌, ◌≤◌, map};
ghost use Rattle.std.specs.List.{list_all};
ghost use Rattle.bench_item.specs.declared.limit.TheConstants.{MAX_SHARDS};
ghost use Rattle.bench_parts.specs.Views.{kept_in, kept_of};
ghost use Rattle.bench_gather.specs.Checks.{is_did, looks_stand};

use bench_parts::{Lent, Note};

/// Whether a note is no look.
fn is_did(note: &Note) -> bool
    ensures { result ≡ is_did (kept_of note.now) }
{
    match note {
        Note::Did { stamp: _, entry: _ } => true,
        Note::Saw(_) => false,
    }
}

/// Whether no look is among notes.
fn are_did(notes: &[Note]) -> bool
    ensures { result ≡ list_all is_did (map kept_of notes.now) }
{
    let mut did = true;
    for note in notes {
        let own = is_did(note);
        did = did && own;
    }
    did
}

/// Whether a part has no look.
fn has_no_look(part: &Lent<'_>) -> bool
    ensures { result ≡ list_all is_did (kept_in part.now) }
{
    match part {
        Lent::Entries { stamps: _, log: _ } => true,
        Lent::Notes(notes) => are_did(notes),
    }
}

/// Whether the parts before those of the desks have no looks.
pub(crate) fn looks_stand(parts: &[Lent<'_>], shards: usize) -> bool
    requires { shards ≤ MAX_SHARDS }
    ensures { result ≡ looks_stand shards (map kept_in parts.now) }
{
    let count = (shards + 2).min(parts.len());
    let mut stand = true;
    for place in 0..count {
        let own = has_no_look(&parts[place]);
        stand = stand && own;
    }
    stand
}
