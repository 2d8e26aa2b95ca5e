//! Which kinds of events of a book are a server's.

ghost use Rattle.std.specs.Prelude.{◌≡◌, ◌<◌, IfOk};
ghost use Rattle.server_rules.specs.Kinds.{kinds};
ghost use Rattle.bench_move.specs.Tables.{server_places};

use server_rules::server_place;
use std::alloc::{AllocError, Global};
use tab_law::LawBook;

/// Of each kind of a book its place among those of a server's laws.
pub(crate) fn server_places(alloc: Global, book: &LawBook) -> Result<Vec<Option<u8>>, AllocError>
    ensures { IfOk result (λ places. places.items ≡ server_places book.now) }
{
    let entries = book.kinds().as_slice();
    let mut places = Vec::with_capacity(alloc, entries.len())?;
    for entry in entries {
        places.push(server_place(entry.name.as_slice()))?;
    }
    Ok(places)
}
