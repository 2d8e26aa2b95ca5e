//! Entries of steps that carry nothing and move nothing.
ghost use Rattle.std.specs.Prelude.{◌≡◌, IfOk};
ghost use Rattle.bench_core.specs.Entries.{bare_entry};

use bench_item::{Entry, Step};
use bench_log::KeptEntry;
use std::alloc::{AllocError, Global};

/// The entry of a step that carries nothing and moves nothing, as the log keeps it.
pub(crate) fn bare_entry(alloc: Global, step: Step) -> Result<KeptEntry, AllocError>
    ensures { IfOk result (λ kept. kept ≡ bare_entry step) }
{
    let entry = Entry {
        step,
        item: None,
        handled: None,
    };
    KeptEntry::keep(alloc, &entry)
}
