//! Copies of keys, and whose item an entry handled.
ghost use Rattle.std.specs.Prelude.{◌≡◌, IfOk, option_copied, option_to_list};
ghost use Rattle.bench_looks.specs.Tallies.{taken_key};

use bench_item::{Entry, Handled, Item, Key};
use std::alloc::{AllocError, Global};

/// The same key in memory of its own.
pub(crate) fn copy_key(alloc: Global, key: &Key) -> Result<Key, AllocError>
    ensures { IfOk result (λ copy. copy ≡ key.now) }
{
    let name = key.name.copy(alloc)?;
    let role = key.role;
    Ok(Key { role, name })
}

/// The machine whose item an entry handled, where its session found room.
pub(crate) fn taken_key(entry: &Entry) -> Option<&Key>
    ensures { option_to_list (option_copied result) ≡ taken_key entry.now }
{
    match (&entry.item, &entry.handled) {
        (Some(Item::ToMachine(item)), Some(Handled::Stale(_) | Handled::Move(_))) => {
            Some(&item.key)
        }
        _ => None,
    }
}
