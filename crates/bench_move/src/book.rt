//! A copy of a book of laws.

ghost use Rattle.std.specs.Prelude.{◌≡◌, ◌++◌, IfOk, OnOk};

use base_list::AddError;
use std::alloc::{AllocError, Global};
use tab_law::LawBook;

/// Adds the kinds of another book.
fn add_kinds(copy: &mut LawBook, book: &LawBook) -> Result<(), AddError>
    ensures { OnOk result (copy.new ≡ record copy.old { kinds = copy.old.kinds ++ book.now.kinds }) }
{
    for entry in book.kinds().as_slice() {
        copy.add_kind(entry.name.as_slice())?;
    }
    Ok(())
}

/// Adds the laws of another book's guards.
fn add_guards(alloc: Global, copy: &mut LawBook, book: &LawBook) -> Result<(), AddError>
    ensures { OnOk result (copy.new ≡ record copy.old { guards = copy.old.guards ++ book.now.guards }) }
{
    for entry in book.guards().as_slice() {
        let law = entry.value.copy(alloc)?;
        copy.add_guard(entry.name.as_slice(), law)?;
    }
    Ok(())
}

/// Adds the laws of another book's actions.
fn add_acts(alloc: Global, copy: &mut LawBook, book: &LawBook) -> Result<(), AddError>
    ensures { OnOk result (copy.new ≡ record copy.old { acts = copy.old.acts ++ book.now.acts }) }
{
    for entry in book.acts().as_slice() {
        let law = entry.value.copy(alloc)?;
        copy.add_act(entry.name.as_slice(), law)?;
    }
    Ok(())
}

/// Adds all of another book.
fn add_all(alloc: Global, copy: &mut LawBook, book: &LawBook) -> Result<(), AddError>
    ensures { OnOk result (copy.new ≡ record {
      kinds = copy.old.kinds ++ book.now.kinds;
      guards = copy.old.guards ++ book.now.guards;
      acts = copy.old.acts ++ book.now.acts;
    }) }
{
    add_kinds(copy, book)?;
    add_guards(alloc, copy, book)?;
    add_acts(alloc, copy, book)
}

/// The same book in memory of its own. A book's names differ and are within its limits,
/// so nothing but memory can be wanting.
pub(crate) fn copy_book(alloc: Global, book: &LawBook) -> Result<LawBook, AllocError>
    ensures { IfOk result (λ copy. copy ≡ book.now) }
{
    let mut copy = LawBook::new(alloc);
    match add_all(alloc, &mut copy, book) {
        Ok(()) => Ok(copy),
        Err(_) => Err(AllocError),
    }
}
