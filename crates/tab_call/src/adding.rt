//! The laws of a role, added to a book.

ghost use Rattle.std.specs.Prelude.{◌≡◌, ◌++◌, OnOk, OnErr};
ghost use Rattle.tab_role.specs.Roles.{joined, IsOnto};

use base_list::AddError;
use std::alloc::Global;
use tab_law::LawBook;

/// Adds the kinds of a role. Those before stay where memory runs out.
fn add_kinds(book: &mut LawBook, role: &LawBook) -> Result<(), AddError>
    ensures ok { OnOk result (book.new ≡ record book.old { kinds = book.old.kinds ++ role.now.kinds }) }
    ensures onto { IsOnto book.old book.new }
{
    for entry in role.kinds().as_slice() {
        book.add_kind(entry.name.as_slice())?;
    }
    Ok(())
}

/// Adds the laws of a role's guards. Those before stay where memory runs out.
fn add_guards(alloc: Global, book: &mut LawBook, role: &LawBook) -> Result<(), AddError>
    ensures ok { OnOk result (book.new ≡ record book.old { guards = book.old.guards ++ role.now.guards }) }
    ensures onto { IsOnto book.old book.new }
{
    for entry in role.guards().as_slice() {
        let law = entry.value.copy(alloc)?;
        book.add_guard(entry.name.as_slice(), law)?;
    }
    Ok(())
}

/// Adds the laws of a role's actions. Those before stay where memory runs out.
fn add_acts(alloc: Global, book: &mut LawBook, role: &LawBook) -> Result<(), AddError>
    ensures ok { OnOk result (book.new ≡ record book.old { acts = book.old.acts ++ role.now.acts }) }
    ensures onto { IsOnto book.old book.new }
{
    for entry in role.acts().as_slice() {
        let law = entry.value.copy(alloc)?;
        book.add_act(entry.name.as_slice(), law)?;
    }
    Ok(())
}

/// Adds a role. What was added stays where memory runs out.
fn add_each(alloc: Global, book: &mut LawBook, role: &LawBook) -> Result<(), AddError>
    ensures ok { OnOk result (book.new ≡ joined role.now book.old) }
    ensures onto { IsOnto book.old book.new }
{
    add_kinds(book, role)?;
    add_guards(alloc, book, role)?;
    add_acts(alloc, book, role)
}

/// Adds a role, whole or not at all.
pub fn add_laws(alloc: Global, book: &mut LawBook, role: &LawBook) -> Result<(), AddError>
    ensures ok { OnOk result (book.new ≡ joined role.now book.old) }
    ensures err { OnErr result (book.new ≡ book.old) }
{
    let kinds = book.kinds().len();
    let guards = book.guards().len();
    let acts = book.acts().len();
    let added = add_each(alloc, book, role);
    if added.is_err() {
        book.truncate(kinds, guards, acts);
    }
    added
}
