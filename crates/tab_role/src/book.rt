//! The law book of a role's entries.

ghost use Rattle.std.specs.Prelude.{◌≡◌, ◌++◌, IfOk, OnOk, map};
ghost use Rattle.tab_role.specs.Entries.{kind_of, guard_of, act_of, laws_of};

use crate::check::{Check, guard_law};
use crate::step::{ActionStep, act_law};
use base_list::AddError;
use std::alloc::{AllocError, Global};
use tab_law::LawBook;

/// A guard: its name and what it asks.
pub type GuardEntry = (&'static str, Check);

/// An action: its name and what it does.
pub type ActEntry = (&'static str, &'static [ActionStep]);

/// Adds kinds of events.
fn add_kinds(book: &mut LawBook, names: &[&'static str]) -> Result<(), AddError>
    ensures { OnOk result (book.new ≡ record book.old { kinds = book.old.kinds ++ map kind_of names.now }) }
{
    for name in names {
        book.add_kind(name.as_bytes())?;
    }
    Ok(())
}

/// Adds guards.
fn add_guards(alloc: Global, book: &mut LawBook, entries: &[GuardEntry]) -> Result<(), AddError>
    ensures { OnOk result (book.new ≡ record book.old { guards = book.old.guards ++ map guard_of entries.now }) }
{
    for (name, check) in entries {
        book.add_guard(name.as_bytes(), guard_law(alloc, *check)?)?;
    }
    Ok(())
}

/// Adds actions.
fn add_acts(alloc: Global, book: &mut LawBook, entries: &[ActEntry]) -> Result<(), AddError>
    ensures { OnOk result (book.new ≡ record book.old { acts = book.old.acts ++ map act_of entries.now }) }
{
    for (name, steps) in entries {
        book.add_act(name.as_bytes(), act_law(alloc, steps)?)?;
    }
    Ok(())
}

/// Adds all entries of a role.
fn add_all(
    alloc: Global,
    book: &mut LawBook,
    kinds: &[&'static str],
    guards: &[GuardEntry],
    acts: &[ActEntry],
) -> Result<(), AddError>
    ensures kinds { OnOk result (book.new.kinds ≡ book.old.kinds ++ map kind_of kinds.now) }
    ensures guards { OnOk result (book.new.guards ≡ book.old.guards ++ map guard_of guards.now) }
    ensures acts { OnOk result (book.new.acts ≡ book.old.acts ++ map act_of acts.now) }
{
    add_kinds(book, kinds)?;
    add_guards(alloc, book, guards)?;
    add_acts(alloc, book, acts)
}

/// The law book of a role: its kinds of events by name, its guards and its actions, in the order of their entries. A
/// role's entries name nothing twice and are no more than a book has room for; what is short where there is none is
/// then memory.
pub fn laws_of(
    alloc: Global,
    kinds: &[&'static str],
    guards: &[GuardEntry],
    acts: &[ActEntry],
) -> Result<LawBook, AllocError>
    ensures { IfOk result (λ book. book ≡ laws_of kinds.now guards.now acts.now) }
{
    let mut book = LawBook::new(alloc);
    match add_all(alloc, &mut book, kinds, guards, acts) {
        Ok(()) => Ok(book),
        Err(_) => Err(AllocError),
    }
}
