//! Guards, actions and whole books.
ghost use Rattle.std.specs.Prelude.{◌≡◌, ◌++◌, OnOk, codes};
ghost use Rattle.std.specs.List.{flat_map};
ghost use Rattle.law_text.specs.Sentences.{act_line, book_text, change_text, guard_line, kind_line, listed, test_text};

use crate::sentence::{put_change, put_test};
use base_list::Named;
use std::alloc::AllocError;
use tab_law::{ActLaw, Change, GuardLaw, LawBook, Test};

/// Puts the tests of a guard.
fn put_tests(out: &mut Vec<u8>, tests: &[Test]) -> Result<(), AllocError>
    ensures { OnOk result (out.new.items
        ≡ out.old.items ++ listed (codes "always") (codes " and ") test_text tests.now) }
{
    let [first, others @ ..] = tests else {
        return out.extend_from_slice(b"always");
    };
    put_test(out, first)?;
    for other in others {
        out.extend_from_slice(b" and ")?;
        put_test(out, other)?;
    }
    Ok(())
}

/// Puts the changes of an action.
fn put_changes(out: &mut Vec<u8>, changes: &[Change]) -> Result<(), AllocError>
    ensures { OnOk result (out.new.items
        ≡ out.old.items ++ listed (codes "nothing") (codes "; ") change_text changes.now) }
{
    let [first, others @ ..] = changes else {
        return out.extend_from_slice(b"nothing");
    };
    put_change(out, first)?;
    for other in others {
        out.extend_from_slice(b"; ")?;
        put_change(out, other)?;
    }
    Ok(())
}

/// Puts the name of a guard or an action.
fn put_name(out: &mut Vec<u8>, name: &[u8], behind: &[u8]) -> Result<(), AllocError>
    ensures { OnOk result (out.new.items ≡ out.old.items ++ codes "  " ++ name.now ++ behind.now) }
{
    out.extend_from_slice(b"  ")?;
    out.extend_from_slice(name)?;
    out.extend_from_slice(behind)
}

/// Puts a guard's line.
#[tactic(auto, unfolding(crate::specs::Sentences::guard_line))]
fn put_guard(out: &mut Vec<u8>, guard: &Named<GuardLaw>) -> Result<(), AllocError>
    ensures { OnOk result (out.new.items ≡ out.old.items ++ guard_line guard.now) }
{
    put_name(out, guard.name.as_slice(), b": ")?;
    put_tests(out, guard.value.tests())?;
    out.extend_from_slice(b"\n")
}

/// Puts an action's line.
#[tactic(auto, unfolding(crate::specs::Sentences::act_line))]
fn put_act(out: &mut Vec<u8>, act: &Named<ActLaw>) -> Result<(), AllocError>
    ensures { OnOk result (out.new.items ≡ out.old.items ++ act_line act.now) }
{
    put_name(out, act.name.as_slice(), b": ")?;
    put_changes(out, act.value.changes())?;
    out.extend_from_slice(b"\n")
}

/// Puts the kinds.
fn put_kinds(out: &mut Vec<u8>, kinds: &[Named<()>]) -> Result<(), AllocError>
    ensures { OnOk result (out.new.items ≡ out.old.items ++ flat_map kind_line kinds.now) }
{
    for kind in kinds {
        put_name(out, kind.name.as_slice(), b"\n")?;
    }
    Ok(())
}

/// Puts the guards.
fn put_guards(out: &mut Vec<u8>, guards: &[Named<GuardLaw>]) -> Result<(), AllocError>
    ensures { OnOk result (out.new.items ≡ out.old.items ++ flat_map guard_line guards.now) }
{
    for guard in guards {
        put_guard(out, guard)?;
    }
    Ok(())
}

/// Puts the actions.
fn put_acts(out: &mut Vec<u8>, acts: &[Named<ActLaw>]) -> Result<(), AllocError>
    ensures { OnOk result (out.new.items ≡ out.old.items ++ flat_map act_line acts.now) }
{
    for act in acts {
        put_act(out, act)?;
    }
    Ok(())
}

/// Puts a line for each kind, guard and action of a book, under the words `kinds`, `guards` and `actions`.
pub fn put_book(out: &mut Vec<u8>, book: &LawBook) -> Result<(), AllocError>
    ensures { OnOk result (out.new.items ≡ out.old.items ++ book_text book.now) }
{
    out.extend_from_slice(b"kinds\n")?;
    put_kinds(out, book.kinds().as_slice())?;
    out.extend_from_slice(b"guards\n")?;
    put_guards(out, book.guards().as_slice())?;
    out.extend_from_slice(b"actions\n")?;
    put_acts(out, book.acts().as_slice())
}
