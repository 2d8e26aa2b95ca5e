//! Tests and changes.
ghost use Rattle.std.specs.Prelude.{◌≡◌, ◌++◌, OnOk, codes, decimal};
ghost use Rattle.law_text.specs.Atoms.{atom_text, field_text, place_text, separated, term_text};
ghost use Rattle.law_text.specs.Sentences.{change_text, deed_text, emit_text, test_text};
ghost use Rattle.law_text.specs.declared.words.Reads.TheVariants.{Before, After};

use crate::words::{Reads, put_atom, put_field, put_place, put_term};
use base_codes::DeedCode;
use base_text::put_number;
use std::alloc::AllocError;
use tab_law::{Atom, Change, Field, Term, Test};

/// Puts numbers with commas between.
fn put_numbers(out: &mut Vec<u8>, numbers: &[u64]) -> Result<(), AllocError>
    ensures { OnOk result (out.new.items ≡ out.old.items ++ separated (codes ", ") decimal numbers.now) }
{
    let [first, others @ ..] = numbers else {
        return Ok(());
    };
    put_number(out, b"", *first)?;
    for other in others {
        put_number(out, b", ", *other)?;
    }
    Ok(())
}

/// Puts a field and an atom, with a sign between.
fn put_comparison(
    out: &mut Vec<u8>,
    field: Field,
    sign: &[u8],
    atom: Atom,
) -> Result<(), AllocError>
    ensures { OnOk result (out.new.items ≡ out.old.items ++ field_text field ++ sign.now ++ atom_text Before atom) }
{
    put_field(out, field)?;
    out.extend_from_slice(sign)?;
    put_atom(out, Reads::Before, atom)
}

/// Puts a test.
#[tactic(auto, unfolding(crate::specs::Sentences::test_text))]
pub(crate) fn put_test(out: &mut Vec<u8>, test: &Test) -> Result<(), AllocError>
    ensures { OnOk result (out.new.items ≡ out.old.items ++ test_text test.now) }
{
    match test {
        Test::Equal(field, atom) => put_comparison(out, *field, b" = ", *atom),
        Test::Differing(field, atom) => put_comparison(out, *field, b" <> ", *atom),
        Test::Below(field, atom) => put_comparison(out, *field, b" < ", *atom),
        Test::AtLeast(field, atom) => put_comparison(out, *field, b" >= ", *atom),
        Test::Among(field, numbers) => {
            put_field(out, *field)?;
            out.extend_from_slice(b" in ")?;
            put_numbers(out, numbers.as_slice())
        }
    }
}

/// Puts the arguments of a deed, with commas between.
fn put_arguments(out: &mut Vec<u8>, terms: &[Term]) -> Result<(), AllocError>
    ensures { OnOk result (out.new.items ≡ out.old.items ++ separated (codes ", ") (term_text After) terms.now) }
{
    let [first, others @ ..] = terms else {
        return Ok(());
    };
    put_term(out, Reads::After, first)?;
    for other in others {
        out.extend_from_slice(b", ")?;
        put_term(out, Reads::After, other)?;
    }
    Ok(())
}

/// Puts the name of a deed, or its code where it has none.
#[tactic(auto, unfolding(crate::specs::Sentences::deed_text))]
fn put_deed_name(out: &mut Vec<u8>, code: u16) -> Result<(), AllocError>
    ensures { OnOk result (out.new.items ≡ out.old.items ++ deed_text code) }
{
    match DeedCode::coded(code) {
        Some(deed) => out.extend_from_slice(deed.name().as_bytes()),
        None => put_number(out, b"", u64::from(code)),
    }
}

/// Puts a deed with its arguments.
#[tactic(auto, unfolding(crate::specs::Sentences::emit_text))]
fn put_emit(out: &mut Vec<u8>, code: u16, terms: &[Term]) -> Result<(), AllocError>
    ensures { OnOk result (out.new.items ≡ out.old.items ++ emit_text code terms.now) }
{
    put_deed_name(out, code)?;
    out.extend_from_slice(b"(")?;
    put_arguments(out, terms)?;
    out.extend_from_slice(b")")
}

/// Puts a register and what it becomes.
fn put_set(out: &mut Vec<u8>, register: u8, term: &Term) -> Result<(), AllocError>
    ensures { OnOk result (out.new.items
        ≡ out.old.items ++ place_text (codes "r") register ++ codes " := " ++ term_text Before term.now) }
{
    put_place(out, b"r", register)?;
    out.extend_from_slice(b" := ")?;
    put_term(out, Reads::Before, term)
}

/// Puts a change.
#[tactic(auto, unfolding(crate::specs::Sentences::change_text))]
pub(crate) fn put_change(out: &mut Vec<u8>, change: &Change) -> Result<(), AllocError>
    ensures { OnOk result (out.new.items ≡ out.old.items ++ change_text change.now) }
{
    match change {
        Change::Set(register, term) => put_set(out, *register, term),
        Change::Pick(register, low, high) => {
            put_set(out, *register, low)?;
            out.extend_from_slice(b" to ")?;
            put_term(out, Reads::Before, high)
        }
        Change::Emit(code, terms) => put_emit(out, *code, terms.as_slice()),
        Change::EmitIf(atom, code, terms) => {
            put_emit(out, *code, terms.as_slice())?;
            out.extend_from_slice(b" unless ")?;
            put_atom(out, Reads::After, *atom)?;
            out.extend_from_slice(b" is 0")
        }
    }
}
