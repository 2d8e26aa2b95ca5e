//! Atoms and terms.
ghost use Rattle.std.specs.Prelude.{◌≡◌, ◌++◌, OnOk};
ghost use Rattle.law_text.specs.Atoms.{atom_text, field_text, place_text, term_text};

use base_text::put_number;
use std::alloc::AllocError;
use tab_law::{Atom, Field, PLACES, Term};

/// What an atom of a register after the action reads: only the arguments of deeds see that register.
#[derive(Clone, Copy)]
pub(crate) enum Reads {
    Before,
    After,
}

/// Puts a letter and a place, to which numbers count round.
#[tactic(auto, unfolding(crate::specs::Atoms::place_text))]
pub(crate) fn put_place(out: &mut Vec<u8>, letter: &[u8], number: u8) -> Result<(), AllocError>
    ensures { OnOk result (out.new.items ≡ out.old.items ++ place_text letter.now number) }
{
    put_number(out, letter, (number as usize % PLACES) as u64)
}

/// Puts an atom.
#[tactic(auto, unfolding(crate::specs::Atoms::atom_text))]
pub(crate) fn put_atom(out: &mut Vec<u8>, reads: Reads, atom: Atom) -> Result<(), AllocError>
    ensures { OnOk result (out.new.items ≡ out.old.items ++ atom_text reads atom) }
{
    match (atom, reads) {
        (Atom::Constant(value), _) => put_number(out, b"", value),
        (Atom::Fact(number), _) => put_place(out, b"f", number),
        (Atom::NewRegister(number), Reads::After) => {
            put_place(out, b"r", number)?;
            out.extend_from_slice(b" after")
        }
        (Atom::Register(number) | Atom::NewRegister(number), _) => put_place(out, b"r", number),
    }
}

/// Puts two atoms with words before and between them.
fn put_two(
    out: &mut Vec<u8>,
    reads: Reads,
    words: (&[u8], &[u8]),
    atoms: (Atom, Atom),
) -> Result<(), AllocError>
    ensures { OnOk result (out.new.items ≡ out.old.items
        ++ words.entry.0.now ++ atom_text reads atoms.0 ++ words.entry.1.now ++ atom_text reads atoms.1) }
{
    out.extend_from_slice(words.0)?;
    put_atom(out, reads, atoms.0)?;
    out.extend_from_slice(words.1)?;
    put_atom(out, reads, atoms.1)
}

/// Puts a term.
#[tactic(auto, unfolding(crate::specs::Atoms::term_text))]
pub(crate) fn put_term(out: &mut Vec<u8>, reads: Reads, term: &Term) -> Result<(), AllocError>
    ensures { OnOk result (out.new.items ≡ out.old.items ++ term_text reads term.now) }
{
    match term {
        Term::Just(a) => put_atom(out, reads, *a),
        Term::Sum(a, b) => put_two(out, reads, (b"", b" + "), (*a, *b)),
        Term::Difference(a, b) => put_two(out, reads, (b"", b" - "), (*a, *b)),
        Term::Least(a, b) => put_two(out, reads, (b"least of ", b" and "), (*a, *b)),
    }
}

/// Puts what a test looks at.
#[tactic(auto, unfolding(crate::specs::Atoms::field_text))]
pub(crate) fn put_field(out: &mut Vec<u8>, field: Field) -> Result<(), AllocError>
    ensures { OnOk result (out.new.items ≡ out.old.items ++ field_text field) }
{
    match field {
        Field::Register(number) => put_place(out, b"r", number),
        Field::Fact(number) => put_place(out, b"f", number),
    }
}
