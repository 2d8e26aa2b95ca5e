//! Why a guard says no: the first test of its law that isn't met.
ghost use Rattle.std.specs.Prelude.{◌≡◌, ◌++◌, OnOk};
ghost use Rattle.std.specs.Option.{option_map};
ghost use Rattle.tab_law.specs.Guards.{field_value, is_met};
ghost use Rattle.tab_law.specs.Values.{atom_value, place_at};
ghost use Rattle.law_text.specs.Unmet.{atom_note, field_of, field_words, first_unmet, note_of, unmet_text};

use crate::sentence::put_test;
use crate::words::{Reads, put_atom, put_place};
use base_text::put_number;
use std::alloc::AllocError;
use tab_law::{Atom, Field, GuardLaw, PLACES, Scene, Test};

/// The value at a place to which numbers count round.
fn place_at(places: &[u64; PLACES], number: u8) -> u64
    ensures { result ≡ place_at places.now number }
{
    places[number as usize % PLACES]
}

fn field_value(scene: &Scene, field: Field) -> u64
    ensures { result ≡ field_value scene.now field }
{
    match field {
        Field::Register(number) => place_at(&scene.regs, number),
        Field::Fact(number) => place_at(&scene.facts, number),
    }
}

fn atom_value(scene: &Scene, atom: Atom) -> u64
    ensures { result ≡ atom_value scene.now scene.now.regs atom }
{
    match atom {
        Atom::Constant(value) => value,
        Atom::Fact(number) => place_at(&scene.facts, number),
        Atom::Register(number) | Atom::NewRegister(number) => place_at(&scene.regs, number),
    }
}

fn is_met(scene: &Scene, test: &Test) -> bool
    ensures { result ≡ is_met scene.now test.now }
{
    match test {
        Test::Equal(f, a) => field_value(scene, *f) == atom_value(scene, *a),
        Test::Differing(f, a) => field_value(scene, *f) != atom_value(scene, *a),
        Test::Below(f, a) => field_value(scene, *f) < atom_value(scene, *a),
        Test::AtLeast(f, a) => field_value(scene, *f) >= atom_value(scene, *a),
        Test::Among(f, numbers) => numbers.contains(field_value(scene, *f)),
    }
}

/// The first test of a guard's law that isn't met, where it says no.
pub fn first_unmet<'a>(law: &'a GuardLaw, scene: &Scene) -> Option<&'a Test>
    ensures { option_map (λ test. test.now) result ≡ first_unmet scene.now law.now }
{
    for test in law.tests() {
        if !is_met(scene, test) {
            return Some(test);
        }
    }
    None
}

/// What a test looks at.
fn field_of(test: &Test) -> Field
    ensures { result ≡ field_of test.now }
{
    match test {
        Test::Equal(field, _)
        | Test::Differing(field, _)
        | Test::Below(field, _)
        | Test::AtLeast(field, _)
        | Test::Among(field, _) => *field,
    }
}

/// Puts a field in words.
#[tactic(auto, unfolding(crate::specs::Unmet::field_words))]
fn put_field_words(out: &mut Vec<u8>, field: Field) -> Result<(), AllocError>
    ensures { OnOk result (out.new.items ≡ out.old.items ++ field_words field) }
{
    match field {
        Field::Register(number) => put_place(out, b"register ", number),
        Field::Fact(number) => put_place(out, b"fact ", number),
    }
}

/// Puts the value of what a field is compared with, where the law doesn't say it.
#[tactic(auto, unfolding(crate::specs::Unmet::atom_note))]
fn put_atom_note(out: &mut Vec<u8>, scene: &Scene, atom: Atom) -> Result<(), AllocError>
    ensures { OnOk result (out.new.items ≡ out.old.items ++ atom_note scene.now atom) }
{
    if let Atom::Constant(_) = atom {
        return Ok(());
    }
    out.extend_from_slice(b", where ")?;
    put_atom(out, Reads::Before, atom)?;
    put_number(out, b" is ", atom_value(scene, atom))
}

/// Puts the same for a test.
fn put_note(out: &mut Vec<u8>, scene: &Scene, test: &Test) -> Result<(), AllocError>
    ensures { OnOk result (out.new.items ≡ out.old.items ++ note_of scene.now test.now) }
{
    match test {
        Test::Equal(_, atom)
        | Test::Differing(_, atom)
        | Test::Below(_, atom)
        | Test::AtLeast(_, atom) => put_atom_note(out, scene, *atom),
        Test::Among(_, _) => Ok(()),
    }
}

/// Puts why a test isn't met: what it looked at and the value there, and what was wanted.
#[tactic(auto, unfolding(crate::specs::Unmet::unmet_text))]
pub fn put_unmet(out: &mut Vec<u8>, scene: &Scene, test: &Test) -> Result<(), AllocError>
    ensures { OnOk result (out.new.items ≡ out.old.items ++ unmet_text scene.now test.now) }
{
    let field = field_of(test);
    put_field_words(out, field)?;
    put_number(out, b" is ", field_value(scene, field))?;
    out.extend_from_slice(b", wanted ")?;
    put_test(out, test)?;
    put_note(out, scene, test)
}
