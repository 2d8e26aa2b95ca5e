//! The values of atoms and terms.
ghost use Rattle.std.specs.Prelude.{◌≡◌, ◌%◌};
ghost use Rattle.tab_law.specs.Values.{place_at, atom_value, term_value};

use crate::law::{Atom, Term};
use crate::limits::PLACES;
use crate::scene::Scene;

/// The value at a number that counts round.
#[inline(always)]
pub fn place(places: &[u64; PLACES], number: u8) -> u64
    ensures { result ≡ place_at places.now number }
{
    places[number as usize % PLACES]
}

/// What an atom stands for, where an action leaves the registers as `new`.
#[inline(always)]
pub fn atom(scene: &Scene, new: &[u64; PLACES], atom: Atom) -> u64
    ensures { result ≡ atom_value scene.now new.now atom }
{
    match atom {
        Atom::Constant(value) => value,
        Atom::Register(number) => place(&scene.regs, number),
        Atom::Fact(number) => place(&scene.facts, number),
        Atom::NewRegister(number) => place(new, number),
    }
}

/// What a term stands for there.
#[inline(always)]
pub fn term(scene: &Scene, new: &[u64; PLACES], term: Term) -> u64
    ensures { result ≡ term_value scene.now new.now term }
{
    match term {
        Term::Just(a) => atom(scene, new, a),
        Term::Sum(a, b) => atom(scene, new, a).saturating_add(atom(scene, new, b)),
        Term::Difference(a, b) => atom(scene, new, a).saturating_sub(atom(scene, new, b)),
        Term::Least(a, b) => atom(scene, new, a).min(atom(scene, new, b)),
    }
}
