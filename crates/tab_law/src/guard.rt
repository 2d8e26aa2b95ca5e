//! What a guard answers by its law.
ghost use Rattle.std.specs.Prelude.{◌≡◌};
ghost use Rattle.tab_law.specs.Guards.{field_value, is_met, says_yes};

use crate::law::{Field, GuardLaw, Test};
use crate::scene::Scene;
use crate::value::{atom, place};

/// The number that a field holds.
fn field(scene: &Scene, field: Field) -> u64
    ensures { result ≡ field_value scene.now field }
{
    match field {
        Field::Register(number) => place(&scene.regs, number),
        Field::Fact(number) => place(&scene.facts, number),
    }
}

/// Whether a test is met.
fn meets(scene: &Scene, test: &Test) -> bool
    ensures { result ≡ is_met scene.now test.now }
{
    match test {
        Test::Equal(f, a) => field(scene, *f) == atom(scene, &scene.regs, *a),
        Test::Differing(f, a) => field(scene, *f) != atom(scene, &scene.regs, *a),
        Test::Below(f, a) => field(scene, *f) < atom(scene, &scene.regs, *a),
        Test::AtLeast(f, a) => field(scene, *f) >= atom(scene, &scene.regs, *a),
        Test::Among(f, numbers) => numbers.contains(field(scene, *f)),
    }
}

/// What a guard answers by its law.
pub fn holds(law: &GuardLaw, scene: &Scene) -> bool
    ensures { result ≡ says_yes law.now scene.now }
{
    law.tests().iter().all(|test| meets(scene, test))
}
