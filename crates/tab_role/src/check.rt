//! What a guard asks, as data.

ghost use Rattle.std.specs.Prelude.{◌≡◌, ◌∷◌, [], IfOk};
ghost use Rattle.tab_role.specs.Entries.{test_of};

use std::alloc::{AllocError, Global};
use tab_law::{Atom, Field, GuardLaw, Numbers, Test};

/// The one thing that a guard asks of a field: a fact of the event or a register.
#[derive(Clone, Copy)]
pub enum Check {
    Equal(Field, Atom),
    Differing(Field, Atom),
    /// The field is less than the atom.
    Below(Field, Atom),
    /// The field is the atom or more.
    AtLeast(Field, Atom),
    /// The field is one of both numbers.
    Either(Field, u64, u64),
}

/// The test that a check is.
fn test_of(alloc: Global, check: Check) -> Result<Test, AllocError>
    ensures { IfOk result (λ test. test ≡ test_of check) }
{
    Ok(match check {
        Check::Equal(field, atom) => Test::Equal(field, atom),
        Check::Differing(field, atom) => Test::Differing(field, atom),
        Check::Below(field, atom) => Test::Below(field, atom),
        Check::AtLeast(field, atom) => Test::AtLeast(field, atom),
        Check::Either(field, one, other) => {
            let numbers = Vec::from_slice(alloc, &[one, other])?;
            Test::Among(field, Numbers::new(numbers))
        }
    })
}

/// The law of a guard that asks one thing.
pub(crate) fn guard_law(alloc: Global, check: Check) -> Result<GuardLaw, AllocError>
    ensures { IfOk result (λ law. law ≡ test_of check ∷ []) }
{
    let mut tests = Vec::new(alloc);
    tests.push(test_of(alloc, check)?)?;
    Ok(GuardLaw::new(tests))
}
