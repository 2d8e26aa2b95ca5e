//! Laws of guards and actions as data.
ghost use Rattle.std.specs.Prelude.{◌≡◌, ℕ, ◌≤◌, List, length, ◌==◌, ◌↔◌, IfOk, IsTrue};
ghost use Rattle.std.specs.List.{list_any};

use crate::limits::{MAX_NUMBERS, MAX_TESTS, PLACES};
use std::alloc::{AllocError, Global};
use std::marker::Model;

/// A number that a law reads. Numbers of registers and facts count round.
#[derive(Clone, Copy, PartialEq, Eq)]
pub enum Atom {
    Constant(u64),
    /// A register before the action.
    Register(u8),
    /// A fact of the event.
    Fact(u8),
    /// In an Emit or an EmitIf a register after the action, elsewhere the same as `Register`.
    NewRegister(u8),
}

/// A number that a law makes of one or two atoms.
#[derive(Clone, Copy)]
pub enum Term {
    Just(Atom),
    /// Their sum, at most 2^64 - 1.
    Sum(Atom, Atom),
    /// The first less the second, at least 0.
    Difference(Atom, Atom),
    /// The lesser of them.
    Least(Atom, Atom),
}

impl Term {
    /// Whether two terms are the same, written alike.
    pub fn is_same(&self, other: &Term) -> bool
        ensures { IsTrue result ↔ (self.now ≡ other.now) }
    {
        match (self, other) {
            (Term::Just(a), Term::Just(b)) => a == b,
            (Term::Sum(a, b), Term::Sum(c, d)) => a == c && b == d,
            (Term::Difference(a, b), Term::Difference(c, d)) => a == c && b == d,
            (Term::Least(a, b), Term::Least(c, d)) => a == c && b == d,
            _ => false,
        }
    }
}

/// What a test looks at. Numbers count round.
#[derive(Clone, Copy, PartialEq, Eq)]
pub enum Field {
    Register(u8),
    Fact(u8),
}

/// At most [`MAX_NUMBERS`] numbers.
pub struct Numbers {
    items: Vec<u64>,
}

// A derived `drop` is proved anew in each crate that holds one; this one, like those below, is a call.
impl Drop for Numbers {
    fn drop(self) {
        let Numbers { items } = self;
    }
}

impl Model for Numbers {
    ghost use Rattle.std.specs.Prelude.{List, ℕ, ◌≤◌, length};
    ghost use Rattle.tab_law.specs.declared.limits.TheConstants.{MAX_NUMBERS};

    ghost Value = { List ℕ };

    ghost view = { λ n. n.items.items };

    ghost invariant = { λ n. length n.items.items ≤ MAX_NUMBERS };
}

impl Numbers {
    pub fn new(items: Vec<u64>) -> Numbers
        requires { length items.items ≤ MAX_NUMBERS }
        ensures { result ≡ items.items }
    {
        Numbers { items }
    }

    pub fn copy(&self, alloc: Global) -> Result<Numbers, AllocError>
        ensures { IfOk result (λ n. n ≡ self.now) }
    {
        let items = Vec::from_slice(alloc, self.items.as_slice())?;
        Ok(Numbers { items })
    }

    pub fn contains(&self, number: u64) -> bool
        ensures { result ≡ list_any (λ n. n == number) self.now }
    {
        self.items.iter().any(|n| *n == number)
    }

    pub fn as_slice(&self) -> &[u64]
        ensures value { result.now ≡ self.now }
        ensures few { length self.now ≤ MAX_NUMBERS }
    {
        self.items.as_slice()
    }
}

/// A condition on a field of a scene.
#[derive(Drop)]
pub enum Test {
    Equal(Field, Atom),
    Differing(Field, Atom),
    /// The field is less than the atom.
    Below(Field, Atom),
    /// The field is the atom or more.
    AtLeast(Field, Atom),
    /// The field is one of the numbers.
    Among(Field, Numbers),
}

impl Test {
    pub fn copy(&self, alloc: Global) -> Result<Test, AllocError>
        ensures { IfOk result (λ t. t ≡ self.now) }
    {
        Ok(match self {
            Test::Equal(field, atom) => Test::Equal(*field, *atom),
            Test::Differing(field, atom) => Test::Differing(*field, *atom),
            Test::Below(field, atom) => Test::Below(*field, *atom),
            Test::AtLeast(field, atom) => Test::AtLeast(*field, *atom),
            Test::Among(field, numbers) => Test::Among(*field, numbers.copy(alloc)?),
        })
    }

    /// Whether two tests are the same, written alike.
    pub fn is_same(&self, other: &Test) -> bool
        ensures { IsTrue result ↔ (self.now ≡ other.now) }
    {
        match (self, other) {
            (Test::Equal(f, a), Test::Equal(g, b)) => f == g && a == b,
            (Test::Differing(f, a), Test::Differing(g, b)) => f == g && a == b,
            (Test::Below(f, a), Test::Below(g, b)) => f == g && a == b,
            (Test::AtLeast(f, a), Test::AtLeast(g, b)) => f == g && a == b,
            (Test::Among(f, a), Test::Among(g, b)) => f == g && a.as_slice() == b.as_slice(),
            _ => false,
        }
    }
}

/// When a guard says yes: where all its tests are met, of which it has at most [`MAX_TESTS`].
pub struct GuardLaw {
    tests: Vec<Test>,
}

impl Drop for GuardLaw {
    fn drop(self) {
        let GuardLaw { tests } = self;
    }
}

impl Model for GuardLaw {
    ghost use Rattle.std.specs.Prelude.{List, ◌≤◌, length};
    ghost use Rattle.tab_law.specs.declared.limits.TheConstants.{MAX_TESTS};
    ghost use Rattle.tab_law.specs.declared.law.Test.{Test};

    ghost Value = { List Test };

    ghost view = { λ law. law.tests.items };

    ghost invariant = { λ law. length law.tests.items ≤ MAX_TESTS };
}

impl GuardLaw {
    pub fn new(tests: Vec<Test>) -> GuardLaw
        requires { length tests.items ≤ MAX_TESTS }
        ensures { result ≡ tests.items }
    {
        GuardLaw { tests }
    }

    pub fn copy(&self, alloc: Global) -> Result<GuardLaw, AllocError>
        ensures { IfOk result (λ law. law ≡ self.now) }
    {
        let mut tests = Vec::new(alloc);
        for test in self.tests() {
            tests.push(test.copy(alloc)?)?;
        }
        Ok(GuardLaw { tests })
    }

    pub fn tests(&self) -> &[Test]
        ensures value { result.now ≡ self.now }
        ensures few { length self.now ≤ MAX_TESTS }
    {
        self.tests.as_slice()
    }

    /// Whether two laws are the same, test by test.
    pub fn is_same(&self, other: &GuardLaw) -> bool
        ensures { IsTrue result ↔ (self.now ≡ other.now) }
    {
        if self.tests().len() != other.tests().len() {
            return false;
        }
        for (i, test) in self.tests().iter().enumerate() {
            if !test.is_same(&other.tests()[i]) {
                return false;
            }
        }
        true
    }
}

/// The arguments of a deed, in order: at most [`PLACES`] terms. Arguments behind them are 0.
pub struct Terms {
    items: Vec<Term>,
}

impl Drop for Terms {
    fn drop(self) {
        let Terms { items } = self;
    }
}

impl Model for Terms {
    ghost use Rattle.std.specs.Prelude.{List, ◌≤◌, length};
    ghost use Rattle.tab_law.specs.declared.limits.TheConstants.{PLACES};
    ghost use Rattle.tab_law.specs.declared.law.Term.{Term};

    ghost Value = { List Term };

    ghost view = { λ t. t.items.items };

    ghost invariant = { λ t. length t.items.items ≤ PLACES };
}

impl Terms {
    /// The terms that a vector holds. Takes no memory.
    pub fn new(items: Vec<Term>) -> Terms
        requires { length items.items ≤ PLACES }
        ensures { result ≡ items.items }
    {
        Terms { items }
    }

    /// A copy of a slice.
    pub fn from_slice(alloc: Global, items: &[Term]) -> Result<Terms, AllocError>
        requires { length items.now ≤ PLACES }
        ensures { IfOk result (λ t. t ≡ items.now) }
    {
        let items = Vec::from_slice(alloc, items)?;
        Ok(Terms { items })
    }

    pub fn copy(&self, alloc: Global) -> Result<Terms, AllocError>
        ensures { IfOk result (λ t. t ≡ self.now) }
    {
        Terms::from_slice(alloc, self.as_slice())
    }

    pub fn as_slice(&self) -> &[Term]
        ensures value { result.now ≡ self.now }
        ensures few { length self.now ≤ PLACES }
    {
        self.items.as_slice()
    }

    /// Whether two lists are the same, term by term.
    pub fn is_same(&self, other: &Terms) -> bool
        ensures { IsTrue result ↔ (self.now ≡ other.now) }
    {
        if self.as_slice().len() != other.as_slice().len() {
            return false;
        }
        for (i, term) in self.as_slice().iter().enumerate() {
            if !term.is_same(&other.as_slice()[i]) {
                return false;
            }
        }
        true
    }
}

/// What an action may do to a register, or has to do to the outside.
#[derive(Drop)]
pub enum Change {
    /// The register becomes the term.
    Set(u8, Term),
    /// The register becomes any value up to the second term, from the lesser of both terms on.
    Pick(u8, Term, Term),
    /// A deed of that code, with those arguments.
    Emit(u16, Terms),
    /// An Emit that does its deed only where the atom isn't 0. The atom reads what an Emit's terms read.
    EmitIf(Atom, u16, Terms),
}

impl Change {
    pub fn copy(&self, alloc: Global) -> Result<Change, AllocError>
        ensures { IfOk result (λ c. c ≡ self.now) }
    {
        Ok(match self {
            Change::Set(register, term) => Change::Set(*register, *term),
            Change::Pick(register, low, high) => Change::Pick(*register, *low, *high),
            Change::Emit(code, terms) => Change::Emit(*code, terms.copy(alloc)?),
            Change::EmitIf(atom, code, terms) => Change::EmitIf(*atom, *code, terms.copy(alloc)?),
        })
    }

    /// Whether two changes are the same, written alike.
    pub fn is_same(&self, other: &Change) -> bool
        ensures { IsTrue result ↔ (self.now ≡ other.now) }
    {
        match (self, other) {
            (Change::Set(r, t), Change::Set(q, u)) => r == q && t.is_same(u),
            (Change::Pick(r, s, t), Change::Pick(q, u, v)) => {
                r == q && s.is_same(u) && t.is_same(v)
            }
            (Change::Emit(c, ts), Change::Emit(d, us)) => c == d && ts.is_same(us),
            (Change::EmitIf(a, c, ts), Change::EmitIf(b, d, us)) => {
                a == b && c == d && ts.is_same(us)
            }
            _ => false,
        }
    }
}

/// What an action may answer: of a register the last Set or Pick counts, of Emits and EmitIfs the
/// first four, and registers without a change stay.
pub struct ActLaw {
    changes: Vec<Change>,
}

impl Drop for ActLaw {
    fn drop(self) {
        let ActLaw { changes } = self;
    }
}

impl Model for ActLaw {
    ghost use Rattle.std.specs.Prelude.{List};
    ghost use Rattle.tab_law.specs.declared.law.Change.{Change};

    ghost Value = { List Change };

    ghost view = { λ law. law.changes.items };
}

impl ActLaw {
    pub fn new(changes: Vec<Change>) -> ActLaw
        ensures { result ≡ changes.items }
    {
        ActLaw { changes }
    }

    pub fn copy(&self, alloc: Global) -> Result<ActLaw, AllocError>
        ensures { IfOk result (λ law. law ≡ self.now) }
    {
        let mut changes = Vec::new(alloc);
        for change in self.changes() {
            changes.push(change.copy(alloc)?)?;
        }
        Ok(ActLaw { changes })
    }

    pub fn changes(&self) -> &[Change]
        ensures { result.now ≡ self.now }
    {
        self.changes.as_slice()
    }

    /// Whether two laws are the same, change by change.
    pub fn is_same(&self, other: &ActLaw) -> bool
        ensures { IsTrue result ↔ (self.now ≡ other.now) }
    {
        if self.changes().len() != other.changes().len() {
            return false;
        }
        for (i, change) in self.changes().iter().enumerate() {
            if !change.is_same(&other.changes()[i]) {
                return false;
            }
        }
        true
    }
}
