//! Events that are run by an image, beside the same steps by the rows of its table.

ghost use Rattle.std.specs.Prelude.{IfOk};
ghost use Rattle.tab_step.specs.Bind.{IsBoundTo};
ghost use Rattle.tab_load.specs.Loading.{IsLoaded};

use crate::assembled::IMAGE;
use crate::loaded::IMAGE_1;
use base_list::AddError;
use std::alloc::{AllocError, Global};
use std::test::Fail;
use tab_asm::assemble;
use tab_call::{Ask, Do, Registry, StoredAct, StoredGuard};
use tab_image::run_event;
use tab_law::{
    ActLaw, Acted, Atom, Change, Field, GuardLaw, LawBook, PLACES, Scene, Term, Terms, Test,
    high_into, holds,
};
use tab_load::{Program, load};
use tab_step::{Bound, Event, MachineState, bind, step};
use tab_text::parse;

/// A client that waits for its answer.
const CLIENT: &str =
    "  State  Event                        Action         Next\n  Wait   CCA-I when mine and success  Grant-Service  \
        Done\n  Wait   CCA-I                        End-Service    Wait\n";

/// The same, and what ends its service. Its kinds and states are two.
const ENDING: &str =
    "  State  Event                        Action                      Next\n  Wait   CCA-I when mine and success  \
        Grant-Service               Done\n  Wait   CCA-I                        End-Service                 Wait\n  \
        Done   Tx                           End-Service, Grant-Service  Wait\n";

/// The places of the kinds Tx and CCA-I in the book; Go stands before them.
const TX: u8 = 1;

const CCA_I: u8 = 2;

/// A state, a kind, a request number, a Result-Code, and the row that takes the event, by the client's image:
/// in Done there are no rows, Tx and states past 1 it lacks, and kinds past 2 the book lacks.
const STEPS: &[(u8, u8, u64, u64, Option<u16>)] = &[
    (0, CCA_I, 0, 2001, Some(0)),
    (0, CCA_I, 0, 5012, Some(1)),
    (0, CCA_I, 1, 2001, Some(1)),
    (1, CCA_I, 0, 2001, None),
    (0, TX, 0, 2001, None),
    (0, 0, 0, 2001, None),
    (0, 3, 0, 2001, None),
    (0, 255, 0, 2001, None),
    (2, CCA_I, 0, 2001, None),
    (255, CCA_I, 0, 2001, None),
];

/// And by the image of the table that ends its service.
const ENDING_STEPS: &[(u8, u8, u64, u64, Option<u16>)] = &[
    (0, CCA_I, 0, 2001, Some(0)),
    (0, CCA_I, 1, 2001, Some(1)),
    (1, TX, 0, 0, Some(2)),
    (0, TX, 0, 0, None),
    (1, CCA_I, 0, 2001, None),
    (2, TX, 0, 0, None),
];

/// A guard that says yes where that fact is the atom.
fn equal(alloc: Global, fact: u8, atom: Atom) -> Result<GuardLaw, AllocError> {
    let mut tests = Vec::new(alloc);
    tests.push(Test::Equal(Field::Fact(fact), atom))?;
    Ok(GuardLaw::new(tests))
}

/// Register 5 becomes a number; a deed has that number and what the register was.
fn service(alloc: Global, value: u64) -> Result<ActLaw, AllocError> {
    let number = Term::Just(Atom::Constant(value));
    let terms = Terms::from_slice(alloc, &[number, Term::Just(Atom::Register(5))])?;
    let mut changes = Vec::new(alloc);
    changes.push(Change::Set(5, number))?;
    changes.push(Change::Emit(30, terms))?;
    Ok(ActLaw::new(changes))
}

/// The kinds Go, Tx and CCA-I, and the laws of the client's guards and actions.
fn laws(alloc: Global) -> Result<LawBook, AddError> {
    let mut book = LawBook::new(alloc);
    for name in [b"Go".as_slice(), b"Tx", b"CCA-I"] {
        book.add_kind(name)?;
    }
    book.add_guard(b"success", equal(alloc, 12, Atom::Constant(2001))?)?;
    book.add_guard(b"mine", equal(alloc, 6, Atom::Register(6))?)?;
    book.add_act(b"End-Service", service(alloc, 2)?)?;
    book.add_act(b"Grant-Service", service(alloc, 1)?)?;
    Ok(book)
}

/// A text's table, bound to a book.
fn bound_to(alloc: Global, text: &str, book: &LawBook) -> Result<Bound, Fail>
    ensures { IfOk result (λ bound. IsBoundTo bound book.now) }
{
    let table = parse(alloc, text.as_bytes())?;
    Ok(bind(alloc, table, book)?)
}

/// An image, loaded with a book.
fn loaded_with(alloc: Global, octets: &[u8], book: &LawBook) -> Result<Program, Fail>
    ensures { IfOk result (IsLoaded book.now) }
{
    match load(alloc, octets, book) {
        Ok(program) => Ok(program),
        Err(_) => Err(Fail::from("the image is loaded")),
    }
}

/// Whether an event leaves the same by the image as by the table, and that row takes it.
fn is_same_step(
    bound: &Bound,
    program: &Program,
    registry: &Registry,
    state: u8,
    event: Event,
    row: Option<u16>,
) -> bool
    requires bound { IsBoundTo bound.now registry.now.book }
    requires loaded { IsLoaded registry.now.book program.now }
{
    let mut regs = [0; PLACES];
    regs[5] = 7;
    let machine = MachineState { state, regs };
    let text = step(bound, registry, &machine, event);
    let image = run_event(program, registry, &machine, event);
    image.row == row
        && text.row == row
        && image.after == text.after
        && image.chain.as_slice() == text.chain.as_slice()
        && image.deeds.as_slice() == text.deeds.as_slice()
}

/// Whether each of these steps is the same.
fn are_same_steps(
    bound: &Bound,
    program: &Program,
    registry: &Registry,
    steps: &[(u8, u8, u64, u64, Option<u16>)],
) -> bool
    requires bound { IsBoundTo bound.now registry.now.book }
    requires loaded { IsLoaded registry.now.book program.now }
{
    for (state, kind, request, code, row) in steps {
        let mut facts = [0; PLACES];
        facts[6] = *request;
        facts[12] = *code;
        let event = Event { kind: *kind, facts };
        if !is_same_step(bound, program, registry, *state, event, *row) {
            return false;
        }
    }
    true
}

/// Whether the images of the client step as its table, in each format.
fn steps_as_text(alloc: Global, registry: &Registry) -> Result<bool, Fail> {
    let bound = bound_to(alloc, CLIENT, registry.laws())?;
    let two = loaded_with(alloc, IMAGE.as_slice(), registry.laws())?;
    let one = loaded_with(alloc, IMAGE_1.as_slice(), registry.laws())?;
    Ok(
        are_same_steps(&bound, &two, registry, STEPS)
            && are_same_steps(&bound, &one, registry, STEPS),
    )
}

/// Whether an image that was assembled steps as its table.
fn ends_as_text(alloc: Global, registry: &Registry) -> Result<bool, Fail> {
    let bound = bound_to(alloc, ENDING, registry.laws())?;
    let image = assemble(alloc, &bound)?;
    let program = loaded_with(alloc, image.as_slice(), registry.laws())?;
    Ok(are_same_steps(&bound, &program, registry, ENDING_STEPS))
}

#[test]
fn an_image_steps_as_the_text(rt: HostRuntime) -> Result<(), Fail> {
    let alloc = rt.alloc();
    let book = laws(alloc)?;
    let mut registry = Registry::new(alloc);
    for place in 0..book.kinds().len() {
        registry.add_kind(book.kinds().at(place).name.as_slice())?;
    }
    for place in 0..book.guards().len() {
        let entry = book.guards().at(place);
        let own = entry.value.copy(alloc)?;
        let ask: Ask = Box::new(alloc, move |scene: &Scene| holds(&own, scene))?;
        let stored = StoredGuard::new(entry.value.copy(alloc)?, ask);
        assert!(rt; registry.add_guard(entry.name.as_slice(), stored).is_ok());
    }
    for place in 0..book.acts().len() {
        let entry = book.acts().at(place);
        let own = entry.value.copy(alloc)?;
        let act: Do = Box::new(alloc, move |scene: &Scene, room: &mut Acted| {
            high_into(&own, scene, room);
        })?;
        let stored = StoredAct::new(entry.value.copy(alloc)?, act);
        assert!(rt; registry.add_act(entry.name.as_slice(), stored).is_ok());
    }
    assert!(rt; steps_as_text(alloc, &registry)?);
    assert!(rt; ends_as_text(alloc, &registry)?);
    Ok(())
}
