//! Steps over stored callbacks: which row takes an event, what its actions leave, and which tables are bound.

ghost use Rattle.std.specs.Prelude.{IfSome};
ghost use Rattle.tab_law.specs.Acts.{Permits};
ghost use Rattle.tab_step.specs.Bind.{IsBoundTo};

use base_codes::{DeedCode, session_fact, session_register};
use base_list::{AddError, AddFault};
use std::alloc::{AllocError, Global};
use std::test::Fail;
use tab_call::{Ask, Do, Registry, StoredAct, StoredGuard};
use tab_law::{
    ActLaw, Acted, Atom, Change, Deed, Field, GuardLaw, LawBook, PLACES, Scene, Term, Terms, Test,
    emitted, high_into, holds, permits,
};
use tab_step::{Bound, Event, MachineState, Stepped, Unbound, bind, is_step, run, step, step_into};
use tab_text::parse;

/// A client that waits for its answer.
const CLIENT: &str =
    "  State  Event                        Action         Next\n  Wait   CCA-I when mine and success  Grant-Service  \
        Done\n  Wait   CCA-I                        End-Service    Wait\n";

/// A row with as many guards and actions as a row may have.
const BUSY: &str =
    "  State  Event                        Action                                          Next\n  Wait   Go when a \
        and b and c and d  Four, Four, Four, Four, Four, Four, Four, Four  Done\n";

/// The numbers of the facts of an answer's request number, and of its Result-Code.
const NUMBER: u8 = session_fact::REQUEST_NUMBER as u8;

const RESULT: u8 = session_fact::RESULT_CODE as u8;

fn number(value: u64) -> Term {
    Term::Just(Atom::Constant(value))
}

/// A guard that says yes where that fact is the atom.
fn equal(alloc: Global, fact: u8, atom: Atom) -> Result<GuardLaw, AllocError> {
    let mut tests = Vec::new(alloc);
    tests.push(Test::Equal(Field::Fact(fact), atom))?;
    Ok(GuardLaw::new(tests))
}

/// The deed of that code whose arguments are all 0 but the first.
fn emit(alloc: Global, code: DeedCode, first: Term) -> Result<Change, AllocError> {
    let terms = Terms::from_slice(alloc, &[first])?;
    Ok(Change::Emit(code.number(), terms))
}

/// Keeps what the service is told, and tells it.
fn service(alloc: Global, value: u64) -> Result<ActLaw, AllocError> {
    let register = session_register::SERVICE as u8;
    let mut changes = Vec::new(alloc);
    changes.push(Change::Set(register, number(value)))?;
    changes.push(emit(alloc, DeedCode::Service, number(value))?)?;
    Ok(ActLaw::new(changes))
}

/// The first register becomes one more, and is in four deeds.
fn four(alloc: Global) -> Result<ActLaw, AllocError> {
    let more = Term::Sum(Atom::Register(1), Atom::Constant(1));
    let mut changes = Vec::new(alloc);
    changes.push(Change::Set(1, more))?;
    for _ in 0..4u8 {
        changes.push(emit(alloc, DeedCode::Undial, Term::Just(Atom::NewRegister(1)))?)?;
    }
    Ok(ActLaw::new(changes))
}

/// Adds a guard that says yes where that fact is the atom.
fn adds_equal(alloc: Global, book: &mut LawBook, name: &[u8], fact: u8, atom: Atom) -> bool {
    match equal(alloc, fact, atom) {
        Ok(law) => book.add_guard(name, law).is_ok(),
        Err(_) => false,
    }
}

/// Adds an action that tells the service.
fn adds_service(alloc: Global, book: &mut LawBook, name: &[u8], value: u64) -> bool {
    match service(alloc, value) {
        Ok(law) => book.add_act(name, law).is_ok(),
        Err(_) => false,
    }
}

/// Adds the laws of the client's names, and the kind Tx beside its own.
fn adds_client(alloc: Global, book: &mut LawBook) -> bool {
    let own = Atom::Register(session_register::REQUEST_NUMBER as u8);
    let success = Atom::Constant(2001);
    book.add_kind(b"CCA-I").is_ok()
        && book.add_kind(b"Tx").is_ok()
        && adds_equal(alloc, book, b"success", RESULT, success)
        && adds_equal(alloc, book, b"mine", NUMBER, own)
        && adds_service(alloc, book, b"End-Service", 2)
        && adds_service(alloc, book, b"Grant-Service", 1)
}

/// Adds the kind Go, guards that say yes where register 0 is 0, and an action of four deeds.
fn adds_busy(alloc: Global, book: &mut LawBook) -> bool {
    let mut all = book.add_kind(b"Go").is_ok();
    for name in [b"a", b"b", b"c", b"d"] {
        all = all && adds_equal(alloc, book, name, 0, Atom::Register(0));
    }
    match four(alloc) {
        Ok(law) => all && book.add_act(b"Four", law).is_ok(),
        Err(_) => false,
    }
}

fn fills_book(alloc: Global, book: &mut LawBook) -> bool {
    adds_client(alloc, book) && adds_busy(alloc, book)
}

fn start() -> MachineState {
    MachineState {
        state: 0,
        regs: [0; PLACES],
    }
}

/// An event with that request number and Result-Code.
fn event(kind: u8, request: u64, code: u64) -> Event {
    let mut facts = [0; PLACES];
    facts[session_fact::REQUEST_NUMBER] = request;
    facts[session_fact::RESULT_CODE] = code;
    Event { kind, facts }
}

/// A text's table, bound to a book.
fn bound_to(alloc: Global, text: &str, book: &LawBook) -> Option<Bound>
    ensures { IfSome result (λ bound. IsBoundTo bound book.now) }
{
    let Ok(table) = parse(alloc, text.as_bytes()) else {
        return None;
    };
    match bind(alloc, table, book) {
        Ok(bound) => Some(bound),
        Err(_) => None,
    }
}

/// What is compared of a step: its row, the state and the service's register after it, and its only
/// deed's code and first argument.
type Outcome = (Option<u16>, u8, u64, u16, u64);

fn is_outcome(stepped: &Stepped, wanted: Outcome) -> bool {
    match stepped.deeds.as_slice() {
        [deed] => {
            let service = stepped.after.regs[session_register::SERVICE];
            (
                stepped.row,
                stepped.after.state,
                service,
                deed.code,
                deed.a[0],
            ) == wanted
        }
        _ => false,
    }
}

/// Whether these are the outcomes of steps.
fn are_outcomes(steps: &[Stepped], wanted: &[Outcome]) -> bool {
    steps.len() == wanted.len()
        && steps
            .iter()
            .zip(wanted)
            .all(|(stepped, wanted)| is_outcome(stepped, *wanted))
}

/// The row that takes an event at the start.
fn row_of(bound: &Bound, registry: &Registry, event: Event) -> Option<u16>
    requires { IsBoundTo bound.now registry.now.book }
{
    step(bound, registry, &start(), event).row
}

/// Whether answers with these numbers and codes are taken by these rows.
fn are_taken(bound: &Bound, registry: &Registry) -> bool
    requires { IsBoundTo bound.now registry.now.book }
{
    row_of(bound, registry, event(0, 0, 5012)) == Some(1)
        && row_of(bound, registry, event(0, 0, 2001)) == Some(0)
        && row_of(bound, registry, event(0, 1, 2001)) == Some(1)
}

/// Whether a client waits until it is granted.
fn waits(alloc: Global, registry: &Registry) -> bool {
    let Some(bound) = bound_to(alloc, CLIENT, registry.laws()) else {
        return false;
    };
    let events = [
        event(0, 0, 5012),
        event(0, 1, 2001),
        event(1, 0, 0),
        event(0, 0, 2001),
    ];
    let wanted = [
        (Some(1), 0, 2, 30, 2),
        (Some(1), 0, 2, 30, 2),
        (None, 0, 2, 1, 0),
        (Some(0), 1, 1, 30, 1),
    ];
    let Ok(steps) = run(alloc, &bound, registry, &start(), &events) else {
        return false;
    };
    are_outcomes(steps.as_slice(), &wanted) && are_taken(&bound, registry)
}

/// Whether register 1 counts on from 1 in a chain.
fn counts_on(chain: &[[u64; PLACES]]) -> bool {
    for place in 0..chain.len() {
        if chain[place][1] != place as u64 + 1 {
            return false;
        }
    }
    true
}

/// Whether the first argument of deeds counts on from 1, in fours.
fn counts_in_fours(deeds: &[Deed]) -> bool {
    for (place, deed) in deeds.iter().enumerate() {
        if deed.a[0] != place as u64 / 4 + 1 {
            return false;
        }
    }
    true
}

/// Whether a step has eight members in its chain and 32 deeds, each action counting on.
fn is_full(stepped: &Stepped) -> bool {
    let chain = stepped.chain.as_slice();
    let deeds = stepped.deeds.as_slice();
    stepped.after.regs[1] == 8
        && chain.len() == 8
        && counts_on(chain)
        && deeds.len() == 32
        && counts_in_fours(deeds)
}

/// Whether eight actions with four deeds each fill a step, and room that was full is as good as new.
fn fills(alloc: Global, registry: &Registry) -> bool {
    let Some(bound) = bound_to(alloc, BUSY, registry.laws()) else {
        return false;
    };
    let mut room = Stepped::new();
    step_into(&bound, registry, &start(), &event(2, 0, 0), &mut room);
    let was_full = is_full(&room);
    step_into(&bound, registry, &start(), &event(1, 0, 0), &mut room);
    was_full && is_outcome(&room, (None, 0, 0, 1, 0)) && room.chain.is_empty()
}

/// Whether this is a step from the start at an answer to the first request.
fn is_one(bound: &Bound, book: &LawBook, stepped: &Stepped) -> bool
    requires { IsBoundTo bound.now book.now }
{
    is_step(bound, book, &start(), &event(0, 0, 2001), stepped)
}

/// Whether a step is one; with another row, state or register, or without its chain, it is none.
fn is_judged_by(bound: &Bound, book: &LawBook, step: &mut Stepped) -> bool
    requires { IsBoundTo bound.now book.now }
{
    let was = is_one(bound, book, step);
    step.row = Some(1);
    let row = is_one(bound, book, step);
    step.row = Some(0);
    step.after.state = 0;
    let state = is_one(bound, book, step);
    step.after.state = 1;
    step.after.regs[63] = 1;
    let register = is_one(bound, book, step);
    step.after.regs[63] = 0;
    let again = is_one(bound, book, step);
    step.chain.clear();
    let chain = is_one(bound, book, step);
    was & again & !row & !state & !register & !chain
}

/// Whether a step is judged as one until its row, its state, a register, its chain or a deed is another.
fn is_judged(alloc: Global, registry: &Registry) -> bool {
    let Some(bound) = bound_to(alloc, CLIENT, registry.laws()) else {
        return false;
    };
    let mut room = step(&bound, registry, &start(), event(0, 0, 2001));
    is_judged_by(&bound, registry.laws(), &mut room)
}

/// Whether that is the first name of the client's table that a book lacks.
fn is_missing(alloc: Global, book: &LawBook, name: &str) -> bool {
    let Ok(table) = parse(alloc, CLIENT.as_bytes()) else {
        return false;
    };
    match &bind(alloc, table, book) {
        Err(Unbound::Missing(missing)) => missing.as_slice() == name.as_bytes(),
        _ => false,
    }
}

/// Adds a kind, a guard and an action of that name.
fn adds_all(alloc: Global, book: &mut LawBook, name: &[u8]) -> bool {
    book.add_kind(name).is_ok()
        && adds_equal(alloc, book, name, 0, Atom::Fact(0))
        && adds_service(alloc, book, name, 1)
}

/// Whether that name is missing until it is added.
fn is_missing_until_added(alloc: Global, book: &mut LawBook, name: &str) -> bool {
    is_missing(alloc, book, name) && adds_all(alloc, book, name.as_bytes())
}

/// Whether the client's table is bound to a book.
fn is_bound(alloc: Global, book: &LawBook) -> bool {
    match parse(alloc, CLIENT.as_bytes()) {
        Ok(table) => bind(alloc, table, book).is_ok(),
        Err(_) => false,
    }
}

#[test]
fn the_first_name_in_text_order_is_missing(rt: HostRuntime) {
    let mut book = LawBook::new(rt.alloc());
    for name in ["CCA-I", "mine", "success", "Grant-Service", "End-Service"] {
        let missing = is_missing_until_added(rt.alloc(), &mut book, name);
        assert!(rt; missing, "{name}");
    }
    assert!(rt; is_bound(rt.alloc(), &book));
}

/// 511 rows of one kind, and then one of another.
fn long_text(alloc: Global) -> Result<String, AllocError> {
    let mut text = String::from_str(alloc, "  State Event Action      Next\n")?;
    for _ in 0..511u16 {
        text.push_str("  Wait  CCA-I -           Wait\n")?;
    }
    text.push_str("  Wait  Tx    End-Service Done\n")?;
    Ok(text)
}

/// Whether the last of 512 rows takes an event.
fn takes_the_last(alloc: Global, registry: &Registry) -> bool {
    let Ok(text) = long_text(alloc) else {
        return false;
    };
    let Some(bound) = bound_to(alloc, text.as_str(), registry.laws()) else {
        return false;
    };
    let stepped = step(&bound, registry, &start(), event(1, 0, 0));
    is_outcome(&stepped, (Some(511), 1, 2, 30, 2))
}

/// The first of these that doesn't hold.
fn wrong_steps(alloc: Global, registry: &Registry) -> Option<&'static str> {
    if !waits(alloc, registry) {
        return Some("a client waits");
    }
    if !fills(alloc, registry) {
        return Some("eight actions fill a step");
    }
    if !is_judged(alloc, registry) {
        return Some("a step is judged");
    }
    if !takes_the_last(alloc, registry) {
        return Some("the last of 512 rows");
    }
    None
}

/// Adds the kinds of the full book.
fn add_kinds(registry: &mut Registry) -> Result<(), AddError> {
    registry.add_kind(b"CCA-I")?;
    registry.add_kind(b"Tx")?;
    registry.add_kind(b"Go")
}

/// The first that doesn't hold over callbacks that answer by the laws of a book.
fn wrong_over(alloc: Global, book: &LawBook) -> Result<Option<&'static str>, AddError> {
    let mut registry = Registry::new(alloc);
    add_kinds(&mut registry)?;
    for entry in book.guards().as_slice() {
        let own = entry.value.copy(alloc)?;
        let ask: Ask = Box::new(alloc, move |scene: &Scene| holds(&own, scene))?;
        let stored = StoredGuard::new(entry.value.copy(alloc)?, ask);
        registry.add_guard(entry.name.as_slice(), stored)?;
    }
    for entry in book.acts().as_slice() {
        let own = entry.value.copy(alloc)?;
        let act: Do = Box::new(alloc, move |scene: &Scene, room: &mut Acted| {
            high_into(&own, scene, room);
        })?;
        let stored = StoredAct::new(entry.value.copy(alloc)?, act);
        registry.add_act(entry.name.as_slice(), stored)?;
    }
    Ok(wrong_steps(alloc, &registry))
}

#[test]
fn steps_over_callbacks_that_answer_by_their_laws(rt: HostRuntime) -> Result<(), Fail> {
    let mut book = LawBook::new(rt.alloc());
    assert!(rt; fills_book(rt.alloc(), &mut book));
    let wrong = wrong_over(rt.alloc(), &book)?;
    assert!(rt; wrong.is_none(), "{wrong:?}");
    Ok(())
}

/// A row with one action.
const PICKING: &str = "  State  Event  Action  Next\n  Wait   Go     Pick    Wait\n";

/// Register 3 becomes any value from 1 to 3.
fn pick(alloc: Global) -> Result<ActLaw, AllocError> {
    let mut changes = Vec::new(alloc);
    changes.push(Change::Pick(3, number(1), number(3)))?;
    Ok(ActLaw::new(changes))
}

/// Writes an answer that a law permits, with that value in register 3 if it is permitted there.
fn choose(law: &ActLaw, scene: &Scene, value: u64, room: &mut Acted)
    ensures { Permits law.now scene.now room.new.regs room.new.deeds }
{
    high_into(law, scene, room);
    let mut regs = room.regs;
    regs[3] = value;
    let deeds = emitted(law, scene, &regs);
    if permits(law, scene, &regs, deeds.as_slice()) {
        room.regs = regs;
        room.deeds = deeds;
    }
}

/// Register 3 after a step whose action picks.
fn picked(alloc: Global, registry: &Registry) -> Option<u64> {
    let bound = bound_to(alloc, PICKING, registry.laws())?;
    Some(step(&bound, registry, &start(), event(0, 0, 0)).after.regs[3])
}

/// Register 3 after an action, where each register was 9.
fn picked_by(stored: &StoredAct) -> u64 {
    let scene = Scene {
        regs: [9; PLACES],
        facts: [0; PLACES],
    };
    let mut room = Acted::new();
    stored.act(&scene, &mut room);
    room.regs[3]
}

/// Adds an action. Of one that comes back its error, and what it picks.
fn refusal_of(registry: &mut Registry, stored: StoredAct) -> Option<(AddError, u64)> {
    match registry.add_act(b"Pick", stored) {
        Ok(()) => None,
        Err(refused) => Some((refused.error, picked_by(&refused.back))),
    }
}

/// Whether an action is refused so, or added, and register 3 is 2 after a step behind it.
fn is_added(
    alloc: Global,
    registry: &mut Registry,
    stored: StoredAct,
    refusal: Option<(AddError, u64)>,
) -> bool {
    refusal_of(registry, stored) == refusal && picked(alloc, registry) == Some(2)
}

/// Whether of two callbacks of one name the first, which picks 2, is kept, and the second, which picks 1, comes back.
fn keeps_the_first(alloc: Global, law: &ActLaw) -> Result<bool, AddError> {
    let mut registry = Registry::new(alloc);
    registry.add_kind(b"Go")?;
    let mut all = true;
    for (value, refusal) in [(2, None), (1, Some((AddError::Fault(AddFault::Taken), 1)))] {
        let own = law.copy(alloc)?;
        let act: Do = Box::new(alloc, move |scene: &Scene, room: &mut Acted| {
            choose(&own, scene, value, room);
        })?;
        let stored = StoredAct::new(law.copy(alloc)?, act);
        all = all & is_added(alloc, &mut registry, stored, refusal);
    }
    Ok(all && registry.laws().acts().len() == 1)
}

#[test]
fn a_closure_picks_and_one_of_the_same_name_comes_back(rt: HostRuntime) {
    let law = pick(rt.alloc());
    assert!(rt; matches!(&law, Ok(law) if keeps_the_first(rt.alloc(), law) == Ok(true)));
}
