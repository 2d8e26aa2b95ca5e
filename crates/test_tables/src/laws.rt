//! Laws: what a guard answers, what an action may answer, and the book that keeps them.

use base_codes::{DeedCode, ResultCode, session_fact, session_register};
use base_list::{AddError, AddFault, Octets};
use std::alloc::{AllocError, Global};
use tab_law::{
    ActLaw, Atom, Chain, Change, Deed, Field, GuardLaw, LawBook, MAX_ACTIONS, MAX_GUARDS,
    MAX_KINDS, Numbers, PLACES, Scene, Term, Terms, Test, emitted, high, holds, permits,
};

/// The field of an answer's request number, and of its Result-Code.
const NUMBER: Field = Field::Fact(session_fact::REQUEST_NUMBER as u8);

const RESULT: Field = Field::Fact(session_fact::RESULT_CODE as u8);

/// Registers and facts that are all 0.
fn blank() -> Scene {
    Scene {
        regs: [0; PLACES],
        facts: [0; PLACES],
    }
}

fn guard(alloc: Global, test: Test) -> Result<GuardLaw, AllocError> {
    let mut tests = Vec::new(alloc);
    tests.push(test)?;
    Ok(GuardLaw::new(tests))
}

/// The numbers 4 and 6.
fn four_and_six(alloc: Global) -> Result<Numbers, AllocError> {
    let mut numbers = Vec::new(alloc);
    numbers.push(4)?;
    numbers.push(6)?;
    Ok(Numbers::new(numbers))
}

/// What a guard of one test answers at a request number.
fn answer_of(alloc: Global, number: u64, test: Test) -> Result<bool, AllocError> {
    let mut scene = blank();
    scene.facts[session_fact::REQUEST_NUMBER] = number;
    Ok(holds(&guard(alloc, test)?, &scene))
}

/// What guards of one test answer at a request number: whether it is 5, differs from 5, is below 5,
/// at least 5, 4 or 6.
fn answers(alloc: Global, number: u64) -> Result<[bool; 5], AllocError> {
    let five = Atom::Constant(5);
    let equal = answer_of(alloc, number, Test::Equal(NUMBER, five))?;
    let differing = answer_of(alloc, number, Test::Differing(NUMBER, five))?;
    let below = answer_of(alloc, number, Test::Below(NUMBER, five))?;
    let at_least = answer_of(alloc, number, Test::AtLeast(NUMBER, five))?;
    let among = answer_of(alloc, number, Test::Among(NUMBER, four_and_six(alloc)?))?;
    Ok([equal, differing, below, at_least, among])
}

/// A request number, and what the guards answer.
const ANSWERS: &[(u64, [bool; 5])] = &[
    (4, [false, true, true, false, true]),
    (5, [true, false, false, true, false]),
    (6, [false, true, false, true, true]),
];

#[test]
fn each_test_is_met_where_it_says(rt: HostRuntime) {
    for (number, wanted) in ANSWERS {
        assert!(rt; answers(rt.alloc(), *number) == Ok(*wanted), "at {number}");
    }
}

/// An answer to the last request, with success; the fact's number counts round.
fn mine_and_success(alloc: Global) -> Result<GuardLaw, AllocError> {
    let own = Atom::Register(session_register::REQUEST_NUMBER as u8);
    let result = Field::Fact((session_fact::RESULT_CODE + PLACES) as u8);
    let success = Atom::Constant(ResultCode::Success.number() as u64);
    let mut tests = Vec::new(alloc);
    tests.push(Test::Equal(NUMBER, own))?;
    tests.push(Test::Equal(result, success))?;
    Ok(GuardLaw::new(tests))
}

/// An answer with that request number and Result-Code, where the last request had number 3.
fn answered(number: u64, code: u64) -> Scene {
    let mut scene = blank();
    scene.regs[session_register::REQUEST_NUMBER] = 3;
    scene.facts[session_fact::REQUEST_NUMBER] = number;
    scene.facts[session_fact::RESULT_CODE] = code;
    scene
}

/// A request number, a Result-Code, and what the guard answers.
const ANSWERED: &[(u64, u64, bool)] = &[(3, 2001, true), (3, 5012, false), (4, 2001, false)];

/// Whether a law answers so.
fn answers_so(law: &GuardLaw) -> bool {
    for (number, code, answer) in ANSWERED {
        if holds(law, &answered(*number, *code)) != *answer {
            return false;
        }
    }
    true
}

/// Whether a copy of a guard is the same, and a guard without tests is another.
fn is_copied(alloc: Global, law: &GuardLaw) -> bool {
    let none = GuardLaw::new(Vec::new(alloc));
    match law.copy(alloc) {
        Ok(kept) => kept.is_same(law) && !kept.is_same(&none),
        Err(_) => false,
    }
}

fn mine_and_success_hold(alloc: Global) -> bool {
    match mine_and_success(alloc) {
        Ok(law) => answers_so(&law) && is_copied(alloc, &law),
        Err(_) => false,
    }
}

#[test]
fn a_guard_needs_all_its_tests_and_numbers_count_round(rt: HostRuntime) {
    assert!(rt; mine_and_success_hold(rt.alloc()));
}

fn number(value: u64) -> Term {
    Term::Just(Atom::Constant(value))
}

/// Arguments that are all 0 but the first.
fn arguments(alloc: Global, first: Term) -> Result<Terms, AllocError> {
    Terms::from_slice(alloc, &[first])
}

/// A deed whose arguments are all 0 but the first.
fn deed(code: DeedCode, first: u64) -> Deed {
    let mut a = [0; PLACES];
    a[0] = first;
    let code = code.number();
    Deed { code, a }
}

/// The number of the register of granted units, and of their unit.
const GRANTED: u8 = session_register::GRANTED as u8;

const UNIT: u8 = session_register::UNIT as u8;

/// Grants as many units as the answer says, reserves them, and keeps what was granted before.
fn reserve(alloc: Global) -> Result<ActLaw, AllocError> {
    let offered = Term::Just(Atom::Fact(session_fact::GRANTED as u8));
    let before = Term::Just(Atom::Register(GRANTED));
    let after = Term::Just(Atom::NewRegister(GRANTED));
    let mut changes = Vec::new(alloc);
    changes.push(Change::Set(GRANTED, number(9)))?;
    changes.push(Change::Pick(GRANTED, number(1), offered))?;
    changes.push(Change::Set(UNIT, before))?;
    changes.push(Change::Emit(DeedCode::Reserve.number(), arguments(alloc, after)?))?;
    Ok(ActLaw::new(changes))
}

/// 7 units granted, and 60 offered.
fn offered() -> Scene {
    let mut scene = blank();
    scene.regs[session_register::GRANTED] = 7;
    scene.facts[session_fact::GRANTED] = 60;
    scene
}

/// Whether these registers and one deed that reserves so many units are permitted.
fn may_reserve(law: &ActLaw, regs: &[u64; PLACES], units: u64) -> bool {
    permits(law, &offered(), regs, &[deed(DeedCode::Reserve, units)])
}

/// Units, and whether they may be reserved.
const UNITS: &[(u64, bool)] = &[(0, false), (1, true), (60, true), (61, false)];

/// Whether so many units may be reserved, or may not, and with another register changed never.
fn is_reserved(law: &ActLaw, acted: &[u64; PLACES], units: u64, answer: bool) -> bool {
    let mut regs = *acted;
    regs[session_register::GRANTED] = units;
    let is_answered = may_reserve(law, &regs, units) == answer;
    regs[session_register::FINAL] = 1;
    is_answered & !may_reserve(law, &regs, units)
}

/// The place of the first line of the table that isn't so.
fn wrong_units(law: &ActLaw, acted: &[u64; PLACES]) -> Option<usize> {
    for (place, (units, answer)) in UNITS.iter().enumerate() {
        if !is_reserved(law, acted, *units, *answer) {
            return Some(place);
        }
    }
    None
}

/// The highest pick: the register before the action is read by a term, and the one after it by a deed, which is owed.
fn is_highest(law: &ActLaw) -> bool {
    let acted = high(law, &offered());
    acted.regs[session_register::GRANTED] == 60
        && acted.regs[session_register::UNIT] == 7
        && acted.deeds.as_slice() == [deed(DeedCode::Reserve, 60)].as_slice()
        && wrong_units(law, &acted.regs) == None
        && !permits(law, &offered(), &acted.regs, &[])
}

fn picks(alloc: Global) -> bool {
    match reserve(alloc) {
        Ok(law) => is_highest(&law),
        Err(_) => false,
    }
}

#[test]
fn a_pick_may_be_any_value_of_its_range(rt: HostRuntime) {
    assert!(rt; DeedCode::Reserve.number() == 20);
    assert!(rt; picks(rt.alloc()));
}

/// A sum, a difference and the lesser of numbers, and five deeds.
fn ends(alloc: Global) -> Result<ActLaw, AllocError> {
    let most = Atom::Constant(u64::MAX);
    let one = Atom::Constant(1);
    let mut changes = Vec::new(alloc);
    changes.push(Change::Set(1, Term::Sum(most, one)))?;
    changes.push(Change::Set(2, Term::Difference(one, most)))?;
    changes.push(Change::Set(3, Term::Least(most, one)))?;
    for argument in 0..5u64 {
        let terms = arguments(alloc, number(argument))?;
        changes.push(Change::Emit(DeedCode::Service.number(), terms))?;
    }
    Ok(ActLaw::new(changes))
}

/// Whether what an action leaves stops at the ends, and has four deeds.
fn stops(law: &ActLaw) -> bool {
    let acted = high(law, &blank());
    let deeds = acted.deeds.as_slice();
    acted.regs[..4] == [0, u64::MAX, 0, 1] && deeds.len() == 4 && deeds[3].a[0] == 3
}

/// Whether a copy of an action is the same, and the other action is another.
fn is_kept(alloc: Global, law: &ActLaw, other: &ActLaw) -> bool {
    match law.copy(alloc) {
        Ok(kept) => kept.is_same(law) && !kept.is_same(other),
        Err(_) => false,
    }
}

fn ends_hold(alloc: Global) -> bool {
    match (ends(alloc), reserve(alloc)) {
        (Ok(law), Ok(other)) => stops(&law) && is_kept(alloc, &law, &other),
        _ => false,
    }
}

#[test]
fn sums_stop_at_the_ends_and_the_first_four_emits_count(rt: HostRuntime) {
    assert!(rt; ends_hold(rt.alloc()));
}

/// Five deeds with a condition: a fact, or the register that the action sets, isn't 0. The second and the last have
/// the condition 0.
fn with_conditions(alloc: Global) -> Result<ActLaw, AllocError> {
    let mut changes = Vec::new(alloc);
    changes.push(Change::Set(63, number(7)))?;
    for atom in [
        Atom::Fact(63),
        Atom::Fact(62),
        Atom::NewRegister(63),
        Atom::Constant(1),
        Atom::Constant(1),
    ] {
        let terms = arguments(alloc, Term::Just(atom))?;
        changes.push(Change::EmitIf(atom, DeedCode::Service.number(), terms))?;
    }
    Ok(ActLaw::new(changes))
}

/// Whether deeds whose condition is 0 are left out, and count among the first four.
fn leaves_out(law: &ActLaw) -> bool {
    let mut scene = blank();
    scene.facts[63] = 5;
    let acted = high(law, &scene);
    let wanted = [
        deed(DeedCode::Service, 5),
        deed(DeedCode::Service, 7),
        deed(DeedCode::Service, 1),
    ];
    acted.regs[63] == 7
        && acted.deeds.as_slice() == wanted.as_slice()
        && permits(law, &scene, &acted.regs, &wanted)
        && !permits(law, &scene, &acted.regs, &wanted[..2])
        && emitted(law, &scene, &scene.regs).len() == 2
}

fn conditions_hold(alloc: Global) -> bool {
    let none = ActLaw::new(Vec::new(alloc));
    match with_conditions(alloc) {
        Ok(law) => leaves_out(&law) && is_kept(alloc, &law, &none),
        Err(_) => false,
    }
}

#[test]
fn a_condition_that_is_0_emits_nothing_and_counts(rt: HostRuntime) {
    assert!(rt; conditions_hold(rt.alloc()));
}

/// As many arguments as a deed has, and the last of them.
fn widest(alloc: Global) -> Result<ActLaw, AllocError> {
    let mut terms = Vec::new(alloc);
    for place in 0..PLACES as u8 {
        terms.push(Term::Just(Atom::Fact(place)))?;
    }
    let mut changes = Vec::new(alloc);
    changes.push(Change::Emit(
        DeedCode::Service.number(),
        Terms::from_slice(alloc, &terms[..terms.len().min(PLACES)])?,
    ))?;
    Ok(ActLaw::new(changes))
}

/// Whether the only deed of an action has all facts, of which the last is 9.
fn has_all_facts(law: &ActLaw) -> bool {
    let mut scene = blank();
    scene.facts[63] = 9;
    match high(law, &scene).deeds.as_slice() {
        [deed] => deed.a == scene.facts,
        _ => false,
    }
}

#[test]
fn a_deed_has_64_arguments(rt: HostRuntime) {
    let law = widest(rt.alloc());
    assert!(rt; matches!(&law, Ok(law) if has_all_facts(law)));
}

fn chain_keeps() -> bool {
    let mut chain = Chain::new();
    chain.push([1; PLACES]);
    chain.push([2; PLACES]);
    chain.as_slice() == [[1; PLACES], [2; PLACES]].as_slice()
}

#[test]
fn a_chain_keeps_its_members(rt: HostRuntime) {
    assert!(rt; chain_keeps());
}

/// A name of its own for each number.
fn numbered(number: u8) -> [u8; 2] {
    [b'n', number]
}

/// Adds as many kinds as a book may have.
fn fill_kinds(book: &mut LawBook) -> Result<(), AddError> {
    for number in 0..MAX_KINDS as u8 {
        book.add_kind(&numbered(number))?;
    }
    Ok(())
}

/// Whether a full book has its last kind, and refuses a name that it has and a new one.
fn refuses_kinds(book: &mut LawBook) -> bool {
    let full = book.kinds().len() == MAX_KINDS
        && book.kinds().find(&numbered(127)) == Some(127)
        && book.kinds().find(b"CCA-I") == None;
    full && book.add_kind(&numbered(0)) == Err(AddError::Fault(AddFault::Taken))
        && book.add_kind(b"CCA-I") == Err(AddError::Fault(AddFault::Full))
        && book.kinds().len() == MAX_KINDS
}

#[test]
fn a_name_is_taken_before_the_book_is_full(rt: HostRuntime) {
    let mut book = LawBook::new(rt.alloc());
    assert!(rt; fill_kinds(&mut book) == Ok(()) && refuses_kinds(&mut book));
    assert!(rt; AddFault::Taken.number() == 1 && AddFault::Full.number() == 2);
}

/// Whether a law is refused for that fault, and comes back.
fn comes_back(
    alloc: Global,
    book: &mut LawBook,
    law: &GuardLaw,
    name: &[u8],
    fault: AddFault,
) -> bool {
    let Ok(copy) = law.copy(alloc) else {
        return false;
    };
    match &book.add_guard(name, copy) {
        Ok(()) => false,
        Err(refused) => refused.error == AddError::Fault(fault) && refused.back.is_same(law),
    }
}

fn adds_guard(alloc: Global, book: &mut LawBook, law: &GuardLaw, name: &[u8]) -> bool {
    match law.copy(alloc) {
        Ok(copy) => book.add_guard(name, copy).is_ok(),
        Err(_) => false,
    }
}

/// Adds a law as many times as a book may have guards.
fn adds_guards(alloc: Global, book: &mut LawBook, law: &GuardLaw) -> bool {
    let mut all = true;
    for number in 0..MAX_GUARDS as u8 {
        all = all && adds_guard(alloc, book, law, &numbered(number));
    }
    all
}

/// Whether a full book has that law under its last name.
fn ends_with(book: &LawBook, law: &GuardLaw) -> bool {
    book.guards().len() == MAX_GUARDS
        && book.guards().at(63).name.as_slice() == numbered(63).as_slice()
        && book.guards().at(63).value.is_same(law)
}

fn guards_come_back(alloc: Global, law: &GuardLaw) -> bool {
    let mut book = LawBook::new(alloc);
    adds_guards(alloc, &mut book, law)
        && comes_back(alloc, &mut book, law, &numbered(63), AddFault::Taken)
        && comes_back(alloc, &mut book, law, &numbered(64), AddFault::Full)
        && ends_with(&book, law)
}

#[test]
fn a_guard_that_is_refused_comes_back(rt: HostRuntime) {
    let law = guard(rt.alloc(), Test::Below(Field::Register(2), Atom::Fact(3)));
    assert!(rt; matches!(&law, Ok(law) if guards_come_back(rt.alloc(), law)));
}

fn adds_act(alloc: Global, book: &mut LawBook, name: &[u8]) -> bool {
    match reserve(alloc) {
        Ok(law) => book.add_act(name, law).is_ok(),
        Err(_) => false,
    }
}

/// Adds an action as many times as a book may have actions.
fn adds_acts(alloc: Global, book: &mut LawBook) -> bool {
    let mut all = true;
    for number in 0..MAX_ACTIONS as u8 {
        all = all && adds_act(alloc, book, &numbered(number));
    }
    all
}

/// Whether a full book has that law at a place.
fn has_at(book: &LawBook, place: usize, law: &ActLaw) -> bool {
    book.acts().len() == MAX_ACTIONS
        && place < MAX_ACTIONS
        && book.acts().at(place).value.is_same(law)
}

/// Whether a full book has that law, and refuses it under a new name.
fn refuses_act(book: &mut LawBook, law: ActLaw) -> bool {
    let was_kept = has_at(book, 5, &law);
    match &book.add_act(b"Charge", law) {
        Ok(()) => false,
        Err(refused) => was_kept && refused.error == AddError::Fault(AddFault::Full),
    }
}

fn acts_are_refused(alloc: Global) -> bool {
    let mut book = LawBook::new(alloc);
    match reserve(alloc) {
        Ok(law) => adds_acts(alloc, &mut book) && refuses_act(&mut book, law),
        Err(_) => false,
    }
}

#[test]
fn an_action_is_refused_where_the_book_is_full(rt: HostRuntime) {
    assert!(rt; acts_are_refused(rt.alloc()));
}

/// Whether a copy of a name is the same.
fn is_copied_name(alloc: Global, name: &Octets) -> bool {
    match name.copy(alloc) {
        Ok(copy) => copy.as_slice() == b"mine".as_slice(),
        Err(_) => false,
    }
}

fn name_is_copied(alloc: Global) -> bool {
    match b"mine".to_vec(alloc) {
        Ok(name) => is_copied_name(alloc, &Octets::new(name)),
        Err(_) => false,
    }
}

#[test]
fn a_copied_name_is_the_same(rt: HostRuntime) {
    assert!(rt; name_is_copied(rt.alloc()));
}
