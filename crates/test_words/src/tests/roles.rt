//! The shipped tables, and the laws of all roles in words.
use law_text::put_book;
use role_tables::{CLIENT_TABLE, PEER_TABLE, ROLE_NAMES, SERVER_TABLE, all_laws, table_named};
use std::alloc::Global;
use std::test::Fail;
use tab_law::{ActLaw, Atom, Change, Field, GuardLaw, LawBook, Numbers, Term, Terms, Test};
use tab_print::print;
use tab_step::bind;
use tab_text::parse;

/// Whether a shipped table is printed as it is written, and names only what is registered.
fn is_shipped(alloc: Global, text: &str) -> Result<bool, Fail> {
    let table = parse(alloc, text.as_bytes())?;
    let printed = print(alloc, &table)?;
    let laws = all_laws(alloc)?;
    Ok(printed.as_slice() == text.as_bytes() && bind(alloc, table, &laws).is_ok())
}

#[test]
fn shipped_tables_are_printed_as_they_are_written(rt: HostRuntime) -> Result<(), Fail> {
    assert!(rt; table_named("peer") == Some(PEER_TABLE));
    assert!(rt; table_named("Peer") == None);
    assert!(rt; table_named("") == None);
    assert!(rt; table_named("client") == Some(CLIENT_TABLE));
    assert!(rt; table_named("server") == Some(SERVER_TABLE));
    assert!(rt; ROLE_NAMES == "peer, client, server");
    for text in [PEER_TABLE, CLIENT_TABLE, SERVER_TABLE] {
        assert!(rt; is_shipped(rt.alloc(), text)?);
    }
    Ok(())
}

/// Tests of each form.
fn guard(alloc: Global) -> Result<GuardLaw, Fail> {
    let mut tests = Vec::new(alloc);
    tests.push(Test::Equal(Field::Fact(6), Atom::Register(1)))?;
    tests.push(Test::Differing(Field::Fact(12), Atom::Constant(5030)))?;
    tests.push(Test::Below(Field::Register(65), Atom::Fact(64)))?;
    tests.push(Test::AtLeast(Field::Fact(13), Atom::NewRegister(9)))?;
    let numbers = Numbers::new(vec![in alloc; 4010, 5030]?);
    tests.push(Test::Among(Field::Fact(12), numbers))?;
    Ok(GuardLaw::new(tests))
}

/// Changes of each form.
fn act(alloc: Global) -> Result<ActLaw, Fail> {
    let one = Atom::Constant(1);
    let arguments = [
        Term::Just(Atom::NewRegister(2)),
        Term::Difference(Atom::Fact(8), one),
        Term::Least(
            Atom::Register(3),
            Atom::Constant(18_446_744_073_709_551_615),
        ),
    ];
    let mut changes = Vec::new(alloc);
    changes.push(Change::Set(2, Term::Sum(Atom::NewRegister(2), one)))?;
    changes.push(Change::Pick(3, Term::Just(one), Term::Just(Atom::Fact(13))))?;
    changes.push(Change::Emit(20, Terms::from_slice(alloc, &arguments)?))?;
    changes.push(Change::EmitIf(Atom::NewRegister(17), 99, Terms::from_slice(alloc, &[])?))?;
    Ok(ActLaw::new(changes))
}

const WORDS: &str = "\
kinds
  Start
  Tx
guards
  all: f6 = r1 and f12 <> 5030 and r1 < f0 and f13 >= r9 and f12 in 4010, 5030
  none: always
actions
  Do: r2 := r2 + 1; r3 := 1 to f13; Reserve(r2 after, f8 - 1, least of r3 and 18446744073709551615); \
    99() unless r17 after is 0
  Nothing: nothing
";

#[test]
fn laws_are_told_in_words(rt: HostRuntime) -> Result<(), Fail> {
    let alloc = rt.alloc();
    let mut book = LawBook::new(alloc);
    book.add_kind(b"Start")?;
    book.add_kind(b"Tx")?;
    let _ = book.add_guard(b"all", guard(alloc)?);
    let _ = book.add_guard(b"none", GuardLaw::new(Vec::new(alloc)));
    let _ = book.add_act(b"Do", act(alloc)?);
    let _ = book.add_act(b"Nothing", ActLaw::new(Vec::new(alloc)));
    let mut text = Vec::new(alloc);
    put_book(&mut text, &book)?;
    assert!(rt; text.as_slice() == WORDS.as_bytes());
    Ok(())
}
