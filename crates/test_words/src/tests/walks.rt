//! What a walk prints.
use base_device::{Counting, Status};
use std::alloc::Global;
use std::test::Fail;
use tab_call::{Ask, Do, Registry, StoredAct, StoredGuard};
use tab_law::{
    ActLaw, Acted, Atom, Change, Field, GuardLaw, LawBook, Scene, Term, Terms, Test, high_into,
    holds,
};
use tab_walk::{WalkOptions, walk_on};

const TABLE: &str = "  State  Event                        Action         Next
  Wait   CCA-I when mine and success  Grant-Service  Done
  Wait   CCA-I                        End-Service    Wait
";

/// A guard that says yes where the field is the atom.
fn equal(alloc: Global, field: Field, atom: Atom) -> Result<GuardLaw, Fail> {
    let mut tests = Vec::new(alloc);
    tests.push(Test::Equal(field, atom))?;
    Ok(GuardLaw::new(tests))
}

/// The action that keeps which service it hands out.
fn service(alloc: Global, kind: u64) -> Result<ActLaw, Fail> {
    let terms = Terms::from_slice(alloc, &[Term::Just(Atom::Constant(kind))])?;
    let mut changes = Vec::new(alloc);
    changes.push(Change::Set(10, Term::Just(Atom::Constant(kind))))?;
    changes.push(Change::Emit(30, terms))?;
    Ok(ActLaw::new(changes))
}

/// A client's guards `mine` and `success`, its services, and the kinds CCA-I and Tx.
fn client_book(alloc: Global) -> Result<LawBook, Fail> {
    let mut book = LawBook::new(alloc);
    book.add_kind(b"CCA-I")?;
    book.add_kind(b"Tx")?;
    let mine = equal(alloc, Field::Fact(6), Atom::Register(1))?;
    let success = equal(alloc, Field::Fact(12), Atom::Constant(2001))?;
    let _ = book.add_guard(b"mine", mine);
    let _ = book.add_guard(b"success", success);
    let _ = book.add_act(b"Grant-Service", service(alloc, 1)?);
    let _ = book.add_act(b"End-Service", service(alloc, 2)?);
    Ok(book)
}

/// Whether a walk prints this text and ends so.
fn walks(
    alloc: Global,
    registry: &Registry,
    options: WalkOptions<'_>,
    table: &str,
    events: &str,
    printed: &str,
    wanted: Status,
) -> bool {
    let mut sink = Counting::new(Vec::new(alloc));
    let status = walk_on(
        alloc,
        table.as_bytes(),
        registry,
        options,
        events.as_bytes(),
        &mut sink,
    );
    sink.device.as_slice() == printed.as_bytes() && status == wanted
}

const EVENTS: &str = "CCA-I 12=5012\nCCA-I 6=1 12=2001\nTx\nCCA-I 12=2001\n";

const PRINTED: &str = "\
CCA-I Wait Wait row 1
  Service 2
CCA-I Wait Wait row 1
  Service 2
Tx Wait Wait row -
  Unlisted
CCA-I Wait Done row 0
  Service 1
";

/// A deed whose last argument is the last of 64.
const TO_THE_LAST: &str = "\
Tx Wait Wait row -
  Unlisted 0 0 0 0 0 0 0 0 0 0 0 0 0 0 0 0 0 0 0 0 0 0 0 0 0 0 0 0 0 0 0 0 0 0 0 0 0 0 0 0 0 0 0 0 0 0 0 0 0 0 0 0 0 0 \
    0 0 0 0 0 0 0 0 0 5
";

/// The table's image, of format 1.
const IMAGE: &str = "\
44544931 00020001000200020002 \
0457616974 04446f6e65 054343412d49 046d696e65 0773756363657373 0d4772616e742d53657276696365 0b456e642d53657276696365 \
0000ffff0017 010000 0200000f 0201000f 0300 0401 010001 0301 0400 05";

/// A name of 40 bytes.
const LONG: &str = "  State  Event                                     Action  Next
  Wait   abcdefghijabcdefghijabcdefghijabcdefghij  -       Wait
";

const NO_HEADER: &str = "  Wait CCA-I - Wait\n";

const UNKNOWN: &str = "  State  Event  Action  Next\n  Wait   Start  -       Wait\n";

const NO_HEADER_TEXT: &str = "line 1 fault 1
  wanted: a header: two blanks, then the words State, Event, Action and Next
  wrong: Wait CCA-I - Wait
  neither a table nor an image, which begins with a hexadecimal digit
";

/// What is told of lines that are no event.
const BAD_KIND: &str = "bad line 2
  wanted: KIND N=V ..: a kind that is registered, then facts, each once, N at most 63 and V below 2^64
  wrong: CCA-U
  nearest: CCA-I
";

const BAD_NUMBER: &str = "bad line 1
  wanted: KIND N=V ..: a kind that is registered, then facts, each once, N at most 63 and V below 2^64
  wrong: 64=1
";

const NO_VALUE: &str = "bad line 1
  wanted: KIND N=V ..: a kind that is registered, then facts, each once, N at most 63 and V below 2^64
  wrong: 12
";

const TWICE: &str = "bad line 1
  wanted: KIND N=V ..: a kind that is registered, then facts, each once, N at most 63 and V below 2^64
  wrong: a fact stands twice
";

const BAD_VALUE: &str = "bad line 3
  wanted: KIND N=V ..: a kind that is registered, then facts, each once, N at most 63 and V below 2^64
  wrong: 3=x
";

const NO_START: &str = "bad start
  wanted: STATE rN=V ..: a state of the table, then registers, each once, N at most 63 and V below 2^64
";

/// Tables, events, what is printed of the walk, and how it ends.
const WALKS: &[(&str, &str, &str, Status)] = &[
    (TABLE, EVENTS, PRINTED, Status::Done),
    // A deed's arguments go up to the last that isn't 0.
    (
        TABLE,
        "Tx 0=7 2=9 3=0\n",
        "Tx Wait Wait row -\n  Unlisted 7 0 9\n",
        Status::Done,
    ),
    (NO_HEADER, "", NO_HEADER_TEXT, Status::Refused),
    (
        UNKNOWN,
        "",
        "unbound Start\n  in: row 0, line 2\n  wanted: a kind, a guard or an action that is registered\n",
        Status::Refused,
    ),
    (
        LONG,
        "",
        "unbound abcdefghijabcdefghijabcdefghijabcdefghij\n  in: row 0, line 2\n  wanted: a kind, \
            a guard or an action that is registered\n",
        Status::Refused,
    ),
    (TABLE, "CCA-I 12=2001\nCCA-U\n", BAD_KIND, Status::Refused),
    // No event: nothing is stepped, and nothing is wrong.
    (TABLE, "", "", Status::Done),
    (TABLE, "Tx 63=5\n", TO_THE_LAST, Status::Done),
    (TABLE, "CCA-I 64=1\n", BAD_NUMBER, Status::Refused),
    (IMAGE, EVENTS, PRINTED, Status::Done),
    (IMAGE, "Tx 63=5\n", TO_THE_LAST, Status::Done),
    (IMAGE, "CCA-I 12\n", NO_VALUE, Status::Refused),
    (
        "\n 0x",
        EVENTS,
        "bad hex\n  wanted: hexadecimal digits, two for each octet; blanks between them don't count\n",
        Status::Refused,
    ),
    (
        "44544931",
        EVENTS,
        "at 4 fault 2\n  wrong: the image is cut off; it has that many octets\n",
        Status::Refused,
    ),
    (TABLE, "CCA-I 12=1 12=1\n", TWICE, Status::Refused),
    (TABLE, "CCA-I 12\n", NO_VALUE, Status::Refused),
    (
        TABLE,
        "\n  a log's line is skipped\nTx 3=x\n",
        BAD_VALUE,
        Status::Refused,
    ),
];

/// A walk from the start, that doesn't say why.
const PLAIN: WalkOptions<'static> = WalkOptions {
    why: false,
    from: None,
};

/// Where a walk that says why begins, its events, what is printed, and how it ends.
const WHYS: &[(Option<&str>, &str, &str, Status)] = &[
    (
        None,
        "CCA-I 12=5012\nCCA-I 6=1 12=2001\nTx\n",
        "\
CCA-I Wait Wait row 1
  Service 2
  r10 0 -> 2
  row 0: not success: fact 12 is 5012, wanted f12 = 2001
CCA-I Wait Wait row 1
  Service 2
  row 0: not mine: fact 6 is 1, wanted f6 = r1, where r1 is 0
Tx Wait Wait row -
  Unlisted
",
        Status::Done,
    ),
    (
        Some("Wait r1=1 r10=1"),
        "CCA-I 6=1 12=2001\nCCA-I 6=1\n",
        "\
CCA-I Wait Done row 0
  Service 1
CCA-I Done Done row -
  Unlisted 0 0 0 0 0 0 1
",
        Status::Done,
    ),
    (Some("Gone"), "", NO_START, Status::Refused),
    (Some(""), "", NO_START, Status::Refused),
    (Some("Wait 1=1"), "", NO_START, Status::Refused),
    (Some("Wait r64=1"), "", NO_START, Status::Refused),
    (Some("Wait r1=1 r1=2"), "", NO_START, Status::Refused),
];

/// Whether a walk that says why, from where a text says, prints this text and ends so.
fn says_why(
    alloc: Global,
    registry: &Registry,
    from: Option<&str>,
    events: &str,
    printed: &str,
    wanted: Status,
) -> bool {
    let from = match from {
        Some(text) => Some(text.as_bytes()),
        None => None,
    };
    let options = WalkOptions { why: true, from };
    walks(alloc, registry, options, TABLE, events, printed, wanted)
}

#[test]
fn each_step_and_its_deeds_are_printed_or_the_first_refusal(rt: HostRuntime) -> Result<(), Fail> {
    let alloc = rt.alloc();
    let book = client_book(alloc)?;
    let mut registry = Registry::new(alloc);
    for name in [b"CCA-I".as_slice(), b"Tx"] {
        registry.add_kind(name)?;
    }
    for place in 0..book.guards().len() {
        let entry = book.guards().at(place);
        let own = entry.value.copy(alloc)?;
        let ask: Ask = Box::new(alloc, move |scene: &Scene| holds(&own, scene))?;
        let stored = StoredGuard::new(entry.value.copy(alloc)?, ask);
        assert!(rt; registry.add_guard(entry.name.as_slice(), stored).is_ok());
    }
    for place in 0..book.acts().len() {
        let entry = book.acts().at(place);
        let own = entry.value.copy(alloc)?;
        let act: Do = Box::new(alloc, move |scene: &Scene, room: &mut Acted| {
            high_into(&own, scene, room);
        })?;
        let stored = StoredAct::new(entry.value.copy(alloc)?, act);
        assert!(rt; registry.add_act(entry.name.as_slice(), stored).is_ok());
    }
    for (table, events, printed, status) in WALKS {
        let is_printed = walks(alloc, &registry, PLAIN, table, events, printed, *status);
        assert!(rt; is_printed, "of {events}");
    }
    for (from, events, printed, status) in WHYS {
        let is_printed = says_why(alloc, &registry, *from, events, printed, *status);
        assert!(rt; is_printed, "why, of {events}");
    }
    Ok(())
}
