//! Rows that go on on lines with `+` in byte 0.

use crate::texts::are_names;
use std::alloc::Global;
use std::test::Fail;
use tab_text::{ParseError, TextCode, TextFault, parse};

/// A row on three lines, with a comment and a blank line between, and a row on one line behind it.
const JOINED: &[u8] =
    b"  State           Event           Action      Next\n  Wait-Conn-Ack/  I-Rcv-Conn-Ack  I-Snd-CER,  Wait-\n\
        # between\n+ Elect           when mine       Elect       Returns\n\n\
        +                 and late        , Stop\n                  Timeout         Error       Closed\n";

#[test]
fn state_and_next_join_with_nothing_between(rt: HostRuntime) -> Result<(), Fail> {
    let table = parse(rt.alloc(), JOINED)?;
    assert!(rt;
        are_names(
            table.states(),
            &[
                b"Wait-Conn-Ack/Elect".as_slice(),
                b"Wait-Returns".as_slice(),
                b"Closed".as_slice()
            ]
        )
    );
    Ok(())
}

#[test]
fn event_and_action_join_with_a_blank(rt: HostRuntime) -> Result<(), Fail> {
    let table = parse(rt.alloc(), JOINED)?;
    assert!(rt;
        are_names(
            table.kinds(),
            &[b"I-Rcv-Conn-Ack".as_slice(), b"Timeout".as_slice()]
        )
    );
    assert!(rt; are_names(table.guards(), &[b"mine".as_slice(), b"late".as_slice()]));
    assert!(rt;
        are_names(
            table.actions(),
            &[
                b"I-Snd-CER".as_slice(),
                b"Elect".as_slice(),
                b"Stop".as_slice(),
                b"Error".as_slice()
            ]
        )
    );
    Ok(())
}

#[test]
fn a_row_begins_at_its_first_line(rt: HostRuntime) -> Result<(), Fail> {
    let table = parse(rt.alloc(), JOINED)?;
    assert!(rt; table.rows().len() == 2);
    assert!(rt; (table.line_of(0), table.line_of(1)) == (Some(2), Some(7)));
    Ok(())
}

/// Whether a text is read, or has that as its first fault.
fn is_read_as(alloc: Global, text: &[u8], wanted: Option<TextFault>) -> bool {
    match parse(alloc, text) {
        Ok(_) => wanted == None,
        Err(ParseError::Fault(fault)) => wanted == Some(fault),
        Err(ParseError::NoMemory) => false,
    }
}

/// Texts with lines that continue a row, all of which are read.
const GOOD: [&[u8]; 5] = [
    b"  State Event Action Next\n  A     b\n+             -      C",
    b"  State Event Action Next\n  A     b     -      C\n+",
    b"  State Event Action Next\n  A     b     -      C\n+ \n+       when\n# +x\n+       g\n",
    b"  State Event Action Next\n  A     b     p      C\n+             ,q,\n+             r\n",
    b"  State Event Action Next\n  A     b     -      abcdefghijklmnopqrst\n\
        +                    abcdefghijklmnopqrst\n",
];

/// Texts with such lines, and the line and the code of the first fault.
const FAULTY: [(&[u8], usize, TextCode); 14] = [
    (
        b"  State Event Action Next\n+ A     b     -      C\n  A     b     -      C",
        2,
        TextCode::NoRowToContinue,
    ),
    (
        b"  State Event Action Next\n+",
        2,
        TextCode::NoRowToContinue,
    ),
    (
        b"  State Event Action Next\n\n# c\n+ ",
        4,
        TextCode::NoRowToContinue,
    ),
    (b"  State Event Action Next\n+x", 2, TextCode::BadByte),
    (b"+ State Event Action Next\n", 1, TextCode::NoHeader),
    (
        b"  State Event Action Next\n  A     b     -      C\n+x",
        3,
        TextCode::BadByte,
    ),
    (
        b"  State Event Action Next\n  A     b     -      C\n+\t",
        3,
        TextCode::BadByte,
    ),
    // A row's fault comes before that of a line that continues it, and is judged with all of them.
    (
        b"  State Event Action Next\n  A     b     p q    C\n+x",
        2,
        TextCode::BadName,
    ),
    (
        b"  State Event Action Next\n  A     b     -\n# \t\n",
        2,
        TextCode::EmptyCell,
    ),
    (
        b"  State Event Action Next\n  A     b     -      C\n+ \t\n",
        2,
        TextCode::BadName,
    ),
    (
        b"  State Event Action Next\n  A     b     p      C\n+             q\n",
        2,
        TextCode::BadName,
    ),
    (
        b"  State Event Action Next\n  A     b     -      C\n+             -\n",
        2,
        TextCode::BadName,
    ),
    (
        b"  State Event Action Next\n  A     b     -      abcdefghijklmnopqrst\n\
            +                    abcdefghijklmnopqrstu\n",
        2,
        TextCode::BadName,
    ),
    (
        b"  State Event             Action Next\n  A     b when c and d    -      C\n+       and e and f and g\n",
        2,
        TextCode::TooManyInRow,
    ),
];

#[test]
fn such_lines_are_read(rt: HostRuntime) {
    for text in GOOD {
        assert!(rt; is_read_as(rt.alloc(), text, None), "in {text:?}");
    }
}

#[test]
fn a_fault_of_a_row_is_told_at_its_first_line(rt: HostRuntime) {
    for (text, line, code) in FAULTY {
        assert!(rt;
            is_read_as(rt.alloc(), text, Some(TextFault { line, code })),
            "in {text:?}"
        );
    }
}
