//! Texts of tables: what is read, and what is refused at which line.

ghost use Rattle.std.specs.Prelude.{◌<◌};

use std::alloc::{AllocError, Global};
use std::test::Fail;
use tab_text::{
    MAX_ACTIONS, MAX_GUARDS, MAX_KINDS, MAX_ROWS, MAX_STATES, MAX_TEXT, NameList, ParseError, Row,
    TextCode, TextFault, parse,
};

/// A client that waits for its answer.
const EXAMPLE: &[u8] =
    b"  State  Event                        Action         Next\n  Wait   CCA-I when mine and success  Grant-Service  \
        Done\n  Wait   CCA-I                        End-Service    Wait\n";

/// Comments, blank lines and an empty State cell.
const LOOSE: &[u8] =
    b"\n# a comment\n  State Event Action  Next\n   \n  A     x     -       B-1/_\n# + \n\n        y     p ,  q  A";

/// Whether names are these.
pub(crate) fn are_names(names: &NameList, wanted: &[&[u8]]) -> bool {
    let names = names.as_slice();
    names.len() == wanted.len()
        && names
            .iter()
            .zip(wanted)
            .all(|(name, want)| name.as_slice() == *want)
}

/// Whether a row has this state, kind and next state, these guards and these actions.
fn is_row(row: &Row, numbers: (u8, u8, u8), guards: &[u8], actions: &[u8]) -> bool {
    (row.state, row.kind, row.next) == numbers
        && row.guards.as_slice() == guards
        && row.actions.as_slice() == actions
}

#[test]
fn the_example_has_two_rows_and_its_names_in_order(rt: HostRuntime) -> Result<(), Fail> {
    let table = parse(rt.alloc(), EXAMPLE)?;
    let rows = table.rows();
    assert!(rt; rows.len() == 2);
    assert!(rt; is_row(&rows[0], (0, 0, 1), &[0, 1], &[0]));
    assert!(rt; is_row(&rows[1], (0, 0, 0), &[], &[1]));
    for (row, line) in [(0, Some(2)), (1, Some(3)), (2, None)] {
        assert!(rt; table.line_of(row) == line, "line of {row}");
    }
    assert!(rt; are_names(table.states(), &[b"Wait".as_slice(), b"Done".as_slice()]));
    assert!(rt; are_names(table.kinds(), &[b"CCA-I".as_slice()]));
    assert!(rt; are_names(table.guards(), &[b"mine".as_slice(), b"success".as_slice()]));
    assert!(rt;
        are_names(
            table.actions(),
            &[b"Grant-Service".as_slice(), b"End-Service".as_slice()]
        )
    );
    Ok(())
}

#[test]
fn comments_blank_lines_and_an_empty_state_are_as_if_written_out(
    rt: HostRuntime,
) -> Result<(), Fail> {
    let table = parse(rt.alloc(), LOOSE)?;
    let rows = table.rows();
    assert!(rt; rows.len() == 2);
    assert!(rt; is_row(&rows[0], (0, 0, 1), &[], &[]));
    assert!(rt; is_row(&rows[1], (0, 1, 0), &[], &[0, 1]));
    assert!(rt; (table.line_of(0), table.line_of(1)) == (Some(5), Some(8)));
    Ok(())
}

/// Whether a text is read, or has that as its first fault.
fn is_read_as(alloc: Global, text: &[u8], wanted: Option<TextFault>) -> bool {
    match parse(alloc, text) {
        Ok(_) => wanted == None,
        Err(ParseError::Fault(fault)) => wanted == Some(fault),
        Err(ParseError::NoMemory) => false,
    }
}

/// A fault, and the line on which it is.
fn fault(line: usize, code: TextCode) -> Option<TextFault> {
    Some(TextFault { line, code })
}

/// Texts without a header, or with a bad byte, and the line of that.
const HEADERS: [(&[u8], usize, TextCode); 12] = [
    (b"", 0, TextCode::NoHeader),
    (b"# no header\n\n", 0, TextCode::NoHeader),
    (b"State Event Action Next\n", 1, TextCode::NoHeader),
    (b"  State Event Action\n", 1, TextCode::NoHeader),
    (b"  State Event Action Next Row\n", 1, TextCode::NoHeader),
    (b"  State Action Event Next\n", 1, TextCode::NoHeader),
    (b"  state Event Action Next\n", 1, TextCode::NoHeader),
    (b"# tab\t\n", 1, TextCode::BadByte),
    (b"# del\x7f\n", 1, TextCode::BadByte),
    (b"# high\x80\n", 1, TextCode::BadByte),
    (
        b"  State Event Action Next\n+ A     b     -      C",
        2,
        TextCode::NoRowToContinue,
    ),
    (
        b"  State Event Action Next\n A      b     -      C",
        2,
        TextCode::BadByte,
    ),
];

/// Texts that lack a cell, and the line of that.
const LACKING: [(&[u8], usize); 5] = [
    (b"\n  State Event Action Next\n", 2),
    (b"  State Event Action Next\n  A     b     -", 2),
    (b"  State Event Action Next\n  A           -      C", 2),
    (b"  State Event Action Next\n  A     b            C", 2),
    (b"  State Event Action Next\n        b     -      C", 2),
];

#[test]
fn each_fault_has_its_line_and_code(rt: HostRuntime) {
    for (text, line, code) in HEADERS {
        assert!(rt;
            is_read_as(rt.alloc(), text, fault(line, code)),
            "in {text:?}"
        );
    }
    for (text, line) in LACKING {
        assert!(rt;
            is_read_as(rt.alloc(), text, fault(line, TextCode::EmptyCell)),
            "in {text:?}"
        );
    }
}

/// Texts whose names are of their form.
const GOOD_NAMES: [&[u8]; 3] = [
    b"  State Event Action Next\n  A     b     -      C",
    b"  State Event Action Next\n  A     When  and-   C",
    b"  State Event             Action Next\n  A     b when g  and  h   -      C",
];

/// Texts with a name that isn't.
const BAD_NAMES: [&[u8]; 12] = [
    b"  State Event Action Next\n  1A    b     -      C",
    b"  State Event Action Next\n  A B   b     -      C",
    b"  State Event Action Next\n  A     b     -      -",
    b"  State Event Action Next\n  A     when  -      C",
    b"  State Event Action Next\n  A     b     and    C",
    b"  State Event Action Next\n  A     b     p,,q   C",
    b"  State Event Action Next\n  A     b     p,-    C",
    b"  State Event Action Next\n  A     b     p q    C",
    b"  State Event             Action Next\n  A     b when             -      C",
    b"  State Event             Action Next\n  A     b g                -      C",
    b"  State Event             Action Next\n  A     b when g and       -      C",
    b"  State Event             Action Next\n  A     b when g or h      -      C",
];

#[test]
fn a_name_is_of_its_form(rt: HostRuntime) {
    for text in GOOD_NAMES {
        assert!(rt; is_read_as(rt.alloc(), text, None), "in {text:?}");
    }
    for text in BAD_NAMES {
        assert!(rt;
            is_read_as(rt.alloc(), text, fault(2, TextCode::BadName)),
            "in {text:?}"
        );
    }
}

/// Too many guards or actions in line 2, and a bad name there.
const OVER: Option<TextFault> = Some(TextFault {
    line: 2,
    code: TextCode::TooManyInRow,
});

const BAD: Option<TextFault> = Some(TextFault {
    line: 2,
    code: TextCode::BadName,
});

/// Rows with many guards or many actions, and what is wrong with each.
const MANY: [(&[u8], Option<TextFault>); 6] = [
    (
        b"  State Event                               Action              Next\n  A     b when c and d and e and \
            f          -                   C",
        None,
    ),
    (
        b"  State Event                               Action              Next\n  A     b when c and d and e and f and \
            g    -                   C",
        OVER,
    ),
    (
        b"  State Event                               Action              Next\n  A     b when c and d and e and f and \
            7    -                   C",
        BAD,
    ),
    (
        b"  State Event                               Action              Next\n  A     \
            b                                   a,b,c,d,e,f,g,h     C",
        None,
    ),
    (
        b"  State Event                               Action              Next\n  A     \
            b                                   a,b,c,d,e,f,g,h,i   C",
        OVER,
    ),
    (
        b"  State Event                               Action              Next\n  A     \
            b                                   a,b,c,d,e,f,g,h,i,  C",
        BAD,
    ),
];

#[test]
fn a_row_has_at_most_four_guards_and_eight_actions(rt: HostRuntime) {
    for (text, wanted) in MANY {
        assert!(rt; is_read_as(rt.alloc(), text, wanted), "in {text:?}");
    }
}

/// A text of so many blanks.
fn blanks(alloc: Global, count: usize) -> Result<Vec<u8>, AllocError> {
    let mut text = Vec::new(alloc);
    for _ in 0..count {
        text.push(b' ')?;
    }
    Ok(text)
}

/// The header of the texts that are made below.
const HEADER: &[u8] = b"  State Event        Action Next\n";

/// Which cell of a row has a name of its own in each row.
#[derive(Clone, Copy)]
enum Cell {
    State,
    Kind,
    Guard,
    Action,
}

/// What stands before and behind the name in a row.
fn around(cell: Cell) -> (&'static [u8], &'static [u8]) {
    match cell {
        Cell::State => (b"  ", b"    k            -      aa\n"),
        Cell::Kind => (b"  A     ", b"           -      A\n"),
        Cell::Guard => (b"  A     k when ", b"    -      A\n"),
        Cell::Action => (b"  A     k            ", b"     A\n"),
    }
}

/// The name of a number: two small letters.
fn name_of(number: u8) -> [u8; 2]
    requires { number < 130 }
{
    [b'a' + number / 26, b'a' + number % 26]
}

/// A text of so many rows, each with a name of its own in that cell.
fn text_of(alloc: Global, cell: Cell, rows: usize) -> Result<Vec<u8>, AllocError> {
    let (before, behind) = around(cell);
    let mut text = Vec::from_slice(alloc, HEADER)?;
    for row in 0..rows {
        let name = name_of((row % 130) as u8);
        text.extend_from_slice(before)?;
        text.extend_from_slice(&name)?;
        text.extend_from_slice(behind)?;
    }
    Ok(text)
}

/// Whether a text with so many rows has so many rows, or the fault.
fn rows_are_read_as(alloc: Global, cell: Cell, rows: usize, wanted: Option<TextFault>) -> bool {
    match text_of(alloc, cell, rows) {
        Ok(text) => is_read_as(alloc, text.as_slice(), wanted),
        Err(_) => false,
    }
}

#[test]
fn a_table_has_room_for_so_many_names(rt: HostRuntime) {
    for (cell, limit) in [
        (Cell::State, MAX_STATES),
        (Cell::Kind, MAX_KINDS),
        (Cell::Guard, MAX_GUARDS),
        (Cell::Action, MAX_ACTIONS),
    ] {
        let over = fault(limit + 2, TextCode::TooManyNames);
        assert!(rt; rows_are_read_as(rt.alloc(), cell, limit, None));
        assert!(rt; rows_are_read_as(rt.alloc(), cell, limit + 1, over));
    }
}

/// A text of so many rows that are alike.
fn alike(alloc: Global, rows: usize) -> Result<Vec<u8>, AllocError> {
    let mut text = Vec::from_slice(alloc, HEADER)?;
    for _row in 0..rows {
        text.extend_from_slice(b"  A     k            -      B\n")?;
    }
    Ok(text)
}

/// A row whose next state is a name of forty bytes and so many more.
fn long_name(alloc: Global, more: &[u8]) -> Result<Vec<u8>, AllocError> {
    let mut text = Vec::from_slice(alloc, HEADER)?;
    text.extend_from_slice(b"  A     k            -      ")?;
    text.extend_from_slice(b"abcdefghijklmnopqrstuvwxyzabcdefghijklmn")?;
    text.extend_from_slice(more)?;
    Ok(text)
}

#[test]
fn texts_rows_and_names_have_their_limits(rt: HostRuntime) -> Result<(), Fail> {
    let alloc = rt.alloc();
    for (len, line, code) in [
        (MAX_TEXT + 1, 0, TextCode::TooLong),
        (MAX_TEXT, 0, TextCode::NoHeader),
    ] {
        let text = blanks(alloc, len)?;
        assert!(rt;
            is_read_as(alloc, text.as_slice(), fault(line, code)),
            "{len} bytes"
        );
    }
    let full = alike(alloc, MAX_ROWS)?;
    assert!(rt; parse(alloc, full.as_slice())?.rows().len() == 4_096);
    let over = alike(alloc, MAX_ROWS + 1)?;
    assert!(rt; is_read_as(alloc, over.as_slice(), fault(4_098, TextCode::TooManyRows)));
    for (more, wanted) in [
        (b"\n".as_slice(), None),
        (b"o\n".as_slice(), fault(2, TextCode::BadName)),
    ] {
        let text = long_name(alloc, more)?;
        assert!(rt; is_read_as(alloc, text.as_slice(), wanted));
    }
    Ok(())
}

/// Each code, its number, and its message on line 7.
const MESSAGES: [(TextCode, u8, &str); 9] = [
    (
        TextCode::NoHeader,
        1,
        "line 7: wanted a header: the words State, Event, Action and Next, the first at byte 2",
    ),
    (
        TextCode::BadByte,
        2,
        "line 7: wanted bytes 0x20 to 0x7E alone, in a row's line a blank or + in byte 0 and a blank in byte 1",
    ),
    (
        TextCode::NoRowToContinue,
        4,
        "line 7: wanted a row before a line that continues one",
    ),
    (
        TextCode::EmptyCell,
        3,
        "line 7: wanted a row with Event, Action and Next, and in the first row with a State",
    ),
    (
        TextCode::BadName,
        5,
        "line 7: wanted names of at most 40 bytes, a letter and then letters, digits, - / or _, \
            an Event as `Kind` or `Kind when guard and guard`, and an Action as `-` or names with commas between",
    ),
    (
        TextCode::TooManyRows,
        6,
        "line 7: wanted at most 4,096 rows",
    ),
    (
        TextCode::TooManyNames,
        7,
        "line 7: wanted at most 64 states, 128 kinds, 64 guards and 64 actions in all rows",
    ),
    (
        TextCode::TooManyInRow,
        8,
        "line 7: wanted at most 4 guards and 8 actions in a row",
    ),
    (
        TextCode::TooLong,
        9,
        "line 7: wanted a text of at most 1,048,576 bytes",
    ),
];

/// Whether a fault on line 7 prints that.
fn prints(alloc: Global, code: TextCode, wanted: &str) -> Result<bool, Fail> {
    let fault = ParseError::Fault(TextFault { line: 7, code });
    let message = format!(in alloc; "{fault}")?;
    Ok(message.as_str() == wanted)
}

#[test]
fn a_fault_prints_what_was_wanted(rt: HostRuntime) -> Result<(), Fail> {
    for (code, number, wanted) in MESSAGES {
        assert!(rt; prints(rt.alloc(), code, wanted)?, "{wanted}");
        assert!(rt; code.number() == number, "{wanted}");
    }
    Ok(())
}
