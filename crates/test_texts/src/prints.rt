//! Tables printed as text, and read again.

use std::alloc::Global;
use std::test::Fail;
use tab_print::print;
use tab_text::{NameList, Row, Table, parse};

/// A client that waits for its answer, as it is printed.
const EXAMPLE: &[u8] =
    b"  State  Event                        Action         Next\n  Wait   CCA-I when mine and success  Grant-Service  \
        Done\n  Wait   CCA-I                        End-Service    Wait\n";

/// Comments, an empty State cell, no action, and several.
const LOOSE: &[u8] =
    b"\n# a comment\n  State Event Action  Next\n   \n  A     x     -       Behind-1/_\n# + \n\
        \n        y     p ,  q  A";

/// The same, printed: the heading is the longest cell of three columns.
const TIDY: &[u8] =
    b"  State  Event  Action  Next\n  A      x      -       Behind-1/_\n  A      y      p, q    A\n";

/// Whether a text's table is printed so.
fn is_printed_as(alloc: Global, text: &[u8], wanted: &[u8]) -> Result<bool, Fail> {
    let table = parse(alloc, text)?;
    let printed = print(alloc, &table)?;
    Ok(printed.as_slice() == wanted)
}

#[test]
fn columns_are_two_blanks_wider_than_their_longest_cell(rt: HostRuntime) -> Result<(), Fail> {
    assert!(rt; is_printed_as(rt.alloc(), EXAMPLE, EXAMPLE)?);
    assert!(rt; is_printed_as(rt.alloc(), LOOSE, TIDY)?);
    Ok(())
}

/// Whether names are the same.
fn are_same_names(names: &NameList, others: &NameList) -> bool {
    let (names, others) = (names.as_slice(), others.as_slice());
    names.len() == others.len()
        && names
            .iter()
            .zip(others)
            .all(|(name, other)| name.as_slice() == other.as_slice())
}

/// Whether two rows are the same.
fn is_same_row(row: &Row, other: &Row) -> bool {
    (row.state, row.kind, row.next) == (other.state, other.kind, other.next)
        && row.guards.as_slice() == other.guards.as_slice()
        && row.actions.as_slice() == other.actions.as_slice()
}

/// Whether two tables have the same rows and names.
fn are_same(table: &Table, other: &Table) -> bool {
    let (rows, others) = (table.rows(), other.rows());
    rows.len() == others.len()
        && rows
            .iter()
            .zip(others)
            .all(|(row, other)| is_same_row(row, other))
        && are_same_names(table.states(), other.states())
        && are_same_names(table.kinds(), other.kinds())
        && are_same_names(table.guards(), other.guards())
        && are_same_names(table.actions(), other.actions())
}

/// Whether what is printed of a text's table is read as the same table.
fn is_read_back(alloc: Global, text: &[u8]) -> Result<bool, Fail> {
    let table = parse(alloc, text)?;
    let printed = print(alloc, &table)?;
    let again = parse(alloc, printed.as_slice())?;
    Ok(are_same(&table, &again))
}

#[test]
fn what_is_printed_is_read_as_the_same_table(rt: HostRuntime) -> Result<(), Fail> {
    for text in [EXAMPLE, LOOSE, TIDY] {
        assert!(rt; is_read_back(rt.alloc(), text)?, "of {text:?}");
    }
    Ok(())
}
