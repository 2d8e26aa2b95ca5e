//! Images that texts assemble to.

use base_list::AddError;
use std::alloc::{AllocError, Global};
use std::test::Fail;
use tab_asm::assemble;
use tab_law::{ActLaw, GuardLaw, LawBook};
use tab_step::bind;
use tab_text::{Table, parse};

/// A client that waits for its answer.
const CLIENT: &str =
    "  State  Event                        Action         Next\n  Wait   CCA-I when mine and success  Grant-Service  \
        Done\n  Wait   CCA-I                        End-Service    Wait\n";

/// Its image, by hand: magic, counts, names, two entries, 27 octets of code.
pub(crate) const IMAGE: [u8; 108] = [
    68, 84, 73, 50, 0, 2, 0, 1, 0, 2, 0, 2, 0, 2, 4, 87, 97, 105, 116, 4, 68, 111, 110, 101, 5, 67,
    67, 65, 45, 73, 4, 109, 105, 110, 101, 7, 115, 117, 99, 99, 101, 115, 115, 13, 71, 114, 97,
    110, 116, 45, 83, 101, 114, 118, 105, 99, 101, 11, 69, 110, 100, 45, 83, 101, 114, 118, 105,
    99, 101, 0, 0, 0, 0, 255, 255, 255, 255, 0, 0, 0, 27, 1, 0, 0, 2, 0, 0, 0, 0, 19, 2, 1, 0, 0,
    0, 19, 3, 0, 4, 1, 1, 0, 1, 3, 1, 4, 0, 5,
];

/// The heading of the tables that tests make.
const HEADING: &str = "  State  Event  Action  Next\n";

/// A book with all names of a table, in the order of their numbers.
pub(crate) fn book_of(alloc: Global, table: &Table) -> Result<LawBook, AddError> {
    let mut book = LawBook::new(alloc);
    for name in table.kinds().as_slice() {
        book.add_kind(name.as_slice())?;
    }
    for name in table.guards().as_slice() {
        book.add_guard(name.as_slice(), GuardLaw::new(Vec::new(alloc)))?;
    }
    for name in table.actions().as_slice() {
        book.add_act(name.as_slice(), ActLaw::new(Vec::new(alloc)))?;
    }
    Ok(book)
}

/// The image of a text's table.
pub(crate) fn image_of(alloc: Global, text: &[u8]) -> Result<Vec<u8>, Fail> {
    let table = parse(alloc, text).ok().ok_or("the text is a table")?;
    let book = book_of(alloc, &table).ok().ok_or("the names differ")?;
    let bound = bind(alloc, table, &book)
        .ok()
        .ok_or("the book has all names")?;
    let octets = assemble(alloc, &bound).ok().ok_or("memory is there")?;
    Ok(octets)
}

/// A number under 100 in two digits.
fn put_number(text: &mut Vec<u8>, number: u8) -> Result<(), AllocError> {
    text.push(b'0' + number / 10 % 10)?;
    text.push(b'0' + number % 10)?;
    Ok(())
}

/// Rows of 64 states and 64 kinds, each with the same guards and actions.
pub(crate) fn wide(alloc: Global) -> Result<Vec<u8>, AllocError> {
    let mut text = Vec::new(alloc);
    text.extend_from_slice(b"  State  Event                         Action             Next\n")?;
    for state in 0..64u8 {
        for kind in 0..64u8 {
            text.extend_from_slice(b"  s")?;
            put_number(&mut text, state)?;
            text.extend_from_slice(b"    k")?;
            put_number(&mut text, kind)?;
            text.extend_from_slice(b" when a and b and c and d  A,B,C,D,E,F,G,H    s00\n")?;
        }
    }
    Ok(text)
}

/// As many rows of one state and one kind.
pub(crate) fn deep(alloc: Global, rows: u16) -> Result<Vec<u8>, AllocError> {
    let mut text = Vec::new(alloc);
    text.extend_from_slice(HEADING.as_bytes())?;
    for _ in 0..rows {
        text.extend_from_slice(b"  S      K      -       S\n")?;
    }
    Ok(text)
}

#[test]
fn a_table_gives_its_image(rt: HostRuntime) -> Result<(), Fail> {
    let image = image_of(rt.alloc(), CLIENT.as_bytes())?;
    assert!(rt; image.as_slice() == IMAGE.as_slice());
    Ok(())
}

#[test]
fn the_largest_code_has_188416_octets(rt: HostRuntime) -> Result<(), Fail> {
    let text = wide(rt.alloc())?;
    let image = image_of(rt.alloc(), text.as_slice())?;
    // 14 octets of counts, 64 names of 3 octets twice and 12 of one, each with its length, 4,096 entries.
    assert!(rt; image.len() == 14 + 64 * 4 * 2 + 12 * 2 + 4_096 * 4 + 4 + 188_416);
    assert!(rt; image.as_slice().ends_with(&[3, 7, 4, 0, 5]));
    Ok(())
}

#[test]
fn as_many_rows_as_a_table_may_have_are_assembled(rt: HostRuntime) -> Result<(), Fail> {
    for (rows, code) in [(513u16, 2_566usize), (4_096, 20_481)] {
        let text = deep(rt.alloc(), rows)?;
        let image = image_of(rt.alloc(), text.as_slice())?;
        // 14 octets of counts, two names of one octet, one entry, the code's length.
        assert!(rt; image.len() == 14 + 4 + 4 + 4 + code);
        let last = rows - 1;
        let [high, low] = last.to_be_bytes();
        assert!(rt; image.as_slice().ends_with(&[1, high, low, 4, 0, 5]));
    }
    Ok(())
}

#[test]
fn an_entry_without_rows_has_no_offset(rt: HostRuntime) -> Result<(), Fail> {
    let text =
        b"  State  Event  Action  Next\n  S      K      -       T\n  T      L      -       S\n";
    let image = image_of(rt.alloc(), text.as_slice())?;
    // Of state S the kind K, of state T the kind L: offsets 0 and 6.
    assert!(rt;
        image.as_slice().ends_with(&[
            0, 0, 0, 0, 255, 255, 255, 255, 255, 255, 255, 255, 0, 0, 0, 6, 0, 0, 0, 12, 1, 0, 0,
            4, 1, 5, 1, 0, 1, 4, 0, 5,
        ])
    );
    Ok(())
}
