//! Images that are loaded, and those that are refused.

use crate::assembled::{IMAGE, book_of, deep, image_of, wide};
use base_list::AddError;
use std::alloc::Global;
use std::test::Fail;
use tab_image::build;
use tab_law::{ActLaw, GuardLaw, LawBook};
use tab_load::{LoadError, load};
use tab_step::bind;
use tab_text::parse;

/// The image of the client in format 1, by hand: 98 octets, the last 23 of them code.
pub(crate) const IMAGE_1: [u8; 98] = [
    68, 84, 73, 49, 0, 2, 0, 1, 0, 2, 0, 2, 0, 2, 4, 87, 97, 105, 116, 4, 68, 111, 110, 101, 5, 67,
    67, 65, 45, 73, 4, 109, 105, 110, 101, 7, 115, 117, 99, 99, 101, 115, 115, 13, 71, 114, 97,
    110, 116, 45, 83, 101, 114, 118, 105, 99, 101, 11, 69, 110, 100, 45, 83, 101, 114, 118, 105,
    99, 101, 0, 0, 255, 255, 0, 23, 1, 0, 0, 2, 0, 0, 15, 2, 1, 0, 15, 3, 0, 4, 1, 1, 0, 1, 3, 1,
    4, 0, 5,
];

/// A place of that image, the octet that stands there instead, the number of the fault and its place.
const CHANGES: [(usize, u8, u8, usize); 23] = [
    (3, 51, 1, 0),
    (5, 0, 3, 4),
    (5, 65, 3, 4),
    (7, 129, 3, 6),
    (12, 2, 3, 12),
    (13, 0, 3, 12),
    (14, 0, 4, 14),
    (15, 49, 4, 14),
    (25, 68, 5, 24),
    (70, 3, 6, 69),
    (74, 20, 9, 93),
    (74, 21, 2, 98),
    (74, 22, 10, 97),
    (74, 24, 2, 98),
    (75, 3, 3, 75),
    (75, 6, 8, 75),
    (77, 2, 3, 75),
    (79, 2, 3, 78),
    (81, 3, 7, 78),
    (81, 16, 6, 78),
    (85, 0, 7, 82),
    (87, 2, 3, 86),
    (89, 2, 3, 88),
];

/// The book of the client.
fn client_book(alloc: Global) -> Result<LawBook, AddError> {
    let mut book = LawBook::new(alloc);
    book.add_kind(b"CCA-I")?;
    book.add_guard(b"mine", GuardLaw::new(Vec::new(alloc)))?;
    book.add_guard(b"success", GuardLaw::new(Vec::new(alloc)))?;
    book.add_act(b"Grant-Service", ActLaw::new(Vec::new(alloc)))?;
    book.add_act(b"End-Service", ActLaw::new(Vec::new(alloc)))?;
    Ok(book)
}

/// The number of an image's fault and its place; 0 where it is loaded, 11 for want of memory.
fn fault_of(alloc: Global, octets: &[u8], book: &LawBook) -> (u8, usize) {
    match load(alloc, octets, book) {
        Ok(_) => (0, 0),
        Err(LoadError::Refused(fault)) => (fault.code.number(), fault.at),
        Err(LoadError::NoMemory) => (11, 0),
    }
}

/// Whether each change of one octet is refused so.
fn are_refused(alloc: Global, book: &LawBook) -> bool {
    for (place, octet, code, at) in CHANGES {
        let mut image = IMAGE_1;
        if place < 98 {
            image[place] = octet;
        }
        if fault_of(alloc, image.as_slice(), book) != (code, at) {
            return false;
        }
    }
    true
}

#[test]
fn an_image_of_each_format_is_loaded(rt: HostRuntime) -> Result<(), Fail> {
    let book = client_book(rt.alloc()).ok().ok_or("the names differ")?;
    assert!(rt; fault_of(rt.alloc(), IMAGE_1.as_slice(), &book) == (0, 0));
    assert!(rt; fault_of(rt.alloc(), IMAGE.as_slice(), &book) == (0, 0));
    Ok(())
}

#[test]
fn an_image_that_is_cut_off_is_refused_at_its_end(rt: HostRuntime) -> Result<(), Fail> {
    let book = client_book(rt.alloc()).ok().ok_or("the names differ")?;
    for length in 0..98usize {
        assert!(rt; fault_of(rt.alloc(), &IMAGE_1[..length], &book) == (2, length));
    }
    assert!(rt; fault_of(rt.alloc(), &IMAGE[..107], &book) == (2, 107));
    Ok(())
}

#[test]
fn each_fault_is_told_with_its_place(rt: HostRuntime) -> Result<(), Fail> {
    let book = client_book(rt.alloc()).ok().ok_or("the names differ")?;
    assert!(rt; are_refused(rt.alloc(), &book));
    let mut back = IMAGE;
    back[95] = 0;
    assert!(rt; fault_of(rt.alloc(), back.as_slice(), &book) == (7, 90));
    let mut twice = IMAGE_1;
    twice[20..24].copy_from_slice(b"Wait");
    assert!(rt; fault_of(rt.alloc(), twice.as_slice(), &book) == (4, 19));
    Ok(())
}

#[test]
fn each_change_of_one_octet_is_refused_or_loaded(rt: HostRuntime) -> Result<(), Fail> {
    let book = client_book(rt.alloc()).ok().ok_or("the names differ")?;
    for place in 0..98usize {
        for octet in 0..=255u8 {
            let mut image = IMAGE_1;
            image[place] = octet;
            assert!(rt; fault_of(rt.alloc(), image.as_slice(), &book).0 < 11);
        }
    }
    Ok(())
}

/// Whether the image of a text's table is loaded.
fn is_loaded(alloc: Global, text: &[u8]) -> Result<bool, Fail> {
    let image = image_of(alloc, text)?;
    let table = parse(alloc, text).ok().ok_or("the text is a table")?;
    let book = book_of(alloc, &table).ok().ok_or("the names differ")?;
    Ok(fault_of(alloc, image.as_slice(), &book) == (0, 0))
}

/// Whether the program of a text's table is built.
fn is_built(alloc: Global, text: &[u8]) -> Result<bool, Fail> {
    let table = parse(alloc, text).ok().ok_or("the text is a table")?;
    let book = book_of(alloc, &table).ok().ok_or("the names differ")?;
    let bound = bind(alloc, table, &book)
        .ok()
        .ok_or("the book has all names")?;
    Ok(build(alloc, &bound, &book).is_ok())
}

#[test]
fn assembled_tables_are_loaded(rt: HostRuntime) -> Result<(), Fail> {
    for rows in [1u16, 513, 4_096] {
        let text = deep(rt.alloc(), rows)?;
        assert!(rt; is_loaded(rt.alloc(), text.as_slice())?);
    }
    let text = wide(rt.alloc())?;
    assert!(rt; is_loaded(rt.alloc(), text.as_slice())?);
    assert!(rt; is_built(rt.alloc(), text.as_slice())?);
    Ok(())
}
