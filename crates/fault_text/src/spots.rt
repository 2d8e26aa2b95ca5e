//! What stands where a table's text has its first fault, and in which row a name stands that isn't registered.
ghost use Rattle.std.specs.Prelude.{◌≡◌, ◌++◌, [], ◌∷◌, OnOk, option_map, position, take, MatchOption};
ghost use Rattle.std.specs.List.{find, list_all};
ghost use Rattle.std.specs.Option.{option_map_or};
ghost use Rattle.fault_text.specs.Spots.{bad_byte, from_line, is_bad, is_bound, is_odd, is_registered};
ghost use Rattle.fault_text.specs.Spots.{odd_at, odd_behind, odd_in_row, odd_word, place_line, shown_line};
ghost use Rattle.fault_text.specs.Spots.{unbound_place, unbound_row, wrong_line, wrong_part};
ghost use Rattle.fault_text.specs.Words.{shown};
ghost use Rattle.text_parts.specs.Left.{line_of, lines_left, lines_more};
ghost use Rattle.text_parts.specs.Lines.{lines};
ghost use Rattle.text_parts.specs.Pieces.{pieces_in};

use base_list::NamedList;
use base_text::put_number;
use std::alloc::AllocError;
use tab_law::LawBook;
use tab_text::{NameList, Row, Table, TextCode, TextFault, is_name};
use text_parts::{Lines, Pieces, TextLine, Words, is_plain, trimmed};

/// A word as it is shown, where it is printable and has at most 80 octets.
pub(crate) fn shown(word: &[u8]) -> &[u8]
    ensures { result.now ≡ shown word.now }
{
    if is_plain(word) && word.len() <= 80 {
        word
    } else {
        b"a word that is long, or not printable ASCII"
    }
}

/// Whether a word of a row is no name, and doesn't stand between names.
#[tactic(auto, unfolding(crate::specs::Spots::is_odd))]
fn is_odd(word: &[u8]) -> bool
    ensures { result ≡ is_odd word.now }
{
    !word.is_empty()
        && !is_name(word)
        && !(word == b"-".as_slice() || word == b"when".as_slice() || word == b"and".as_slice())
}

/// The first such part of a word; parts end at commas.
fn odd_part(word: &[u8]) -> Option<&[u8]>
    ensures { option_map (λ part. part.now) result ≡ find is_odd (pieces_in 44 word.now) }
{
    let mut parts = Pieces::new(word, b',');
    while let Some(part) = parts.next() {
        if is_odd(part) {
            return Some(part);
        }
    }
    None
}

/// The first such word of a line; words end at blanks and commas.
fn odd_word(octets: &[u8]) -> Option<&[u8]>
    ensures { option_map (λ word. word.now) result ≡ odd_word octets.now }
{
    let mut words = Words::new(octets);
    while let Some(word) = words.next() {
        let found = odd_part(word.octets);
        if found.is_some() {
            return found;
        }
    }
    None
}

/// The first such word of the lines that continue a row.
fn odd_behind(mut behind: Lines<'_>) -> Option<&[u8]>
    ensures { option_map (λ word. word.now) result ≡ odd_behind (lines_more behind.entry) }
{
    while let Some(line) = behind.next_more() {
        let found = odd_word(&line.octets[1.min(line.octets.len())..]);
        if found.is_some() {
            return found;
        }
    }
    None
}

/// The first such word of a row.
fn odd_in_row<'a>(line: &TextLine<'a>, behind: Lines<'a>) -> Option<&'a [u8]>
    ensures { option_map (λ word. word.now) result ≡ odd_in_row (line_of line.now) (lines_left behind.entry) }
{
    match odd_word(line.octets) {
        None => odd_behind(behind),
        found => found,
    }
}

/// The line of that number, and the lines behind it.
fn line_at(text: &[u8], number: usize) -> Option<(TextLine<'_>, Lines<'_>)>
    ensures { MatchOption result (from_line number (lines text.now) ≡ [])
        (λ found. from_line number (lines text.now) ≡ line_of found.0 ∷ lines_left found.1) }
{
    let mut left = Lines::new(text);
    while let Some(line) = left.next() {
        if line.number == number {
            return Some((line, left));
        }
    }
    None
}

/// The first word that is no name, where a row isn't made of names.
pub(crate) fn odd_at<'a>(text: &'a [u8], fault: &TextFault) -> Option<&'a [u8]>
    ensures { option_map (λ word. word.now) result
        ≡ odd_at fault.now.code (from_line fault.now.line (lines text.now)) }
{
    let (line, behind) = line_at(text, fault.line)?;
    match fault.code {
        TextCode::BadName => odd_in_row(&line, behind),
        _ => None,
    }
}

/// How many octets of a line are shown.
const SHOWN: usize = 160;

/// The octets in front that are shown.
fn front(octets: &[u8]) -> &[u8]
    ensures { result.now ≡ take 160 octets.now }
{
    &octets[..SHOWN.min(octets.len())]
}

/// Puts a line as it is shown.
fn put_shown_line(out: &mut Vec<u8>, octets: &[u8]) -> Result<(), AllocError>
    ensures { OnOk result (out.new.items ≡ out.old.items ++ shown_line octets.now) }
{
    if !is_plain(octets) {
        return out.extend_from_slice(b"a line that isn't printable ASCII");
    }
    out.extend_from_slice(front(trimmed(octets)))
}

/// Where the first byte stands that a text can't have.
fn bad_place(octets: &[u8]) -> Option<usize>
    ensures { result ≡ position is_bad octets.now }
{
    octets.iter().position(|b| !(b' ' <= *b && *b <= b'~'))
}

/// Puts where the first byte of a line stands that a text can't have, or the line.
fn put_bad_byte(out: &mut Vec<u8>, octets: &[u8]) -> Result<(), AllocError>
    ensures { OnOk result (out.new.items ≡ out.old.items ++ bad_byte octets.now) }
{
    match bad_place(octets) {
        None => put_shown_line(out, octets),
        Some(at) => {
            put_number(out, b"byte ", at as u64)?;
            out.extend_from_slice(b" of the line, counted from 0")
        }
    }
}

/// Puts the first word of a row that is no name, or the line on which it begins.
fn put_odd(out: &mut Vec<u8>, line: &TextLine<'_>, behind: Lines<'_>) -> Result<(), AllocError>
    ensures { OnOk result (out.new.items
        ≡ out.old.items ++ option_map_or shown (odd_in_row (line_of line.now) (lines_left behind.entry))
        (shown_line line.now.octets.now)) }
{
    match odd_in_row(line, behind) {
        None => put_shown_line(out, line.octets),
        Some(word) => out.extend_from_slice(shown(word)),
    }
}

/// Puts what is wrong at a line.
fn put_wrong_part(
    out: &mut Vec<u8>,
    code: TextCode,
    line: &TextLine<'_>,
    behind: Lines<'_>,
) -> Result<(), AllocError>
    ensures { OnOk result (out.new.items
        ≡ out.old.items ++ wrong_part code (line_of line.now) (lines_left behind.entry)) }
{
    match code {
        TextCode::BadByte => put_bad_byte(out, line.octets),
        TextCode::BadName => put_odd(out, line, behind),
        _ => put_shown_line(out, line.octets),
    }
}

/// Puts what stands where a table's text has its first fault, on a line of its own.
pub(crate) fn put_wrong_line(
    out: &mut Vec<u8>,
    text: &[u8],
    fault: &TextFault,
) -> Result<(), AllocError>
    ensures { OnOk result (out.new.items
        ≡ out.old.items ++ wrong_line fault.now.code (from_line fault.now.line (lines text.now))) }
{
    let Some((line, behind)) = line_at(text, fault.line) else {
        return Ok(());
    };
    out.extend_from_slice(b"  wrong: ")?;
    put_wrong_part(out, fault.code, &line, behind)?;
    out.extend_from_slice(b"\n")
}

/// A row of a table, counted from 0, and the line of the text on which it begins.
#[derive(Clone, Copy)]
pub struct RowPlace {
    pub row: usize,
    pub line: Option<usize>,
}

/// Whether the name of that number is registered.
fn is_registered<T: Drop>(entries: &NamedList<T>, names: &NameList, number: u8) -> bool
    ensures { result ≡ is_registered entries.now names.now number }
{
    match names.as_slice().get(number as usize) {
        Some(name) => entries.find(name.as_slice()).is_some(),
        None => false,
    }
}

/// Whether each of these names is registered.
fn are_registered<T: Drop>(entries: &NamedList<T>, names: &NameList, numbers: &[u8]) -> bool
    ensures { result ≡ list_all (is_registered entries.now names.now) numbers.now }
{
    numbers
        .iter()
        .all(|number| is_registered(entries, names, *number))
}

/// Whether each name of a row is registered.
fn is_bound(book: &LawBook, table: &Table, row: &Row) -> bool
    ensures { result ≡ is_bound book.now table.now row.now }
{
    is_registered(book.kinds(), table.kinds(), row.kind)
        && are_registered(book.guards(), table.guards(), row.guards.as_slice())
        && are_registered(book.acts(), table.actions(), row.actions.as_slice())
}

/// The first row of a table with a name that isn't registered.
fn unbound_row(book: &LawBook, table: &Table) -> Option<usize>
    ensures { result ≡ unbound_row book.now table.now }
{
    table
        .rows()
        .iter()
        .position(|row| !is_bound(book, table, row))
}

/// The first row of a table with a name that isn't registered, and the line on which it begins.
pub fn unbound_place(book: &LawBook, table: &Table) -> Option<RowPlace>
    ensures { result ≡ unbound_place book.now table.now }
{
    match unbound_row(book, table) {
        None => None,
        Some(row) => Some(RowPlace {
            row,
            line: table.line_of(row),
        }),
    }
}

/// Puts the row where a name stands that isn't registered, on a line of its own.
pub(crate) fn put_place(out: &mut Vec<u8>, place: Option<RowPlace>) -> Result<(), AllocError>
    ensures { OnOk result (out.new.items ≡ out.old.items ++ place_line place) }
{
    let Some(place) = place else {
        return Ok(());
    };
    put_number(out, b"  in: row ", place.row as u64)?;
    if let Some(line) = place.line {
        put_number(out, b", line ", line as u64)?;
    }
    out.extend_from_slice(b"\n")
}
