//! What is told of a table, or of lines of events, that is refused: the first fault, and what was wanted in its place.
#![tactic(auto)]

ghost use Rattle.std.specs.Prelude.{◌≡◌, ◌++◌, IfOk, OnOk, codes};
ghost use Rattle.event_text.specs.Wrong.{wrong_of};
ghost use Rattle.fault_text.specs.Faults.{bad_text, event_form, known_fault, near_names, near_odd, table_fault};
ghost use Rattle.fault_text.specs.Faults.{unbound_text, wanted_of, wrong_text};
ghost use Rattle.fault_text.specs.Spots.{from_line};
ghost use Rattle.text_parts.specs.Left.{line_of};
ghost use Rattle.text_parts.specs.Lines.{lines};

mod nearest;
mod spots;

use crate::nearest::put_nearest;
use crate::spots::{odd_at, put_place, put_wrong_line, shown};
use base_text::put_number;
use event_text::wrong_word;
pub use spots::{RowPlace, unbound_place};
use std::alloc::{AllocError, Global};
use tab_law::LawBook;
use tab_text::{TextCode, TextFault};
use text_parts::TextLine;

/// What was wanted where a table's text has a fault.
#[tactic(auto, unfolding(crate::specs::Faults::wanted_of))]
pub fn wanted(code: TextCode) -> &'static [u8]
    ensures { result.now ≡ wanted_of code }
{
    match code {
        TextCode::NoHeader => {
            b"a header: two blanks, then the words State, Event, Action and Next"
        }
        TextCode::BadByte => {
            b"printable ASCII, and in a row's line a blank or + in byte 0 and a blank in byte 1"
        }
        TextCode::EmptyCell => {
            b"a row with an Event, an Action (- for none) and a Next, the first one with a State too"
        }
        TextCode::NoRowToContinue => b"a row before a line that continues one",
        TextCode::BadName => {
            b"names (a letter, then letters, digits, -, / and _, at most 40 bytes); \
                an Event as `Kind` or `Kind when guard and guard`; commas between actions"
        }
        TextCode::TooManyRows => b"at most 4096 rows",
        TextCode::TooManyNames => b"at most 64 states, 128 kinds, 64 guards and 64 actions",
        TextCode::TooManyInRow => b"at most 4 guards and 8 actions in a row",
        TextCode::TooLong => b"at most 1048576 bytes",
    }
}

/// What a line of events is.
#[tactic(auto, unfolding(crate::specs::Faults::event_form))]
pub fn event_form() -> &'static [u8]
    ensures { result.now ≡ event_form }
{
    b"KIND N=V ..: a kind that is registered, then facts, each once, N at most 63 and V below 2^64"
}

/// Puts what was wanted, on a line of its own.
fn put_wanted(out: &mut Vec<u8>, what: &[u8]) -> Result<(), AllocError>
    ensures { OnOk result (out.new.items ≡ out.old.items ++ codes "  wanted: " ++ what.now ++ codes "\n") }
{
    out.extend_from_slice(b"  wanted: ")?;
    out.extend_from_slice(what)?;
    out.extend_from_slice(b"\n")
}

/// Puts the kind, the guard and the action that are near a name, where they are.
fn put_near_names(
    alloc: Global,
    out: &mut Vec<u8>,
    book: &LawBook,
    name: &[u8],
) -> Result<(), AllocError>
    ensures { OnOk result (out.new.items ≡ out.old.items ++ near_names book.now name.now) }
{
    put_nearest(alloc, out, name, book.kinds())?;
    put_nearest(alloc, out, name, book.guards())?;
    put_nearest(alloc, out, name, book.acts())
}

/// Puts the first fault of a table's text, what was wanted there, and what stands there.
fn put_fault(out: &mut Vec<u8>, text: &[u8], fault: &TextFault) -> Result<(), AllocError>
    ensures { OnOk result (out.new.items ≡ out.old.items ++ table_fault text.now fault.now) }
{
    put_number(out, b"line ", fault.line as u64)?;
    put_number(out, b" fault ", u64::from(fault.code.number()))?;
    out.extend_from_slice(b"\n")?;
    put_wanted(out, wanted(fault.code))?;
    put_wrong_line(out, text, fault)
}

/// `line N fault C`: the first fault of a table's text, what was wanted there, and what stands there.
pub fn table_fault(alloc: Global, text: &[u8], fault: &TextFault) -> Result<Vec<u8>, AllocError>
    ensures { IfOk result (λ told. told.items ≡ table_fault text.now fault.now) }
{
    let mut told = Vec::new(alloc);
    put_fault(&mut told, text, fault)?;
    Ok(told)
}

/// Puts what is near the first word of a row that is no name, where the row isn't made of names.
fn put_near_odd(
    alloc: Global,
    out: &mut Vec<u8>,
    book: &LawBook,
    text: &[u8],
    fault: &TextFault,
) -> Result<(), AllocError>
    ensures { OnOk result (out.new.items
        ≡ out.old.items ++ near_odd book.now fault.now.code (from_line fault.now.line (lines text.now))) }
{
    match odd_at(text, fault) {
        None => Ok(()),
        Some(word) => put_near_names(alloc, out, book, word),
    }
}

/// The same as [`table_fault`], and the registered names that are near a word that is no name.
pub fn known_fault(
    alloc: Global,
    book: &LawBook,
    text: &[u8],
    fault: &TextFault,
) -> Result<Vec<u8>, AllocError>
    ensures { IfOk result (λ told. told.items ≡ known_fault book.now text.now fault.now) }
{
    let mut told = Vec::new(alloc);
    put_fault(&mut told, text, fault)?;
    put_near_odd(alloc, &mut told, book, text, fault)?;
    Ok(told)
}

/// `unbound NAME`: the first name of a table that isn't registered, the row where it stands, and what is near it.
pub fn unbound_text(
    alloc: Global,
    book: &LawBook,
    place: Option<RowPlace>,
    name: &[u8],
) -> Result<Vec<u8>, AllocError>
    ensures { IfOk result (λ text. text.items ≡ unbound_text book.now place name.now) }
{
    let mut text = Vec::new(alloc);
    text.extend_from_slice(b"unbound ")?;
    text.extend_from_slice(name)?;
    text.extend_from_slice(b"\n")?;
    put_place(&mut text, place)?;
    put_wanted(
        &mut text,
        b"a kind, a guard or an action that is registered",
    )?;
    put_near_names(alloc, &mut text, book, name)?;
    Ok(text)
}

/// Puts which word of a line is wrong, and the kind that is near it.
fn put_wrong(
    alloc: Global,
    out: &mut Vec<u8>,
    book: &LawBook,
    line: &[u8],
) -> Result<(), AllocError>
    ensures { OnOk result (out.new.items ≡ out.old.items ++ wrong_text book.now (wrong_of book.now line.now)) }
{
    let Some(wrong) = wrong_word(book, line) else {
        return out.extend_from_slice(b"  wrong: a fact stands twice\n");
    };
    out.extend_from_slice(b"  wrong: ")?;
    out.extend_from_slice(shown(wrong.octets))?;
    out.extend_from_slice(b"\n")?;
    if wrong.is_kind {
        put_nearest(alloc, out, wrong.octets, book.kinds())
    } else {
        Ok(())
    }
}

/// `bad line N`: the first line of events that is none, what a line is, and the word of it that is wrong,
/// with the kind that is near it.
pub fn bad_line(alloc: Global, book: &LawBook, line: &TextLine<'_>) -> Result<Vec<u8>, AllocError>
    ensures { IfOk result (λ text. text.items ≡ bad_text book.now (line_of line.now)) }
{
    let mut text = Vec::new(alloc);
    put_number(&mut text, b"bad line ", line.number as u64)?;
    text.extend_from_slice(b"\n")?;
    put_wanted(&mut text, event_form())?;
    put_wrong(alloc, &mut text, book, line.octets)?;
    Ok(text)
}
