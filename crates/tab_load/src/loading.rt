//! An image loaded part by part: what it begins with, its entries, its code.

ghost use Rattle.std.specs.Prelude.{◌≡◌, ◌+◌, ◌*◌, ◌<◌, ◌≤◌, length, IfOk, IfErr};
ghost use Rattle.tab_load.specs.Faults.{width_of, code_limit};
ghost use Rattle.tab_load.specs.Code.{IsRefusal, UnlessRefused};
ghost use Rattle.tab_load.specs.Promise.{EachEnds};
ghost use Rattle.tab_load.specs.Loading.{lists, IsHead, HasBodyOf, HasFault, TakesMemory, IsLoaded};
ghost use Rattle.tab_load.specs.Loading.{IsReadFrom, IsSoundBody, entry_count, code_begin};

use crate::body::{Body, check_code, read_body};
use crate::counts::{Counts, Format, read_counts, read_format, width_of};
use crate::fault::{ImageFault, LoadError, LoadFault};
use crate::names::{ImageNames, read_image_names};
use crate::program::Program;
use std::alloc::Global;
use tab_law::LawBook;

/// What an image begins with.
#[derive(Drop)]
struct Head {
    format: Format,
    counts: Counts,
    names: ImageNames,
}

/// The format, the counts and the names of an image.
fn read_head(alloc: Global, octets: &[u8], book: &LawBook) -> Result<Head, LoadError>
    ensures ok { IfOk result (λ head. IsHead book.now octets.now head.format head.counts (lists head.names)) }
    ensures err { IfErr result (IsRefusal (HasFault book.now octets.now)) }
    ensures memory { UnlessRefused result (TakesMemory book.now octets.now) }
    ensures few { IfOk result (λ head. entry_count head.counts ≤ 65536) }
{
    let format = read_format(octets)?;
    let counts = read_counts(format, octets)?;
    let names = read_image_names(alloc, book, octets, &counts)?;
    Ok(Head {
        format,
        counts,
        names,
    })
}

/// The entries of an image and how long its code is.
fn read_rest(alloc: Global, octets: &[u8], book: &LawBook, head: &Head) -> Result<Body, LoadError>
    requires head { IsHead book.now octets.now head.now.format head.now.counts (lists head.now.names) }
    requires few { entry_count head.now.counts ≤ 65536 }
    ensures ok { IfOk result (HasBodyOf octets.now head.now) }
    ensures short { IfOk result (λ body. body.size < code_limit head.now.format) }
    ensures err { IfErr result (IsRefusal (HasFault book.now octets.now)) }
{
    let count = head.counts.states * head.counts.kinds;
    read_body(alloc, head.format, octets, head.names.actions.end, count)
}

/// Checks the code, with nothing behind it, and answers where it begins.
fn check_rest(
    alloc: Global,
    octets: &[u8],
    book: &LawBook,
    head: &Head,
    body: &Body,
) -> Result<usize, LoadError>
    requires head { IsHead book.now octets.now head.now.format head.now.counts (lists head.now.names) }
    requires few { entry_count head.now.counts ≤ 65536 }
    requires body { HasBodyOf octets.now head.now body.now }
    ensures place { IfOk result (λ begin. begin ≡ code_begin head.now.format head.now.counts (lists head.now.names)) }
    ensures sound { IfOk result (IsSoundBody octets.now head.now body.now) }
    ensures end { IfOk result (λ begin. begin + body.now.size ≡ length octets.now) }
    ensures err { IfErr result (IsRefusal (HasFault book.now octets.now)) }
{
    let format = head.format;
    let counts = &head.counts;
    let width = width_of(format);
    let table = head.names.actions.end;
    let begin = table + width * (counts.states * counts.kinds) + width;
    let end = begin + body.size;
    let whole = octets.len();
    let code = &octets[begin..end];
    let entries = body.entries.as_slice();
    check_code(alloc, format, counts, code, entries, begin, table, whole)?;
    if end < whole {
        let code = ImageFault::Trailing;
        return Err(LoadError::Refused(LoadFault { at: end, code }));
    }
    Ok(begin)
}

/// The program of an image.
fn read_program(alloc: Global, octets: &[u8], book: &LawBook) -> Result<Program, LoadError>
    ensures read { IfOk result (IsReadFrom book.now octets.now) }
    ensures loaded { IfOk result (IsLoaded book.now) }
    ensures err { IfErr result (IsRefusal (HasFault book.now octets.now)) }
    ensures memory { UnlessRefused result (TakesMemory book.now octets.now) }
{
    let head = read_head(alloc, octets, book)?;
    let body = read_rest(alloc, octets, book, &head)?;
    let begin = check_rest(alloc, octets, book, &head, &body)?;
    let mut code = Vec::new(alloc);
    code.extend_from_slice(&octets[begin..begin + body.size])?;
    let Head {
        format,
        counts,
        names,
    } = head;
    let Body { entries, size: _ } = body;
    Ok(Program {
        format,
        names,
        rows: counts.rows,
        entries,
        code,
    })
}

/// Loads an image of either format, with the book that it is to run with.
///
/// An image is refused for its first fault in octet order, at the place where the part begins that is wrong. A part
/// that the image, or an instruction that the code, ends before is cut off, and is not looked into. Where guards and
/// entries lead is looked at once nothing else is wrong with the code.
///
/// In a loaded program each event ends, whatever its guards say, within as many instructions as the code has octets.
pub fn load(alloc: Global, octets: &[u8], book: &LawBook) -> Result<Program, LoadError>
    ensures read { IfOk result (IsReadFrom book.now octets.now) }
    ensures loaded { IfOk result (IsLoaded book.now) }
    ensures ends { IfOk result EachEnds }
    ensures err { IfErr result (IsRefusal (HasFault book.now octets.now)) }
    ensures memory { UnlessRefused result (TakesMemory book.now octets.now) }
{
    read_program(alloc, octets, book)
}
