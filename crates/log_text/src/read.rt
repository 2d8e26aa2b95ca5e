//! A log from its text.
ghost use Rattle.std.specs.Prelude.{◌≡◌, IfOk, IfErr};
ghost use Rattle.log_text.specs.Books.{named};
ghost use Rattle.log_text.specs.EntryLines.{log_lines};
ghost use Rattle.log_text.specs.Reading.{IsFaultOf, front_of, whole};

use crate::book::NameBook;
use crate::end::End;
use crate::pending::Reader;
use bench_log::Log;
use event_text::LinesError;
use std::alloc::Global;
use text_parts::Pieces;

/// A text without the newline at its end.
fn front_of(text: &[u8]) -> &[u8]
    ensures { result.now ≡ front_of text.now }
{
    match text {
        [front @ .., b'\n'] => front,
        _ => text,
    }
}

/// The log whose text this is; the newline of its last line may be missing. A line is bad that no log has behind the
/// lines before it, or that would be one entry too many. What a text doesn't tell is 0 in the entries: facts,
/// registers, numbers of machines; the registers after each action are not there.
pub fn read_log(alloc: Global, names: &NameBook<'_>, text: &[u8]) -> Result<Log, LinesError>
    ensures ok { IfOk result (λ log. log_lines (named names.now) log.entries ≡ whole text.now) }
    ensures fault { IfErr result (λ fault. IsFaultOf (named names.now) text.now fault) }
{
    if text.is_empty() {
        return Ok(Log::new(alloc));
    }
    let mut reader = Reader::new(alloc);
    let mut end = End::new();
    let mut lines = Pieces::new(front_of(text), b'\n');
    let mut place = 0;
    // Where memory ran out the other lines are only looked at.
    let mut short = false;
    while let Some(line) = lines.next() {
        place += 1;
        let Some(told) = end.next(names, line) else {
            return Err(LinesError::BadLine(place));
        };
        short = reader.take(alloc, &told, short);
    }
    if short {
        return Err(LinesError::NoMemory);
    }
    Ok(reader.finish(alloc)?)
}
