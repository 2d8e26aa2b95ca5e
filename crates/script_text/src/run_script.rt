//! All lines of a script that is run.
ghost use Rattle.std.specs.Prelude.{◌≡◌, None, true, is_some, IfErr, IfOk, IsErrOf, OnErr, OnOk};
ghost use Rattle.event_text.specs.Events.{IsBadText};
ghost use Rattle.script_text.specs.RunLines.{first_bad_run, is_settle, run_line_of, run_script_of};
ghost use Rattle.text_parts.specs.Words.{words};

use crate::lines::read_line;
use crate::run_line::RunLine;
use event_text::{LinesError, is_skipped};
use std::alloc::{AllocError, Global};
use tab_law::LawBook;
use text_parts::{Pieces, Words};

/// Whether a line is the word `settle` alone.
fn is_settle(line: &[u8]) -> bool
    ensures { result ≡ is_settle (words line.now) }
{
    let mut words = Words::new(line);
    let Some(verb) = words.next() else {
        return false;
    };
    match words.next() {
        None => verb.octets == b"settle".as_slice(),
        Some(_) => false,
    }
}

/// What a line asks for. None where it has another form.
#[tactic(auto, unfolding(crate::specs::RunLines::run_line_of))]
fn read_run_line(alloc: Global, book: &LawBook, line: &[u8]) -> Result<Option<RunLine>, AllocError>
    ensures asked { IfOk result (λ asked. asked ≡ run_line_of book.now line.now) }
    ensures memory { OnErr result (is_some (run_line_of book.now line.now) ≡ true) }
{
    if is_settle(line) {
        return Ok(Some(RunLine::Settle));
    }
    match read_line(alloc, book, line)? {
        Some(asked) => Ok(Some(RunLine::Asked(asked))),
        None => Ok(None),
    }
}

/// What the lines of a script that is run ask for, in order: as `read_script`, but that a line may be `settle`.
pub fn read_run_script(
    alloc: Global,
    book: &LawBook,
    text: &[u8],
) -> Result<Vec<RunLine>, LinesError>
    ensures asked { IfOk result (λ asked. asked.items ≡ run_script_of book.now text.now) }
    ensures sound { OnOk result (first_bad_run book.now text.now ≡ None) }
    ensures bad { IfErr result (IsBadText (first_bad_run book.now text.now)) }

    // A bad line is told whatever the memory.
    ensures memory { IsErrOf result LinesError.NoMemory → first_bad_run book.now text.now ≡ None }
{
    let mut asked = Vec::new(alloc);
    let mut lines = Pieces::new(text, b'\n');
    let mut place = 0;
    // Where memory ran out the other lines are only looked at.
    let mut short = false;
    while let Some(line) = lines.next() {
        place += 1;
        if is_skipped(line) {
            continue;
        }
        match read_run_line(alloc, book, line) {
            Ok(Some(one)) => short |= asked.push(one).is_err(),
            Ok(None) => return Err(LinesError::BadLine(place)),
            Err(AllocError) => short = true,
        }
    }
    if short {
        return Err(LinesError::NoMemory);
    }
    Ok(asked)
}
