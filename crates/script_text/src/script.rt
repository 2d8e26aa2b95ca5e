//! All lines of a script.
ghost use Rattle.std.specs.Prelude.{◌≡◌, None, IfOk, IfErr, IsErrOf, OnOk};
ghost use Rattle.event_text.specs.Events.{IsBadText};
ghost use Rattle.script_text.specs.Scripts.{first_bad, script_of};

use crate::asked::ScriptStep;
use crate::lines::read_line;
use event_text::{LinesError, is_skipped};
use std::alloc::{AllocError, Global};
use tab_law::LawBook;
use text_parts::Pieces;

/// What the lines of a script ask for, in order. Empty lines, and lines that begin with a blank, are skipped.
/// A line is bad that has another form.
pub fn read_script(
    alloc: Global,
    book: &LawBook,
    text: &[u8],
) -> Result<Vec<ScriptStep>, LinesError>
    ensures asked { IfOk result (λ asked. asked.items ≡ script_of book.now text.now) }
    ensures sound { OnOk result (first_bad book.now text.now ≡ None) }
    ensures bad { IfErr result (IsBadText (first_bad book.now text.now)) }

    // A bad line is told whatever the memory.
    ensures memory { IsErrOf result LinesError.NoMemory → first_bad book.now text.now ≡ None }
{
    let mut asked = Vec::new(alloc);
    let mut lines = Pieces::new(text, b'\n');
    let mut place = 0;
    // Where memory ran out the other lines are only looked at.
    let mut short = false;
    while let Some(line) = lines.next() {
        place += 1;
        if is_skipped(line) {
            continue;
        }
        match read_line(alloc, book, line) {
            Ok(Some(one)) => short |= asked.push(one).is_err(),
            Ok(None) => return Err(LinesError::BadLine(place)),
            Err(AllocError) => short = true,
        }
    }
    if short {
        return Err(LinesError::NoMemory);
    }
    Ok(asked)
}
