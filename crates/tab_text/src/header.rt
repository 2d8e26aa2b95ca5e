//! The header of a table: where its columns begin.
ghost use Rattle.std.specs.Prelude.{None, Some};
ghost use Rattle.tab_text.specs.Cells.{IsAfter, IsHeader};
ghost use Rattle.text_parts.specs.Pieces.{words_left, after_word};

use text_parts::Words;

/// The bytes at which columns begin; the State column begins at byte 2.
#[derive(Clone, Copy)]
pub(crate) struct Columns {
    pub(crate) event: usize,
    pub(crate) action: usize,
    pub(crate) next: usize,
}

/// The byte at which the next word begins, where it is this one.
fn start_of(words: &mut Words, word: &[u8]) -> Option<usize>
    ensures { IsAfter (after_word word.now (words_left words.old)) (words_left words.new) result }
{
    let found = words.next()?;
    if found.octets == word {
        Some(found.at)
    } else {
        None
    }
}

/// The columns' starts, where the line is a header.
pub(crate) fn header_of(line: &[u8]) -> Option<Columns>
    ensures { IsHeader line.now result }
{
    let mut words = Words::new(line);
    let state = start_of(&mut words, b"State")?;
    let event = start_of(&mut words, b"Event")?;
    let action = start_of(&mut words, b"Action")?;
    let next = start_of(&mut words, b"Next")?;
    if state != 2 {
        return None;
    }
    match words.next() {
        None => Some(Columns {
            event,
            action,
            next,
        }),
        Some(_) => None,
    }
}
