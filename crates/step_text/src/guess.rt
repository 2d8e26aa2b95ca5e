//! The one step that a line can be.

ghost use Rattle.std.specs.Prelude.{◌≡◌, OnSome, option_map};
ghost use Rattle.base_list.specs.Named.{entry_of, place_of};
ghost use Rattle.text_parts.specs.Pieces.{pieces_left};
ghost use Rattle.step_text.specs.Guess.{came_of, fired_of, guess_of, kind_of, machine_of, piece_of};
ghost use Rattle.step_text.specs.Guess.{rest_of, told_of, unshown};
ghost use Rattle.step_text.specs.Names.{names_of};
ghost use Rattle.step_text.specs.Shown.{are_pairs, octets_in, step_shown};

use crate::command::Command;
use crate::machines::Machines;
use crate::shown::ShownStep;
use crate::words::{facts_in, next_key, next_number, shows, small, source_of};
use base_list::Named;
use base_text::digit_value;
use tab_law::LawBook;
use tab_step::Event;
use text_parts::Pieces;

/// Whether a word is pairs of hexadecimal digits.
fn are_pairs(word: &[u8]) -> bool
    ensures { result ≡ are_pairs word.now }
{
    let mut left = word;
    'pairs: while let [high, low, behind @ ..] = left {
        if digit_value(*high).is_none() || digit_value(*low).is_none() {
            return false;
        }
        left = behind;
    }
    left.is_empty()
}

/// The next word, where it is pairs of digits; no digits where there is no word.
fn piece_of<'a>(words: &mut Pieces<'a>) -> Option<&'a [u8]>
    ensures { option_map (λ digits. octets_in digits.now) result ≡ piece_of (pieces_left words.old) }
{
    let Some(word) = words.next() else {
        return Some(b"");
    };
    if are_pairs(word) { Some(word) } else { None }
}

/// What came on a connection.
fn came_of<'a>(words: &mut Pieces<'a>) -> Option<ShownStep<'a>>
    ensures { option_map step_shown result ≡ came_of (pieces_left words.old) }
{
    let line = small(words)?;
    let piece = piece_of(words)?;
    Some(ShownStep::Came { line, piece })
}

/// The place of the name that a word shows.
fn place_of(names: &[Named<()>], word: &[u8]) -> Option<usize>
    ensures { result ≡ place_of (unshown word.now) names.now }
{
    names
        .iter()
        .position(|entry| shows(word, entry.name.as_slice()))
}

/// The place of the kind that the next word names.
pub fn next_kind(laws: &LawBook, words: &mut Pieces<'_>) -> Option<u8>
    ensures value { result ≡ kind_of laws.now.kinds (pieces_left words.old) }
    ensures rest { OnSome result (pieces_left words.new ≡ rest_of (pieces_left words.old)) }
{
    laws.known();
    let word = words.next()?;
    let kind = place_of(laws.kinds().as_slice(), word)?;
    Some(kind as u8)
}

/// What a desk tells.
fn told_of<'a>(laws: &LawBook, words: &mut Pieces<'a>) -> Option<ShownStep<'a>>
    ensures { option_map step_shown result ≡ told_of laws.now.kinds (pieces_left words.old) }
{
    let desk = small(words)?;
    let key = next_key(words)?;
    let kind = next_kind(laws, words)?;
    let facts = facts_in(words);
    let event = Event { kind, facts };
    Some(ShownStep::Told { desk, key, event })
}

/// The number of the machine whose key a word shows.
fn number_of(machines: &Machines, word: &[u8]) -> Option<u64>
    ensures { result ≡ option_map (λ entry. entry.value) (entry_of (unshown word.now) machines.now) }
{
    for entry in machines.numbers.as_slice() {
        if shows(word, entry.name.as_slice()) {
            return Some(entry.value);
        }
    }
    None
}

/// The number of the machine that the next word names.
fn machine_of(machines: &Machines, words: &mut Pieces<'_>) -> Option<u64>
    ensures value { result ≡ machine_of machines.now (pieces_left words.old) }
    ensures rest { OnSome result (pieces_left words.new ≡ rest_of (pieces_left words.old)) }
{
    number_of(machines, words.next()?)
}

/// Which timer fires.
fn fired_of<'a>(machines: &Machines, words: &mut Pieces<'a>) -> Option<ShownStep<'a>>
    ensures { option_map step_shown result ≡ fired_of machines.now (pieces_left words.old) }
{
    let machine = machine_of(machines, words)?;
    let generation = next_number(words)?;
    Some(ShownStep::Fired {
        machine,
        generation,
    })
}

/// The step of a command that its words can only be.
pub(crate) fn guess_of<'a>(
    laws: &LawBook,
    machines: &Machines,
    command: Command,
    words: &mut Pieces<'a>,
) -> Option<ShownStep<'a>>
    ensures { option_map step_shown result ≡ guess_of (names_of laws.now machines.now) command (pieces_left words.old) }
{
    match command {
        Command::Join => Some(ShownStep::Joined),
        Command::Dialled => Some(ShownStep::Dialled(small(words)?)),
        Command::Came => came_of(words),
        Command::Lost => Some(ShownStep::Lost(small(words)?)),
        Command::Told => told_of(laws, words),
        Command::Fired => fired_of(machines, words),
        Command::Lift => Some(ShownStep::Lift(source_of(words)?)),
        Command::Drop => Some(ShownStep::Drop(source_of(words)?)),
        Command::Work => Some(ShownStep::Work(small(words)?)),
    }
}
