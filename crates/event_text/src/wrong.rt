//! Which word of a line that is no event is wrong.
ghost use Rattle.std.specs.Prelude.{◌≡◌};
ghost use Rattle.std.specs.Option.{option_map};
ghost use Rattle.event_text.specs.Wrong.{no_fact, wrong_of};
ghost use Rattle.text_parts.specs.Pieces.{words_left};

use crate::events::fact_of;
use tab_law::LawBook;
use text_parts::Words;

/// A word of a line that is no event.
#[derive(Clone, Copy)]
pub struct WrongWord<'a> {
    /// It stands where a kind is wanted, and not a fact.
    pub is_kind: bool,
    pub octets: &'a [u8],
}

/// The first word that is no fact.
fn no_fact<'a>(words: &mut Words<'a>) -> Option<&'a [u8]>
    ensures { option_map (λ octets. octets.now) result ≡ no_fact (words_left words.old) }
{
    while let Some(word) = words.next() {
        if fact_of(word.octets).is_none() {
            return Some(word.octets);
        }
    }
    None
}

/// Which word of a line that is no event is wrong: the first, where it is no kind of the book, or else the first behind
/// it that is no fact. None where all are facts, of which two have one number.
#[tactic(auto, unfolding(crate::specs::Wrong::wrong_of))]
pub fn wrong_word<'a>(book: &LawBook, line: &'a [u8]) -> Option<WrongWord<'a>>
    ensures { option_map (λ word. (word.is_kind, word.octets.now)) result ≡ wrong_of book.now line.now }
{
    let mut words = Words::new(line);
    let name = words.next()?;
    if book.kinds().find(name.octets).is_none() {
        return Some(WrongWord {
            is_kind: true,
            octets: name.octets,
        });
    }
    let octets = no_fact(&mut words)?;
    Some(WrongWord {
        is_kind: false,
        octets,
    })
}
