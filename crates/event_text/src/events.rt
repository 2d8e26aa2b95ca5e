//! Events as text: a line each, `KIND N=V ..`, a kind by its name and then facts by number.
ghost use Rattle.std.specs.Prelude.{◌≡◌, ◌==◌, ◌<◌, ◌∷◌, [], None, IfNone, IfSome, MatchOption};
ghost use Rattle.std.specs.List.{slice_split};
ghost use Rattle.std.specs.Option.{option_map};
ghost use Rattle.event_text.specs.Events.{bad_line, event_of, events_of, fact_between, fact_of, facts_by, facts_of};
ghost use Rattle.event_text.specs.Events.{is_skipped, labelled, registers_of};
ghost use Rattle.text_parts.specs.Left.{line_of};
ghost use Rattle.text_parts.specs.Pieces.{words_left};

use base_text::number_of;
use std::alloc::{AllocError, AllocFailed};
use tab_law::{LawBook, PLACES};
use tab_step::Event;
use text_parts::{Lines, Pieces, TextLine, Words};

/// Why the lines of a text are not what they are read for.
#[derive(Clone, Copy, PartialEq, Eq)]
pub enum LinesError {
    NoMemory,
    /// The first line, from 1, that isn't of the form.
    BadLine(usize),
}

impl From<AllocError> for LinesError {
    ghost use Rattle.event_text.specs.declared.events.LinesError.TheVariants.{NoMemory};

    ghost from_gives = { λ _ e. e ≡ NoMemory };

    fn from(_e: AllocError) -> LinesError {
        LinesError::NoMemory
    }
}

impl<T: Drop> From<AllocFailed<T>> for LinesError {
    ghost use Rattle.event_text.specs.declared.events.LinesError.TheVariants.{NoMemory};

    ghost from_gives = { λ _ e. e ≡ NoMemory };

    fn from(_e: AllocFailed<T>) -> LinesError {
        LinesError::NoMemory
    }
}

/// The two parts of `N=V`.
fn two_parts(word: &[u8]) -> Option<(&[u8], &[u8])>
    ensures some { IfSome result (λ parts. slice_split (λ c. c == 61) word.now ≡ parts.0.now ∷ parts.1.now ∷ []) }
    ensures none { IfNone result (fact_between (slice_split (λ c. c == 61) word.now) ≡ None) }
{
    let mut pieces = Pieces::new(word, b'=');
    let number = pieces.next()?;
    let value = pieces.next()?;
    match pieces.next() {
        None => Some((number, value)),
        Some(_) => None,
    }
}

/// The number and the value of a fact, written `N=V` in decimal.
#[tactic(auto, unfolding(crate::specs::Events::fact_of))]
pub fn fact_of(word: &[u8]) -> Option<(usize, u64)>
    ensures fact { result ≡ fact_of word.now }
    ensures place { IfSome result (λ fact. fact.0 < PLACES) }
{
    let (number, value) = two_parts(word)?;
    let number = number_of(number)?;
    let value = number_of(value)?;
    if number < PLACES as u64 {
        Some((number as usize, value))
    } else {
        None
    }
}

/// The number and the value of a word `N=V` with a letter in front, where one is wanted.
fn labelled(letter: Option<u8>, word: &[u8]) -> Option<(usize, u64)>
    ensures fact { result ≡ labelled letter word.now }
    ensures place { IfSome result (λ fact. fact.0 < PLACES) }
{
    let Some(letter) = letter else {
        return fact_of(word);
    };
    match word {
        [first, rest @ ..] if *first == letter => fact_of(rest),
        _ => None,
    }
}

/// The facts of words, each with that letter in front where one is wanted; what isn't written is 0.
fn facts_by(letter: Option<u8>, words: &mut Words<'_>) -> Option<[u64; PLACES]>
    ensures { result ≡ facts_by letter (words_left words.old) }
{
    let mut facts = [0; PLACES];
    let mut given = [false; PLACES];
    while let Some(word) = words.next() {
        let (number, value) = labelled(letter, word.octets)?;
        if given[number] {
            return None;
        }
        facts[number] = value;
        given[number] = true;
    }
    Some(facts)
}

/// The facts of words `N=V`; what isn't written is 0.
#[tactic(auto, unfolding(crate::specs::Events::facts_of))]
pub fn facts_of(words: &mut Words<'_>) -> Option<[u64; PLACES]>
    ensures { result ≡ facts_of (words_left words.old) }
{
    facts_by(None, words)
}

/// The registers of words `rN=V`; what isn't written is 0.
#[tactic(auto, unfolding(crate::specs::Events::registers_of))]
pub fn registers_of(words: &mut Words<'_>) -> Option<[u64; PLACES]>
    ensures { result ≡ registers_of (words_left words.old) }
{
    facts_by(Some(b'r'), words)
}

/// The event of a line.
#[tactic(auto, unfolding(crate::specs::Events::event_of))]
fn event_of(book: &LawBook, line: &[u8]) -> Option<Event>
    ensures { result ≡ event_of book.now line.now }
{
    book.known();
    let mut words = Words::new(line);
    let name = words.next()?;
    let kind = book.kinds().find(name.octets)?;
    let facts = facts_of(&mut words)?;
    Some(Event {
        kind: kind as u8,
        facts,
    })
}

/// Whether a line is passed over: it is empty or begins with a blank.
pub fn is_skipped(line: &[u8]) -> bool
    ensures { result ≡ is_skipped line.now }
{
    match line {
        [] => true,
        [first, ..] => *first == b' ',
    }
}

/// The first line of a text that is no event, if there is one. Empty lines, and lines that begin with a blank, are
/// skipped. A line is no event whose kind isn't in the book,
/// or one of whose facts has a number that is too large or stands twice.
pub fn first_bad<'a>(book: &LawBook, text: &'a [u8]) -> Option<TextLine<'a>>
    ensures { option_map line_of result ≡ bad_line book.now text.now }
{
    let mut lines = Lines::new(text);
    while let Some(line) = lines.next() {
        if !is_skipped(line.octets) && event_of(book, line.octets).is_none() {
            return Some(line);
        }
    }
    None
}

/// Takes off the events of a text, one after another, without memory. Lines that are no event are passed over:
/// [`first_bad`] tells whether there is one.
#[derive(Drop)]
pub struct Events<'a> {
    lines: Lines<'a>,
}

impl<'a> Events<'a> {
    ghost use Rattle.event_text.specs.Left.{events_left};
    ghost use Rattle.tab_law.specs.Books.{Laws};

    /// All events of a text.
    pub fn new(text: &'a [u8]) -> Events<'a>
        ensures { (laws : Laws) → events_left laws result ≡ events_of laws text.now }
    {
        Events {
            lines: Lines::new(text),
        }
    }

    /// The next event, by the kinds of a book.
    pub fn next(&mut self, book: &LawBook) -> Option<Event>
        ensures { MatchOption result (events_left book.now self.old ≡ [])
            (λ event. events_left book.now self.old ≡ event ∷ events_left book.now self.new) }
    {
        while let Some(line) = self.lines.next() {
            if is_skipped(line.octets) {
                continue;
            }
            if let Some(event) = event_of(book, line.octets) {
                return Some(event);
            }
        }
        None
    }
}
