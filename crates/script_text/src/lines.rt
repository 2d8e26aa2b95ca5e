//! What a line of a script asks for.
ghost use Rattle.std.specs.Prelude.{◌≡◌, true, is_some, IfOk, OnErr};
ghost use Rattle.script_text.specs.Scripts.{asked_of, came_from, came_with, fired_from, joined_from};
ghost use Rattle.script_text.specs.Scripts.{kind_of, step_from, told_from};
ghost use Rattle.text_parts.specs.Pieces.{words_left};

use crate::asked::{NO_KIND, ScriptStep};
use crate::keys::read_key;
use crate::words::{only_short, piece_of, short_of, source_from};
use base_list::Octets;
use base_text::number_of;
use bench_item::Step;
use event_text::facts_of;
use std::alloc::{AllocError, Global};
use tab_law::LawBook;
use tab_step::Event;
use text_parts::Words;

/// A connection that is accepted: no word is left.
fn joined_from(words: &mut Words<'_>) -> Option<Step>
    ensures { result ≡ joined_from (words_left words.old) }
{
    match words.next() {
        None => Some(Step::Joined),
        Some(_) => None,
    }
}

/// Octets that come on a line, where both are there.
fn came_with(line: Option<u32>, piece: Option<Octets>) -> Option<Step>
    ensures { result ≡ came_with line piece }
{
    match (line, piece) {
        (Some(line), Some(piece)) => Some(Step::Came { line, piece }),
        _ => None,
    }
}

/// Octets that come on a line.
fn came_from(alloc: Global, words: &mut Words<'_>) -> Result<Option<Step>, AllocError>
    ensures step { IfOk result (λ step. step ≡ came_from (words_left words.old)) }
    ensures memory { OnErr result (is_some (came_from (words_left words.old)) ≡ true) }
{
    let Some(line) = words.next() else {
        return Ok(None);
    };
    let Some(piece) = words.next() else {
        let nothing = Octets::new(Vec::new(alloc));
        return Ok(came_with(short_of(line.octets), Some(nothing)));
    };
    match words.next() {
        None => match short_of(line.octets) {
            Some(line) => Ok(came_with(Some(line), piece_of(alloc, piece.octets)?)),
            None => Ok(None),
        },
        Some(_) => Ok(None),
    }
}

/// The place of a kind's name in the book of laws.
fn kind_of(book: &LawBook, name: &[u8]) -> u8
    ensures { result ≡ kind_of book.now name.now }
{
    book.known();
    match book.kinds().find(name) {
        Some(kind) => kind as u8,
        None => NO_KIND,
    }
}

/// What a desk tells.
#[tactic(auto, using(crate::proofs::LineLemmas::lines))]
fn told_from(
    alloc: Global,
    book: &LawBook,
    words: &mut Words<'_>,
) -> Result<Option<Step>, AllocError>
    ensures step { IfOk result (λ step. step ≡ told_from book.now (words_left words.old)) }
    ensures memory { OnErr result (is_some (told_from book.now (words_left words.old)) ≡ true) }
{
    let (Some(desk), Some(key), Some(kind)) = (words.next(), words.next(), words.next()) else {
        return Ok(None);
    };
    let kind = kind_of(book, kind.octets);
    let Some(desk) = short_of(desk.octets) else {
        return Ok(None);
    };
    let Some(facts) = facts_of(words) else {
        return Ok(None);
    };
    match read_key(alloc, key.octets)? {
        Some(key) => {
            let event = Event { kind, facts };
            Ok(Some(Step::Told { desk, key, event }))
        }
        None => Ok(None),
    }
}

/// A timer that fires.
#[tactic(auto, using(crate::proofs::LineLemmas::lines))]
fn fired_from(alloc: Global, words: &mut Words<'_>) -> Result<Option<ScriptStep>, AllocError>
    ensures asked { IfOk result (λ asked. asked ≡ fired_from (words_left words.old)) }
    ensures memory { OnErr result (is_some (fired_from (words_left words.old)) ≡ true) }
{
    let (Some(key), Some(generation), None) = (words.next(), words.next(), words.next()) else {
        return Ok(None);
    };
    let Some(generation) = number_of(generation.octets) else {
        return Ok(None);
    };
    match read_key(alloc, key.octets)? {
        Some(key) => Ok(Some(ScriptStep::Fired { key, generation })),
        None => Ok(None),
    }
}

/// A step by its verb, and the words behind it.
#[tactic(auto, unfolding(crate::specs::Scripts::step_from))]
fn step_from(
    alloc: Global,
    book: &LawBook,
    verb: &[u8],
    words: &mut Words<'_>,
) -> Result<Option<Step>, AllocError>
    ensures step { IfOk result (λ step. step ≡ step_from book.now verb.now (words_left words.old)) }
    ensures memory { OnErr result (is_some (step_from book.now verb.now (words_left words.old)) ≡ true) }
{
    if verb == b"join".as_slice() {
        Ok(joined_from(words))
    } else if verb == b"dialled".as_slice() {
        Ok(only_short(words).map(|line| Step::Dialled(line)))
    } else if verb == b"came".as_slice() {
        came_from(alloc, words)
    } else if verb == b"lost".as_slice() {
        Ok(only_short(words).map(|line| Step::Lost(line)))
    } else if verb == b"told".as_slice() {
        told_from(alloc, book, words)
    } else if verb == b"lift".as_slice() {
        Ok(source_from(words).map(|source| Step::Lift(source)))
    } else if verb == b"drop".as_slice() {
        Ok(source_from(words).map(|source| Step::Drop(source)))
    } else if verb == b"work".as_slice() {
        Ok(only_short(words).map(|shard| Step::Work(shard)))
    } else {
        Ok(None)
    }
}

/// What a line asks for. None where it has another form.
#[tactic(auto, unfolding(crate::specs::Scripts::asked_of))]
pub fn read_line(
    alloc: Global,
    book: &LawBook,
    line: &[u8],
) -> Result<Option<ScriptStep>, AllocError>
    ensures asked { IfOk result (λ asked. asked ≡ asked_of book.now line.now) }

    // Memory can be wanting only for what a line asks for.
    ensures memory { OnErr result (is_some (asked_of book.now line.now) ≡ true) }
{
    let mut words = Words::new(line);
    let Some(verb) = words.next() else {
        return Ok(None);
    };
    if verb.octets == b"fired".as_slice() {
        return fired_from(alloc, &mut words);
    }
    match step_from(alloc, book, verb.octets, &mut words)? {
        Some(step) => Ok(Some(ScriptStep::Step(step))),
        None => Ok(None),
    }
}
