//! The parts of a script's lines: numbers, octets, sources.
ghost use Rattle.std.specs.Prelude.{◌≡◌, true, is_some, IfOk, OnErr};
ghost use Rattle.script_text.specs.Scripts.{is_pairs, only_short, piece_of, short_of, source_from, source_with};
ghost use Rattle.text_parts.specs.Pieces.{words_left};

use crate::keys::octet_of;
use base_list::Octets;
use base_text::number_of;
use bench_item::Source;
use hex::FromHexError;
use std::alloc::{AllocError, Global};
use text_parts::Words;

/// A number below 2^32.
#[tactic(auto, unfolding(crate::specs::Scripts::short_of))]
pub(crate) fn short_of(word: &[u8]) -> Option<u32>
    ensures { result ≡ short_of word.now }
{
    let number = number_of(word)?;
    if number <= u64::from(u32::MAX) {
        Some(number as u32)
    } else {
        None
    }
}

/// The one number that is left.
pub(crate) fn only_short(words: &mut Words<'_>) -> Option<u32>
    ensures { result ≡ only_short (words_left words.old) }
{
    let word = words.next()?;
    match words.next() {
        None => short_of(word.octets),
        Some(_) => None,
    }
}

/// Whether a word is pairs of hexadecimal digits. Takes no memory.
fn is_pairs(word: &[u8]) -> bool
    ensures { result ≡ is_pairs word.now }
{
    let mut left = word;
    'pairs: while let [high, low, behind @ ..] = left {
        if octet_of(*high, *low).is_none() {
            return false;
        }
        left = behind;
    }
    left.is_empty()
}

/// The octets of hexadecimal digits. None where they are no pairs of digits.
pub(crate) fn piece_of(alloc: Global, word: &[u8]) -> Result<Option<Octets>, AllocError>
    ensures piece { IfOk result (λ piece. piece ≡ piece_of word.now) }
    ensures memory { OnErr result (is_some (piece_of word.now) ≡ true) }
{
    if !is_pairs(word) {
        return Ok(None);
    }
    match hex::decode(alloc, word) {
        Ok(octets) => Ok(Some(Octets::new(octets))),
        Err(FromHexError::OutOfMemory) => Err(AllocError),
        Err(_) => Ok(None),
    }
}

/// A source by its word and its number.
fn source_with(word: &[u8], number: Option<u32>) -> Option<Source>
    ensures { result ≡ source_with word.now number }
{
    let number = number?;
    if word == b"line".as_slice() {
        Some(Source::Line(number))
    } else if word == b"shard".as_slice() {
        Some(Source::Shard(number))
    } else if word == b"desk".as_slice() {
        Some(Source::Desk(number))
    } else {
        None
    }
}

/// The source that is left.
pub(crate) fn source_from(words: &mut Words<'_>) -> Option<Source>
    ensures { result ≡ source_from (words_left words.old) }
{
    let word = words.next()?;
    let Some(number) = words.next() else {
        return if word.octets == b"clock".as_slice() {
            Some(Source::Clock)
        } else {
            None
        };
    };
    match words.next() {
        None => source_with(word.octets, short_of(number.octets)),
        Some(_) => None,
    }
}
