//! Numbers and names from words.

ghost use Rattle.std.specs.Prelude.{◌≡◌, ◌<◌, ◌∷◌, [], None, OnSome, IfOk, IfSome, IfNone, codes, length};
ghost use Rattle.std.specs.Prelude.{option_map, Some, if◌then◌else◌};
ghost use Rattle.std.specs.Str.{bytes_eq};
ghost use Rattle.bench_item.specs.declared.source.Source.TheVariants as source;
ghost use Rattle.text_parts.specs.Pieces.{pieces_left};
ghost use Rattle.step_text.specs.Guess.{facts_in, first_key, key_of, large, nibble, rest_of, role_of};
ghost use Rattle.step_text.specs.Guess.{small, source_of, unshown};
ghost use Rattle.step_text.specs.Shown.{key_shown};

use crate::shown::ShownKey;
use base_text::number_of;
use bench_item::{Role, Source};
use event_text::fact_of;
use std::alloc::{AllocError, Global};
use tab_law::PLACES;
use text_parts::Pieces;

/// The number of the next word.
pub fn next_number(words: &mut Pieces<'_>) -> Option<u64>
    ensures value { result ≡ large (pieces_left words.old) }
    ensures rest { OnSome result (pieces_left words.new ≡ rest_of (pieces_left words.old)) }
{
    number_of(words.next()?)
}

/// The number of the next word, where it is below 2^32.
pub(crate) fn small(words: &mut Pieces<'_>) -> Option<u32>
    ensures value { result ≡ small (pieces_left words.old) }
    ensures rest { OnSome result (pieces_left words.new ≡ rest_of (pieces_left words.old)) }
{
    let number = next_number(words)?;
    if number <= u64::from(u32::MAX) {
        Some(number as u32)
    } else {
        None
    }
}

/// The value of a hexadecimal digit, 0 for another octet.
pub(crate) fn nibble(c: u8) -> u8
    ensures value { result ≡ nibble c }
    ensures fits { result < 16 }
{
    match c {
        b'0'..=b'9' => c - b'0',
        b'a'..=b'f' => c - b'a' + 10,
        b'A'..=b'F' => c - b'A' + 10,
        _ => 0,
    }
}

/// The first octet that a word shows, and what stands behind it.
#[derive(Clone, Copy)]
pub(crate) struct Taken<'a> {
    pub(crate) octet: u8,
    pub(crate) behind: &'a [u8],
}

/// The first octet that a word shows; none where the word is empty.
pub(crate) fn first_octet(word: &[u8]) -> Option<Taken<'_>>
    ensures some { IfSome result (λ taken. unshown word.now ≡ taken.octet ∷ unshown taken.behind.now) }
    ensures less { IfSome result (λ taken. length taken.behind.now < length word.now) }
    ensures none { IfNone result (unshown word.now ≡ []) }
{
    match word {
        [b'%', high, low, behind @ ..] => {
            let octet = nibble(*high) * 16 + nibble(*low);
            Some(Taken { octet, behind })
        }
        [first, behind @ ..] => {
            let octet = *first;
            Some(Taken { octet, behind })
        }
        [] => None,
    }
}

/// The name that a word shows.
pub(crate) fn unshown(alloc: Global, word: &[u8]) -> Result<Vec<u8>, AllocError>
    ensures { IfOk result (λ name. name.items ≡ unshown word.now) }
{
    let mut name = Vec::new(alloc);
    let mut left = word;
    while let Some(taken) = first_octet(left) {
        name.push(taken.octet)?;
        left = taken.behind;
    }
    Ok(name)
}

/// Whether a word shows that name. Takes no memory.
pub(crate) fn shows(word: &[u8], name: &[u8]) -> bool
    ensures { result ≡ bytes_eq name.now (unshown word.now) }
{
    let mut left = word;
    for c in name {
        let Some(taken) = first_octet(left) else {
            return false;
        };
        if *c != taken.octet {
            return false;
        }
        left = taken.behind;
    }
    left.is_empty()
}

/// The role of a key's first octet.
fn role_of(c: u8) -> Option<Role>
    ensures { result ≡ role_of c }
{
    Some(match c {
        b'p' => Role::Peer,
        b'c' => Role::Client,
        b's' => Role::Server,
        _ => return None,
    })
}

/// The key of a name with its prefix, as a word shows it.
fn key_of(word: &[u8]) -> Option<ShownKey<'_>>
    ensures { option_map key_shown result ≡ key_of (unshown word.now) }
{
    let mark = first_octet(word)?;
    let colon = first_octet(mark.behind)?;
    let role = role_of(mark.octet)?;
    let name = colon.behind;
    Some(ShownKey { role, name })
}

/// The key that the next word shows.
pub fn next_key<'a>(words: &mut Pieces<'a>) -> Option<ShownKey<'a>>
    ensures value { option_map key_shown result ≡ first_key (pieces_left words.old) }
    ensures rest { OnSome result (pieces_left words.new ≡ rest_of (pieces_left words.old)) }
{
    key_of(words.next()?)
}

/// The facts of the words that are left.
pub(crate) fn facts_in(words: &mut Pieces<'_>) -> [u64; PLACES]
    ensures { result ≡ facts_in (pieces_left words.old) }
{
    let mut facts = [0; PLACES];
    while let Some(word) = words.next() {
        if let Some((number, value)) = fact_of(word) {
            facts[number] = value;
        }
    }
    facts
}

/// The source of that name and number.
fn numbered(word: &[u8], number: u32) -> Option<Source>
    ensures { result ≡ (if bytes_eq word.now (codes "line") then Some (source.Line number)
        else if bytes_eq word.now (codes "shard") then Some (source.Shard number)
        else if bytes_eq word.now (codes "desk") then Some (source.Desk number) else None) }
{
    if word == b"line".as_slice() {
        Some(Source::Line(number))
    } else if word == b"shard".as_slice() {
        Some(Source::Shard(number))
    } else if word == b"desk".as_slice() {
        Some(Source::Desk(number))
    } else {
        None
    }
}

/// Who puts items out.
pub(crate) fn source_of(words: &mut Pieces<'_>) -> Option<Source>
    ensures { result ≡ source_of (pieces_left words.old) }
{
    let word = words.next()?;
    if word == b"clock".as_slice() {
        return Some(Source::Clock);
    }
    numbered(word, small(words)?)
}
