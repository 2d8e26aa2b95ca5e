//! What the words of a line are.
ghost use Rattle.std.specs.Prelude.{◌≡◌, ◌==◌, ◌∷◌, [], None, MatchOption, IfSome, IfNone, option_map};
ghost use Rattle.std.specs.List.{slice_split};
ghost use Rattle.text_parts.specs.Lines.{is_comment};
ghost use Rattle.text_parts.specs.Pieces.{words_left};
ghost use Rattle.dict_text.specs.Words.{code_of, has_names, is_named, kind_named, name_between};
ghost use Rattle.dict_text.specs.Words.{name_in, said, small_number};

use base_list::Octets;
use base_text::number_of;
use dia_dict::AvpKind;
use text_parts::{Pieces, Words, is_plain};

fn is_comment(word: &[u8]) -> bool
    ensures { result ≡ is_comment word.now }
{
    match word {
        [] => false,
        [first, ..] => *first == b'#',
    }
}

/// The next word, none where a comment begins.
pub(crate) fn next_word<'a>(words: &mut Words<'a>) -> Option<&'a [u8]>
    ensures { MatchOption result (said (words_left words.old) ≡ []) (λ word. said (words_left words.old)
        ≡ word.now ∷ said (words_left words.new)) }
{
    let word = words.next()?;
    if is_comment(word.octets) {
        return None;
    }
    Some(word.octets)
}

/// A number of 32 bits.
fn small_number(word: &[u8]) -> Option<u32>
    ensures { result ≡ small_number word.now }
{
    let number = number_of(word)?;
    if number <= u64::from(u32::MAX) {
        Some(number as u32)
    } else {
        None
    }
}

/// The code and the vendor of `CODE` or `CODE/VENDOR`.
#[tactic(auto, unfolding(crate::specs::Words::code_of))]
pub(crate) fn code_of(word: &[u8]) -> Option<(u32, Option<u32>)>
    ensures { result ≡ code_of word.now }
{
    let mut pieces = Pieces::new(word, b'/');
    let code = pieces.next()?;
    let Some(vendor) = pieces.next() else {
        return Some((small_number(code)?, None));
    };
    if pieces.next().is_some() {
        return None;
    }
    let code = small_number(code)?;
    let vendor = small_number(vendor)?;
    Some((code, Some(vendor)))
}

/// The type of this name.
pub(crate) fn kind_named(word: &[u8]) -> Option<AvpKind>
    ensures { result ≡ kind_named word.now }
{
    if word == b"Unsigned32".as_slice() {
        return Some(AvpKind::Unsigned32);
    }
    if word == b"Unsigned64".as_slice() {
        return Some(AvpKind::Unsigned64);
    }
    if word == b"Enumerated".as_slice() {
        return Some(AvpKind::Enumerated);
    }
    if word == b"UTF8String".as_slice() {
        return Some(AvpKind::Utf8String);
    }
    if word == b"DiameterIdentity".as_slice() {
        return Some(AvpKind::DiameterIdentity);
    }
    if word == b"Address".as_slice() {
        return Some(AvpKind::Address);
    }
    if word == b"Grouped".as_slice() {
        return Some(AvpKind::Grouped);
    }
    if word == b"Time".as_slice() {
        return Some(AvpKind::Time);
    }
    if word == b"OctetString".as_slice() {
        Some(AvpKind::OctetString)
    } else {
        None
    }
}

/// Whether numbers of a type may have names.
pub(crate) fn has_names(kind: AvpKind) -> bool
    ensures { result ≡ has_names kind }
{
    match kind {
        AvpKind::Unsigned32 | AvpKind::Enumerated => true,
        AvpKind::Unsigned64
        | AvpKind::Utf8String
        | AvpKind::DiameterIdentity
        | AvpKind::Address
        | AvpKind::Grouped
        | AvpKind::Time
        | AvpKind::OctetString => false,
    }
}

/// The two parts of `VALUE=NAME`.
fn two_parts(word: &[u8]) -> Option<(&[u8], &[u8])>
    ensures some { IfSome result (λ parts. slice_split (λ c. c == 61) word.now ≡ parts.0.now ∷ parts.1.now ∷ []) }
    ensures none { IfNone result (name_between (slice_split (λ c. c == 61) word.now) ≡ None) }
{
    let mut pieces = Pieces::new(word, b'=');
    let number = pieces.next()?;
    let name = pieces.next()?;
    match pieces.next() {
        None => Some((number, name)),
        Some(_) => None,
    }
}

/// The number and the name of `VALUE=NAME`.
#[tactic(auto, unfolding(crate::specs::Words::name_in))]
pub(crate) fn name_in(word: &[u8]) -> Option<(u32, &[u8])>
    ensures { option_map (λ named. (named.0, named.1.now)) result ≡ name_in word.now }
{
    let (number, name) = two_parts(word)?;
    let number = small_number(number)?;
    if !name.is_empty() && is_plain(name) {
        Some((number, name))
    } else {
        None
    }
}

/// Whether a number has a name already.
pub(crate) fn is_named(number: u32, names: &[(u32, Octets)]) -> bool
    ensures { result ≡ is_named number names.now }
{
    names.iter().any(|entry| entry.0 == number)
}
