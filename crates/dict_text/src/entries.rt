//! What a line says, or the first of its words that is wrong.
ghost use Rattle.std.specs.Prelude.{◌≡◌, ◌∷◌, ◌++◌, [], Ok, false, true, MatchOption, IfOk, IfErr, OnOk};
ghost use Rattle.text_parts.specs.Pieces.{words_left};
ghost use Rattle.dict_text.specs.Entries.{entry_of, head_of, is_name, kind_next, name_next};
ghost use Rattle.dict_text.specs.Entries.{names_behind, names_of, no_names};
ghost use Rattle.dict_text.specs.Seen.{seen_entry, seen_read};
ghost use Rattle.dict_text.specs.Words.{said};
ghost use Rattle.dict_text.specs.Wrong.{IsWrong};

use crate::words::{code_of, has_names, is_named, kind_named, name_in, next_word};
use crate::wrong::{LineError, Mistake, Want, at_word};
use base_list::Octets;
use dia_dict::AvpKind;
use std::alloc::{AllocError, Global};
use text_parts::{Words, is_plain};

/// An AVP, but for the names of its numbers.
#[derive(Clone, Copy)]
pub(crate) struct Head<'a> {
    pub code: u32,
    pub vendor: Option<u32>,
    pub name: &'a str,
    pub kind: AvpKind,
}

/// An AVP, and the names of its numbers.
#[derive(Drop)]
pub(crate) struct Entry<'a> {
    pub head: Head<'a>,
    pub names: Vec<(u32, Octets)>,
}

/// A name is text of printable characters.
fn text_of(word: &[u8]) -> Option<&str>
    ensures { MatchOption result (is_name word.now ≡ false) (λ text. (text.now ≡ word.now)
        × (is_name word.now ≡ true)) }
{
    if !is_plain(word) {
        return None;
    }
    match str::from_utf8(word) {
        Ok(text) => Some(text),
        Err(_) => None,
    }
}

/// The type of an AVP behind its code and vendor and its name.
fn kind_behind<'a>(
    code: (u32, Option<u32>),
    name: &'a str,
    words: &mut Words<'a>,
) -> Result<Head<'a>, Mistake<'a>>
    ensures { kind_next code name.now (said (words_left words.old)) ≡ seen_read result (said (words_left words.new)) }
{
    let Some(word) = next_word(words) else {
        return Err(at_word(Want::Kind, b""));
    };
    match kind_named(word) {
        Some(kind) => Ok(Head {
            code: code.0,
            vendor: code.1,
            name,
            kind,
        }),
        None => Err(at_word(Want::Kind, word)),
    }
}

/// The name and the type of an AVP behind its code and vendor.
fn name_behind<'a>(code: (u32, Option<u32>), words: &mut Words<'a>) -> Result<Head<'a>, Mistake<'a>>
    ensures { name_next code (said (words_left words.old)) ≡ seen_read result (said (words_left words.new)) }
{
    let Some(word) = next_word(words) else {
        return Err(at_word(Want::Name, b""));
    };
    match text_of(word) {
        Some(name) => kind_behind(code, name, words),
        None => Err(at_word(Want::Name, word)),
    }
}

/// An AVP: its code and vendor are the first word, name and type stand behind it.
#[tactic(auto, unfolding(crate::specs::Entries::head_of))]
fn head_of<'a>(word: &'a [u8], words: &mut Words<'a>) -> Result<Head<'a>, Mistake<'a>>
    ensures { head_of word.now (said (words_left words.old)) ≡ seen_read result (said (words_left words.new)) }
{
    match code_of(word) {
        Some(code) => name_behind(code, words),
        None => Err(at_word(Want::Code, word)),
    }
}

fn push_name(names: &mut Vec<(u32, Octets)>, number: u32, name: &[u8]) -> Result<(), AllocError>
    ensures { OnOk result (names.new.items ≡ names.old.items ++ (number, name.now) ∷ []) }
{
    let name = Octets::from_slice(*names.allocator(), name)?;
    names.push((number, name))?;
    Ok(())
}

/// The names that all words are.
fn names_behind<'a>(
    alloc: Global,
    words: &mut Words<'a>,
) -> Result<Vec<(u32, Octets)>, LineError<'a>>
    ensures ok { IfOk result (λ names. names_behind [] (said (words_left words.old)) ≡ Ok names.items) }
    ensures err { IfErr result (IsWrong (names_behind [] (said (words_left words.old)))) }
{
    let mut names = Vec::new(alloc);
    while let Some(word) = next_word(words) {
        match name_in(word) {
            Some((number, name)) if !is_named(number, &names) => {
                push_name(&mut names, number, name)?
            }
            _ => return Err(LineError::Mistake(at_word(Want::Value, word))),
        }
    }
    Ok(names)
}

/// No word is left.
fn no_names<'a>(alloc: Global, words: &mut Words<'a>) -> Result<Vec<(u32, Octets)>, LineError<'a>>
    ensures ok { IfOk result (λ names. no_names (said (words_left words.old)) ≡ Ok names.items) }
    ensures err { IfErr result (IsWrong (no_names (said (words_left words.old)))) }
{
    match next_word(words) {
        None => Ok(Vec::new(alloc)),
        Some(word) => Err(LineError::Mistake(at_word(Want::Value, word))),
    }
}

fn names_of<'a>(
    alloc: Global,
    kind: AvpKind,
    words: &mut Words<'a>,
) -> Result<Vec<(u32, Octets)>, LineError<'a>>
    ensures ok { IfOk result (λ names. names_of kind (said (words_left words.old)) ≡ Ok names.items) }
    ensures err { IfErr result (IsWrong (names_of kind (said (words_left words.old)))) }
{
    if has_names(kind) {
        names_behind(alloc, words)
    } else {
        no_names(alloc, words)
    }
}

/// What a line says of which this is the first word, and these are the others.
pub(crate) fn entry_of<'a>(
    alloc: Global,
    word: &'a [u8],
    words: &mut Words<'a>,
) -> Result<Entry<'a>, LineError<'a>>
    ensures ok { IfOk result (λ entry. entry_of word.now (said (words_left words.old)) ≡ Ok (seen_entry entry)) }
    ensures err { IfErr result (IsWrong (entry_of word.now (said (words_left words.old)))) }
{
    let head = match head_of(word, words) {
        Ok(head) => head,
        Err(mistake) => return Err(LineError::Mistake(mistake)),
    };
    match names_of(alloc, head.kind, words) {
        Ok(names) => Ok(Entry { head, names }),
        Err(error) => Err(error),
    }
}
