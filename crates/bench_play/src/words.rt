//! Octets of messages by words.

use hex::FromHexError;
use std::alloc::{AllocError, Global};

/// How deep words stand for words.
const MAX_DEPTH: u8 = 4;

/// What a word stands for by a list of words, itself where it is none of them.
/// A line of the list is a word, a blank, and what it stands for.
fn meaning_of<'a>(list: &'a str, word: &'a str) -> &'a str {
    for line in list.split('\n') {
        if let Some((name, meaning)) = line.split_once(' ')
            && name == word
        {
            return meaning;
        }
    }
    word
}

/// Puts the octets of digits. Whether they are digits.
fn put_digits(alloc: Global, digits: &str, octets: &mut Vec<u8>) -> Result<bool, AllocError> {
    match hex::decode(alloc, digits.as_bytes()) {
        Ok(more) => {
            octets.extend_from_slice(more.as_slice())?;
            Ok(true)
        }
        Err(FromHexError::OutOfMemory) => Err(AllocError),
        Err(_) => Ok(false),
    }
}

/// Puts the octets of words that stand for digits or for words, as deep as that. Whether all are such.
fn put_words(
    alloc: Global,
    list: &str,
    words: &str,
    depth: u8,
    octets: &mut Vec<u8>,
) -> Result<bool, AllocError> {
    let mut all = true;
    for word in words.split(' ') {
        let meaning = meaning_of(list, word);
        let is_put = if depth == 0 || meaning == word {
            put_digits(alloc, meaning, octets)?
        } else {
            put_words(alloc, list, meaning, depth - 1, octets)?
        };
        all = all && is_put;
    }
    Ok(all)
}

/// The octets of words; none where one of them is neither in the list nor hexadecimal digits.
pub fn joined(alloc: Global, list: &str, words: &str) -> Result<Vec<u8>, AllocError> {
    let mut octets = Vec::new(alloc);
    if words.is_empty() || put_words(alloc, list, words, MAX_DEPTH, &mut octets)? {
        Ok(octets)
    } else {
        Ok(Vec::new(alloc))
    }
}
