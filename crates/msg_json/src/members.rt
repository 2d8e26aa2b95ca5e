//! One member of an object: a key, and what stands behind it.

use serde::Serializer;
use std::alloc::Global;

pub(crate) fn put_number<S: Serializer>(
    out: &mut S,
    key: &str,
    number: u64,
) -> Result<(), S::Error> {
    out.key(key)?;
    out.u64(number)
}

pub(crate) fn put_word<S: Serializer>(out: &mut S, key: &str, word: &str) -> Result<(), S::Error> {
    out.key(key)?;
    out.str(word)
}

pub(crate) fn put_null<S: Serializer>(out: &mut S, key: &str) -> Result<(), S::Error> {
    out.key(key)?;
    out.unit()
}

/// Why nothing is put where memory ran out.
pub(crate) fn no_memory<S: Serializer>(out: &S) -> S::Error {
    out.custom("no memory")
}

/// Octets in hexadecimal, two digits each, in lower case.
pub(crate) fn put_digits<S: Serializer>(
    out: &mut S,
    alloc: Global,
    key: &str,
    octets: &[u8],
) -> Result<(), S::Error> {
    match hex::encode(alloc, octets) {
        Ok(digits) => put_word(out, key, digits.as_str()),
        Err(_) => Err(no_memory(out)),
    }
}

/// A text that was made here, or a name of the dictionary: it is UTF-8.
pub(crate) fn put_made<S: Serializer>(out: &mut S, key: &str, text: &[u8]) -> Result<(), S::Error> {
    match str::from_utf8(text) {
        Ok(text) => put_word(out, key, text),
        Err(_) => put_null(out, key),
    }
}

/// A text under its first key, or its octets in hexadecimal under the second where they are no UTF-8.
pub(crate) fn put_text<S: Serializer>(
    out: &mut S,
    alloc: Global,
    keys: (&str, &str),
    octets: &[u8],
) -> Result<(), S::Error> {
    match str::from_utf8(octets) {
        Ok(text) => put_word(out, keys.0, text),
        Err(_) => put_digits(out, alloc, keys.1, octets),
    }
}
