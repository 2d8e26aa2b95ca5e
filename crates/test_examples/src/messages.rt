//! Messages by words, and what `read` prints of them.
//! A list of rows has one in each line; empty lines, and lines that begin with `#`, are none.
use crate::streams::{prints, read};
use std::alloc::{AllocError, Global};

/// Headers without version and length, by the command's name, and AVPs.
/// Words that are not listed are digits themselves.
const WORDS: &[(&str, &str)] = &[
    ("cer", "80000101000000000000000100000002"),
    ("cea", "00000101000000000000000100000002"),
    ("dwr", "80000118000000000000000100000002"),
    ("dwa", "00000118000000000000000100000002"),
    ("dpr", "8000011a000000000000000100000002"),
    ("dpa", "0000011a000000000000000100000002"),
    ("rar", "c0000102000000040000000100000002"),
    ("raa", "40000102000000040000000100000002"),
    ("ccr", "c0000110000000040000000100000002"),
    ("cca", "40000110000000040000000100000002"),
    // Answers with flag E.
    ("cca-e", "60000110000000040000000100000002"),
    ("dwa-e", "20000118000000000000000100000002"),
    // Session-Id c1;1, Origin-Host a.example, Origin-Realm, Destination-Realm and Destination-Host.
    ("session", "000001074000000c63313b31"),
    ("host", "0000010840000011612e6578616d706c65000000"),
    ("realm", "000001284000000f6578616d706c6500"),
    ("to-realm", "0000011b4000000f6578616d706c6500"),
    ("to-host", "0000012540000011632e6578616d706c65000000"),
    // Auth-Application-Id 4, Service-Context-Id x@y, CC-Request-Types, CC-Request-Number 0.
    ("app", "000001024000000c00000004"),
    ("context", "000001cd4000000b78407900"),
    ("initial", "000001a04000000c00000001"),
    ("event", "000001a04000000c00000004"),
    ("number", "0000019f4000000c00000000"),
    // Subscription-Ids of type 0 and data 100, and of type 3 and data a@b.
    (
        "account",
        "000001bb40000020000001c24000000c00000000000001bc4000000b31303000",
    ),
    (
        "nai",
        "000001bb40000020000001c24000000c00000003000001bc4000000b61406200",
    ),
    // Requested-Actions 0, 3 and 4.
    ("debit", "000001b44000000c00000000"),
    ("price", "000001b44000000c00000003"),
    ("no-action", "000001b44000000c00000004"),
    // Requested-Service-Unit of 60 units, Used-Service-Units of 7 seconds and of 9 octets.
    ("want", "000001b540000018000001a140000010000000000000003c"),
    ("seconds", "000001be40000014000001a44000000c00000007"),
    ("octets", "000001be40000018000001a5400000100000000000000009"),
    // Granted-Service-Unit of 40 seconds, Final-Unit-Indication TERMINATE, Check-Balance-Result NO_CREDIT.
    ("grant", "000001af40000014000001a44000000c00000028"),
    ("last", "000001ae40000014000001c14000000c00000000"),
    ("no-credit", "000001a64000000c00000001"),
    // Result-Codes 2001, 4012 and 5012; Failed-AVP with an empty Service-Context-Id.
    ("success", "0000010c4000000c000007d1"),
    ("limit", "0000010c4000000c00000fac"),
    ("unable", "0000010c4000000c00001394"),
    ("failed", "0000011740000010000001cd40000008"),
    // Host-IP-Addresses, Vendor-Id 0, Product-Name dbench without flag M.
    ("ipv4", "000001014000000e0001c00002010000"),
    (
        "ipv6",
        "000001014000001a000220010db80000000000000000000000010000",
    ),
    ("vendor", "0000010a4000000c00000000"),
    ("product", "0000010d0000000e6462656e63680000"),
    // Origin-State-Id 7, Disconnect-Cause 0, Re-Auth-Request-Type 0.
    ("state", "000001164000000c00000007"),
    ("cause", "000001114000000c00000000"),
    ("reauth", "0000011d4000000c00000000"),
    // An AVP that the dictionary lacks, with flag M.
    ("unknown", "0000270f40000008"),
];

fn digits_of(word: &str) -> &str {
    for (name, digits) in WORDS {
        if *name == word {
            return digits;
        }
    }
    word
}

/// The digits of a message by words: its header, and its AVPs.
fn message(alloc: Global, words: &str) -> Result<String, AllocError> {
    let mut octets = String::new(alloc);
    for word in words.split(' ') {
        octets.push_str(digits_of(word))?;
    }
    let len = 4 + octets.len() / 2;
    format!(in alloc; "01{len:06x}{octets}")
}

/// What the rows of a list say.
#[derive(Clone, Copy)]
pub(crate) enum Rows {
    /// Of each row's message its fault is printed: `MESSAGE | FAULT`.
    Refused,
    /// Each row's message is written as the one beside it: `MESSAGE | MESSAGE`.
    Written,
    /// Each row's message is written as it is.
    Kept,
}

/// What isn't as expected: a row or a text, and its place in its list, or its size.
pub(crate) type Wrong<'a> = Option<(&'a str, usize)>;

/// Whether of a message its fault is printed.
fn is_refused(alloc: Global, words: &str, fault: &str) -> Result<bool, AllocError> {
    let input = message(alloc, words)?;
    let wanted = format!(in alloc; "fault {fault}\n")?;
    Ok(prints(alloc, input.as_str(), wanted.as_str(), 1))
}

/// Whether a message is written as the other, and no fault is printed.
fn is_written(alloc: Global, words: &str, encoded: &str) -> Result<bool, AllocError> {
    let input = message(alloc, words)?;
    let other = message(alloc, encoded)?;
    let wanted = format!(in alloc; "octets {other}\n")?;
    let (status, text) = read(alloc, input.as_str());
    match str::from_utf8(&text) {
        Ok(text) => Ok(text.ends_with(wanted.as_str()) && status == 0),
        Err(_) => Ok(false),
    }
}

/// Whether a line is a row: an empty one, or one that begins with `#`, is none.
fn is_row(line: &str) -> bool {
    !line.is_empty() && !line.starts_with('#')
}

/// How many rows a list has.
pub(crate) fn number_of(rows: &str) -> usize {
    let mut number = 0usize;
    for line in rows.split('\n') {
        if is_row(line) {
            number = number.saturating_add(1);
        }
    }
    number
}

/// Whether a line is as it says, if it is a row.
fn is_right(alloc: Global, kind: Rows, row: &str) -> Result<bool, AllocError> {
    if !is_row(row) {
        return Ok(true);
    }
    match (kind, row.split_once(" | ")) {
        (Rows::Kept, None) => is_written(alloc, row, row),
        (Rows::Refused, Some((words, fault))) => is_refused(alloc, words, fault),
        (Rows::Written, Some((words, encoded))) => is_written(alloc, words, encoded),
        _ => Ok(false),
    }
}

/// The first row of a list that isn't so.
pub(crate) fn wrong_row(alloc: Global, kind: Rows, rows: &str) -> Result<Wrong<'_>, AllocError> {
    for (place, row) in rows.split('\n').enumerate() {
        if !is_right(alloc, kind, row)? {
            return Ok(Some((row, place)));
        }
    }
    Ok(None)
}
