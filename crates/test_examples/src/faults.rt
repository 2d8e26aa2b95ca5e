//! Which fault `read` prints of a message that has one.
use crate::messages::{Rows, Wrong, wrong_row};
use crate::streams::filled;
use dia_show::Glossary;
use msg_text::{Plain, Report};
use std::alloc::{AllocError, Global};

/// Rows with a `*` for so many of these octets: an AVP has up to 255 or 4,032 of them, a list up to 128 AVPs.
const MANY: &[(&str, &str, usize)] = &[
    (
        "raa 0000010740000108* success host realm | 5004 0000010740000108*",
        "73",
        256,
    ),
    ("dwr host realm *0000270f00000008 | 5012", UNKNOWN, 126),
    ("dwr host realm *0000270f40000008 | 5012", UNKNOWN, 126),
    (
        "dwr host realm 000001bb40000410*0000270f000000080000270f000000080000270f00000008 | 5012",
        UNKNOWN,
        126,
    ),
    // Whatever the 129th is, unless it is broken.
    (
        "dwr host realm *0000270f00000007 | 5014 0000270f00000008",
        UNKNOWN,
        126,
    ),
    ("80000118000000000000000100000001* | 5012", UNKNOWN, 129),
];

/// The same, of messages that are kept.
const MANY_KEPT: &[(&str, &str, usize)] = &[
    ("raa 0000010740000107*00 success host realm", "73", 255),
    ("dwr host realm *", UNKNOWN, 126),
    (
        "dwr host realm 000001bb40000408*0000270f000000080000270f00000008",
        UNKNOWN,
        126,
    ),
    // User-Equipment-Info-Value of 4,032 octets behind 20, 20 and 16: 4,096 are the most.
    ("dwr host realm 000001cc40000fc8*", "0000000000000000", 504),
];

/// An AVP that the dictionary lacks, without flag M.
const UNKNOWN: &str = "0000270f00000008";

/// Headers of other versions.
const OTHER_VERSIONS: &[[u8; 20]] = &[
    [
        2, 0, 0, 20, 0x80, 0, 1, 24, 0, 0, 0, 0, 0, 0, 0, 1, 0, 0, 0, 1,
    ],
    [
        0, 0, 0, 20, 0xc0, 0, 1, 16, 0, 0, 0, 4, 0, 0, 0, 1, 0, 0, 0, 1,
    ],
    [
        2, 0, 0, 20, 0xc0, 0, 1, 16, 0, 0, 0, 4, 0, 0, 0, 1, 0, 0, 0, 1,
    ],
    [
        255, 0, 0, 20, 0xc0, 0, 1, 16, 0, 0, 0, 4, 0, 0, 0, 1, 0, 0, 0, 1,
    ],
];

/// Whether another version is printed of a header. Of a stream that is a frame fault, so it is read by itself.
fn is_other_version(alloc: Global, octets: &[u8]) -> bool {
    let Ok(glossary) = Glossary::base(alloc) else {
        return false;
    };
    let Ok(mut report) = Report::<Plain>::new(alloc) else {
        return false;
    };
    report.message(&glossary, None, octets).is_ok() && report.text() == b"fault 5011\n".as_slice()
}

/// Whether a row that is filled with so many of a part is as it says.
fn is_many(
    alloc: Global,
    kind: Rows,
    (row, part, count): (&str, &str, usize),
) -> Result<bool, AllocError> {
    let filled = filled(alloc, row, part, count)?;
    Ok(wrong_row(alloc, kind, filled.as_str())?.is_none())
}

/// The first filled row that isn't so.
fn wrong_many(
    alloc: Global,
    kind: Rows,
    rows: &'static [(&'static str, &'static str, usize)],
) -> Result<Wrong<'static>, AllocError> {
    for row in rows {
        if !is_many(alloc, kind, *row)? {
            return Ok(Some((row.0, row.2)));
        }
    }
    Ok(None)
}

/// The first header of another version of which that isn't printed.
fn wrong_version(alloc: Global) -> Wrong<'static> {
    for (place, octets) in OTHER_VERSIONS.iter().enumerate() {
        if !is_other_version(alloc, octets) {
            return Some(("another version", place));
        }
    }
    None
}

/// The first message with many parts, or of another version, of which something else is printed.
pub(crate) fn wrong_fault(alloc: Global) -> Result<Wrong<'static>, AllocError> {
    let refused = wrong_many(alloc, Rows::Refused, MANY)?;
    let kept = wrong_many(alloc, Rows::Kept, MANY_KEPT)?;
    Ok(refused.or(kept).or(wrong_version(alloc)))
}
