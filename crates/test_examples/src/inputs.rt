//! What is printed of an input, and how reading it ends.
use crate::messages::Wrong;
use crate::streams::{Narrow, Pieces, filled, prints, prints_filled, prints_from};
use base_device::{Counting, Status};
use dia_show::Glossary;
use msg_text::{Style, read_on};
use std::alloc::{AllocError, Global};
use std::io::ErrorKind;

const DWR: &str = "\
0100003880000118000000000000000100000001\
0000010840000011612e6578616d706c65000000\
000001284000000f6578616d706c6500";

const DWR_TEXT: &str = "\
message 280 R--- app 0 hop 1 end 1 length 56
  264 -M- 17 612e6578616d706c65
  296 -M- 15 6578616d706c65
octets 01000038800001180000000000000001000000010000010840000011612e6578616d706c65000000000001284000000f6578616d706c6500
";

/// The same with other reserved bits and padding.
const DWR_OTHER_BITS: &str = "\
010000388f000118000000000000000100000001\
000001085f000011612e6578616d706c65ffffff\
000001285f00000f6578616d706c65ff";

/// The same in upper case, with blanks between.
const DWR_UPPER: &str = "\
 0100003880000118000000000000000100000001\t0000010840000011612E6578616D706C65000000\r
000001284000000F6578616D706C650\n\n0\n";

/// Origin-State-Id 2^32 - 1 with flag P, and an unknown AVP of vendor 10415 without data.
const VENDOR: &str = "\
010000448000011800000000ffffffff00000000\
0000010840000009610000000000012840000009\
62000000000001162000000cffffffff0000270f8000000c000028af";

const VENDOR_TEXT: &str = "\
message 280 R--- app 0 hop 4294967295 end 0 length 68
  264 -M- 9 61
  296 -M- 9 62
  278 --P 12 ffffffff
  9999/10415 V-- 12
octets 010000448000011800000000ffffffff00000000\
0000010840000009610000000000012840000009\
62000000000001162000000cffffffff0000270f8000000c000028af
";

/// Texts, what is printed of them, and the status. A `*` stands for the DWR and for its lines.
const TEXTS: &[(&str, &str, u8)] = &[
    ("*", "*", 0),
    (DWR_OTHER_BITS, "*", 0),
    (DWR_UPPER, "*", 0),
    (VENDOR, VENDOR_TEXT, 0),
    ("", "", 0),
    (" \r\n\t", "", 0),
    (
        "010000448000011800000000000000010000000100000108400000116\
12e6578616d706c65000000000001284000000f6578616d706c65000000270f4000000c00000001",
        "fault 5001 0000270f4000000c00000001\n",
        1,
    ),
    (
        "01000038800001180000000000000001000000010000010840000011ff2e6578616d706c65000000\
000001284000000f6578616d706c6500",
        "fault 5004 0000010840000011ff2e6578616d706c65000000\n",
        1,
    ),
    (
        "01000028800001180000000000000001000000010000010840000011612e6578616d706c65000000",
        "fault 5005 0000012840000008\n",
        1,
    ),
    (
        "0100001c800001180000000000000001000000010000010840000007",
        "fault 5014 0000010840000008\n",
        1,
    ),
    (
        "01000020800001180000000000000001000000010000011640000009ff000000",
        "fault 5014 000001164000000c00000000\n",
        1,
    ),
    (
        "0100001480000119000000000000000100000001",
        "fault 3001\n",
        1,
    ),
    (
        "0100001400000118000000000000000100000001",
        "fault 5005 0000010c4000000c00000000\n",
        1,
    ),
    (
        "0100001480000118000000040000000100000001",
        "fault 3007\n",
        1,
    ),
    // What is no octet ends the input, with a message before it or without.
    ("zz", "bad hex\n", 1),
    ("0", "bad hex\n", 1),
    ("01 0g", "bad hex\n", 1),
    ("01000010 g", "frame fault 2\n", 1),
    ("*zz", "*bad hex\n", 1),
    ("*0", "*bad hex\n", 1),
    ("*01 0g", "*bad hex\n", 1),
    ("*01000010 g", "*frame fault 2\n", 1),
    // A frame fault, with a message behind it.
    ("02*", "frame fault 1\n", 1),
    ("*02*", "*frame fault 1\n", 1),
    ("*01000010*", "*frame fault 2\n", 1),
    ("*01000016*", "*frame fault 2\n", 1),
    ("*01001004*", "*frame fault 2\n", 1),
    ("*\n*", "**", 0),
];

/// The first text of which something else is printed.
fn wrong_text(alloc: Global) -> Result<Wrong<'static>, AllocError> {
    for (place, (input, wanted, status)) in TEXTS.iter().enumerate() {
        if !prints_filled(alloc, (input, DWR), (wanted, DWR_TEXT), *status)? {
            return Ok(Some((input, place)));
        }
    }
    Ok(None)
}

/// Whether a front of the DWR is a fault.
fn is_front_refused(alloc: Global, count: usize) -> bool {
    match DWR.get(..count) {
        Some(front) => prints(alloc, front, "fault 5015\n", 1),
        None => false,
    }
}

/// The octets of the first front of the DWR that isn't a fault.
fn wrong_front(alloc: Global) -> Wrong<'static> {
    for count in 1..56 {
        if !is_front_refused(alloc, 2 * count) {
            return Some(("a front of the DWR", count));
        }
    }
    None
}

/// Whether two DWRs and these digits, in pieces of a size, print their lines and this end.
fn is_cut(alloc: Global, size: usize, error: Option<ErrorKind>) -> Result<bool, AllocError> {
    let (text, lines, status) = if error.is_some() {
        ("**01", "**read fault\n", 3)
    } else {
        ("*\n*", "**", 0)
    };
    let input = filled(alloc, text, DWR, 1)?;
    let wanted = filled(alloc, lines, DWR_TEXT, 1)?;
    let reader = Pieces {
        octets: input.as_bytes(),
        size,
        error,
    };
    Ok(prints_from(alloc, reader, wanted.as_str(), status))
}

/// The first size of pieces in which something else is printed.
fn wrong_size(alloc: Global) -> Result<Wrong<'static>, AllocError> {
    for size in [1, 7, 41, 112, 4095] {
        if !is_cut(alloc, size, None)? || !is_cut(alloc, size, Some(ErrorKind::BrokenPipe))? {
            return Ok(Some(("pieces", size)));
        }
    }
    Ok(None)
}

/// Whether a reader without end is a read fault.
fn is_endless(alloc: Global) -> Result<bool, AllocError> {
    let glossary = Glossary::base(alloc)?;
    let mut source = Counting::new(Pieces {
        octets: DWR.as_bytes(),
        size: 9,
        error: Some(ErrorKind::Interrupted),
    });
    let mut sink = Counting::new(Vec::new(alloc));
    let status = read_on(Style::Plain, alloc, &glossary, &mut source, &mut sink);
    let wanted = format!(in alloc; "{DWR_TEXT}read fault: no end of input after 1048576 reads\n")?;
    Ok(
        sink.device.as_slice() == wanted.as_bytes()
            && status.code() == 3
            && source.reads == 1_048_576
            && source.failures == 0,
    )
}

/// Whether a writer with this room takes a front of the text, and the status is 3.
/// It fails with the error, or takes nothing in 1,048,576 writes.
fn is_write_fault(alloc: Global, room: usize, error: Option<ErrorKind>) -> bool {
    let Ok(glossary) = Glossary::base(alloc) else {
        return false;
    };
    let mut source = Counting::new(Pieces {
        octets: DWR.as_bytes(),
        size: 4095,
        error: None,
    });
    let taken = Vec::new(alloc);
    let mut sink = Counting::new(Narrow { taken, room, error });
    let status = read_on(Style::Plain, alloc, &glossary, &mut source, &mut sink);
    let failures = if error == Some(ErrorKind::BrokenPipe) {
        1
    } else {
        0
    };
    status == Status::Fault
        && DWR_TEXT.as_bytes().get(..room) == Some(sink.device.taken.as_slice())
        && sink.failures == failures
        && sink.idle == 1_048_576 * (1 - failures)
}

/// The place of the first writer that fails, or takes nothing, without a write fault.
fn wrong_writer(alloc: Global) -> Wrong<'static> {
    let writers = [
        (0, Some(ErrorKind::BrokenPipe)),
        (50, Some(ErrorKind::BrokenPipe)),
        (0, None),
        (50, None),
        (50, Some(ErrorKind::WouldBlock)),
    ];
    for (place, (room, error)) in writers.iter().enumerate() {
        if !is_write_fault(alloc, *room, *error) {
            return Some(("a writer", place));
        }
    }
    None
}

/// The first input of which something else is printed, or that ends otherwise.
pub(crate) fn wrong_input(alloc: Global) -> Result<Wrong<'static>, AllocError> {
    let endless = if is_endless(alloc)? {
        None
    } else {
        Some(("a reader without end", 0))
    };
    let text = wrong_text(alloc)?;
    let size = wrong_size(alloc)?;
    let front = wrong_front(alloc);
    Ok(text.or(front).or(size).or(endless).or(wrong_writer(alloc)))
}
