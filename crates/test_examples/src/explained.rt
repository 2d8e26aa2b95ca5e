//! What `read_on` prints in names, and where it says that reading stopped. The expected texts are written by hand.
use crate::messages::Wrong;
use base_device::{Counting, Status};
use dia_show::Glossary;
use msg_text::{Style, read_on};
use std::alloc::{AllocError, Global};

const DWR: &str = "\
0100002880000118000000000000000100000001
0000010840000011612e6578616d706c65000000";

const DWR_TEXT: &str = "\
message 1 at octet 0: DWR Device-Watchdog-Request R---, version 1, length 40, command 280, application 0, \
    hop-by-hop 1, end-to-end 1
  20: 264 Origin-Host -M- 17 \"a.example\"
fault 5005 DIAMETER_MISSING_AVP in message 1 at octet 0: an AVP that is required is missing: AVP 296 Origin-Realm
";

const HEX: &str =
    ": each octet wants two hexadecimal digits, and between digits only blanks may stand\n";

const VERSION: &str = ": no message begins here, its first octet would be version 1\n";

const LENGTH: &str = ": the length in this header is below 20, no multiple of 4 or over 4096\n";

/// What stands behind the DWR, which has 40 octets, and 82 characters with its newline: what is
/// printed behind its lines, and why.
const BEHIND: &[(&str, &str, &str)] = &[
    ("", "", ""),
    (" \n", "", ""),
    ("x", "bad hex at character 82", HEX),
    ("0100 x", "bad hex at character 87", HEX),
    ("0", "bad hex at character 83", HEX),
    ("0 \n", "bad hex at character 85", HEX),
    ("02", "frame fault 1 at octet 40", VERSION),
    ("01000010", "frame fault 2 at octet 40", LENGTH),
    ("01001004", "frame fault 2 at octet 40", LENGTH),
    (
        "0100",
        "message 2 at octet 40: no whole header 0x0100\n\
            fault 5015 DIAMETER_INVALID_MESSAGE_LENGTH in message 2 at octet 40",
        ": the length in the header is not that of the message\n",
    ),
];

/// Whether this is printed of a text in names, and its fault makes the status.
fn prints(alloc: Global, input: &str, wanted: &str) -> bool {
    let Ok(glossary) = Glossary::base(alloc) else {
        return false;
    };
    let mut source = Counting::new(input.as_bytes());
    let mut sink = Counting::new(Vec::new(alloc));
    read_on(Style::Explained, alloc, &glossary, &mut source, &mut sink) == Status::Refused
        && sink.device.as_slice() == wanted.as_bytes()
}

/// Whether this end, for this reason, is printed behind the DWR's lines.
fn stops(alloc: Global, (behind, end, why): (&str, &str, &str)) -> Result<bool, AllocError> {
    let input = format!(in alloc; "{DWR}\n{behind}")?;
    let wanted = format!(in alloc; "{DWR_TEXT}{end}{why}")?;
    Ok(prints(alloc, input.as_str(), wanted.as_str()))
}

/// The first stop that hasn't its place behind a message.
pub(crate) fn wrong_stop(alloc: Global) -> Result<Wrong<'static>, AllocError> {
    for (place, row) in BEHIND.iter().enumerate() {
        if !stops(alloc, *row)? {
            return Ok(Some((row.0, place)));
        }
    }
    Ok(None)
}
