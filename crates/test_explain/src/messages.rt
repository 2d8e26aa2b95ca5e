//! What is said of a message: the expected lines are written by hand from its octets.

use crate::octets::{BAD_SIZE, BROKEN_INSIDE, CUT, TERMINATION, UNKNOWN, octets_of};
use dia_show::Glossary;
use msg_explain::explain;
use std::alloc::Global;

/// The line of a message, where lines are read, its number and offset, its digits,
/// whether it has a fault, and what is said of it.
type Row = (Option<u64>, u64, u64, &'static str, bool, &'static str);

/// Whether a row is so.
fn says(alloc: Global, row: &Row) -> bool {
    let (line, number, offset, digits, refused, text) = *row;
    let (octets, made) = octets_of(digits);
    let mut out = Vec::new(alloc);
    let Ok(glossary) = Glossary::base(alloc) else {
        return false;
    };
    explain(&mut out, &glossary, line, number, offset, &octets[..made]) == Ok(refused)
        && out.as_slice() == text.as_bytes()
}

const TERMINATION_TEXT: &str = "\
message 1 at octet 0: CCR Credit-Control-Request RP--, version 1, length 168, command 272, application 4, \
    hop-by-hop 7, end-to-end 7, session \"c1;1\"
  20: 263 Session-Id -M- 12 \"c1;1\"
  32: 264 Origin-Host -M- 17 \"c.example\"
  52: 296 Origin-Realm -M- 15 \"example\"
  68: 283 Destination-Realm -M- 15 \"example\"
  84: 258 Auth-Application-Id -M- 12 4
  96: 461 Service-Context-Id -M- 11 \"x@y\"
  108: 416 CC-Request-Type -M- 12 3 TERMINATION_REQUEST
  120: 415 CC-Request-Number -M- 12 2
  132: 295 Termination-Cause -M- 12 1 DIAMETER_LOGOUT
  144: 446 Used-Service-Unit -M- 24
    152: 417 CC-Service-Specific-Units -M- 16 35
";

const BAD_SIZE_TEXT: &str = "\
message 2 at octet 168 of line 7: DPR Disconnect-Peer-Request R---, version 1, length 68, command 282, application 0, \
    hop-by-hop 1, end-to-end 2
  20: 264 Origin-Host -M- 17 \"c.example\"
  40: 296 Origin-Realm -M- 15 \"example\"
  56: 273 Disconnect-Cause -M- 9 0x00 (a size that its type does not have)
fault 5014 DIAMETER_INVALID_AVP_LENGTH in message 2 at octet 168 of line 7: an AVP has a wrong length: \
    AVP 273 Disconnect-Cause at its octet 56
";

const BROKEN_INSIDE_TEXT: &str = "\
message 18446744073709551615 at octet 18446744073709551615: DWR Device-Watchdog-Request R---, version 1, length 44, \
    command 280, application 0, hop-by-hop 1, end-to-end 4294967294
  20: 446 Used-Service-Unit -MP 24
    28: 421 CC-Total-Octets -M- 17: broken, it runs past the end: 0x000001a5400000110000000000000001
fault 5014 DIAMETER_INVALID_AVP_LENGTH in message 18446744073709551615 at octet 18446744073709551615: \
    an AVP has a wrong length: AVP 421 CC-Total-Octets at its octet 28
";

const UNKNOWN_TEXT: &str = "\
message 1 at octet 0: DWA Device-Watchdog-Answer --ET, version 1, length 56, command 280, application 0, hop-by-hop 1, \
    end-to-end 255
  20: 9999/10415 unknown VM- 16 0x00000007
  36: 9999/0 unknown V-- 12 0x
  48: 268 Result-Code --P 7: broken, its length is below that of its header: 0x0000010c20000007
fault 5001 DIAMETER_AVP_UNSUPPORTED in message 1 at octet 0: an AVP that is not known has flag M: \
    AVP 9999/10415 unknown at its octet 20
";

const CUT_TEXT: &str = "\
message 1 at octet 0: no whole header 0x01000038800001
fault 5015 DIAMETER_INVALID_MESSAGE_LENGTH in message 1 at octet 0: the length in the header is not that of the message
";

/// Each header field and each AVP is told, a wrong length with its place, and what is unknown, cut off or missing.
const ROWS: &[Row] = &[
    (None, 1, 0, TERMINATION, false, TERMINATION_TEXT),
    (Some(7), 2, 168, BAD_SIZE, true, BAD_SIZE_TEXT),
    (
        None,
        u64::MAX,
        u64::MAX,
        BROKEN_INSIDE,
        true,
        BROKEN_INSIDE_TEXT,
    ),
    (None, 1, 0, UNKNOWN, true, UNKNOWN_TEXT),
    (None, 1, 0, CUT, true, CUT_TEXT),
];

/// The place of the first row that isn't so.
fn wrong_row(alloc: Global) -> Option<usize> {
    for (place, row) in ROWS.iter().enumerate() {
        if !says(alloc, row) {
            return Some(place);
        }
    }
    None
}

#[test]
fn each_message_is_told_in_names(rt: HostRuntime) {
    let wrong = wrong_row(rt.alloc());
    assert!(rt; wrong.is_none(), "{wrong:?}");
}
