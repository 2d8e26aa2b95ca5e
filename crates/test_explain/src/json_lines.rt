//! Whole lines: the expected ones are written by hand from the octets.

use crate::octets::{BAD_SIZE, BROKEN_INSIDE, CUT, TERMINATION, UNKNOWN, octets_of};
use dia_show::Glossary;
use msg_json::put_json;
use std::alloc::Global;

/// The line of a message, where lines are read, its number and offset, its digits,
/// whether it has a fault, and what is said of it.
type Row = (Option<u64>, u64, u64, &'static str, bool, &'static str);

/// Whether a row is so.
fn says(alloc: Global, row: &Row) -> bool {
    let (line, number, offset, digits, refused, object) = *row;
    let (octets, made) = octets_of(digits);
    let mut out = Vec::new(alloc);
    let Ok(glossary) = Glossary::base(alloc) else {
        return false;
    };
    put_json(&mut out, &glossary, line, number, offset, &octets[..made]) == Ok(refused)
        && out.as_slice() == object.as_bytes()
}

const TERMINATION_LINE: &str = "{\"number\":1,\"offset\":0,\
\"abbreviation\":\"CCR\",\"name\":\"Credit-Control-Request\",\"flags\":\"RP--\",\
\"version\":1,\"length\":168,\"command\":272,\"application\":4,\"hop_by_hop\":7,\"end_to_end\":7,\
\"session\":\"c1;1\",\"avps\":[\
{\"place\":20,\"code\":263,\"vendor\":null,\"name\":\"Session-Id\",\"flags\":\"-M-\",\"length\":12,\
\"type\":\"UTF8String\",\"value\":\"c1;1\"},\
{\"place\":32,\"code\":264,\"vendor\":null,\"name\":\"Origin-Host\",\"flags\":\"-M-\",\"length\":17,\
\"type\":\"DiameterIdentity\",\"value\":\"c.example\"},\
{\"place\":52,\"code\":296,\"vendor\":null,\"name\":\"Origin-Realm\",\"flags\":\"-M-\",\"length\":15,\
\"type\":\"DiameterIdentity\",\"value\":\"example\"},\
{\"place\":68,\"code\":283,\"vendor\":null,\"name\":\"Destination-Realm\",\"flags\":\"-M-\",\"length\":15,\
\"type\":\"DiameterIdentity\",\"value\":\"example\"},\
{\"place\":84,\"code\":258,\"vendor\":null,\"name\":\"Auth-Application-Id\",\"flags\":\"-M-\",\"length\":12,\
\"type\":\"Unsigned32\",\"value\":4},\
{\"place\":96,\"code\":461,\"vendor\":null,\"name\":\"Service-Context-Id\",\"flags\":\"-M-\",\"length\":11,\
\"type\":\"UTF8String\",\"value\":\"x@y\"},\
{\"place\":108,\"code\":416,\"vendor\":null,\"name\":\"CC-Request-Type\",\"flags\":\"-M-\",\"length\":12,\
\"type\":\"Enumerated\",\"value\":3,\"value_name\":\"TERMINATION_REQUEST\"},\
{\"place\":120,\"code\":415,\"vendor\":null,\"name\":\"CC-Request-Number\",\"flags\":\"-M-\",\"length\":12,\
\"type\":\"Unsigned32\",\"value\":2},\
{\"place\":132,\"code\":295,\"vendor\":null,\"name\":\"Termination-Cause\",\"flags\":\"-M-\",\"length\":12,\
\"type\":\"Enumerated\",\"value\":1,\"value_name\":\"DIAMETER_LOGOUT\"},\
{\"place\":144,\"code\":446,\"vendor\":null,\"name\":\"Used-Service-Unit\",\"flags\":\"-M-\",\"length\":24,\
\"type\":\"Grouped\",\"avps\":[\
{\"place\":152,\"code\":417,\"vendor\":null,\"name\":\"CC-Service-Specific-Units\",\"flags\":\"-M-\",\"length\":16,\
\"type\":\"Unsigned64\",\"value\":\"35\"}]}],\
\"fault\":null}
";

const BAD_SIZE_LINE: &str = "{\"number\":2,\"line\":7,\"offset\":168,\
\"abbreviation\":\"DPR\",\"name\":\"Disconnect-Peer-Request\",\"flags\":\"R---\",\
\"version\":1,\"length\":68,\"command\":282,\"application\":0,\"hop_by_hop\":1,\"end_to_end\":2,\
\"session\":null,\"avps\":[\
{\"place\":20,\"code\":264,\"vendor\":null,\"name\":\"Origin-Host\",\"flags\":\"-M-\",\"length\":17,\
\"type\":\"DiameterIdentity\",\"value\":\"c.example\"},\
{\"place\":40,\"code\":296,\"vendor\":null,\"name\":\"Origin-Realm\",\"flags\":\"-M-\",\"length\":15,\
\"type\":\"DiameterIdentity\",\"value\":\"example\"},\
{\"place\":56,\"code\":273,\"vendor\":null,\"name\":\"Disconnect-Cause\",\"flags\":\"-M-\",\"length\":9,\
\"type\":\"Enumerated\",\"wrong\":\"its data has a size that its type does not have\",\"hex\":\"00\"}],\
\"fault\":{\"result_code\":5014,\"name\":\"DIAMETER_INVALID_AVP_LENGTH\",\"reason\":\"an AVP has a wrong length\",\
\"failed\":{\"code\":273,\"vendor\":null,\"name\":\"Disconnect-Cause\",\"place\":56}}}
";

const BROKEN_INSIDE_LINE: &str = "{\"number\":18446744073709551615,\"offset\":18446744073709551615,\
\"abbreviation\":\"DWR\",\"name\":\"Device-Watchdog-Request\",\"flags\":\"R---\",\
\"version\":1,\"length\":44,\"command\":280,\"application\":0,\"hop_by_hop\":1,\"end_to_end\":4294967294,\
\"session\":null,\"avps\":[\
{\"place\":20,\"code\":446,\"vendor\":null,\"name\":\"Used-Service-Unit\",\"flags\":\"-MP\",\"length\":24,\
\"type\":\"Grouped\",\"avps\":[\
{\"place\":28,\"code\":421,\"vendor\":null,\"name\":\"CC-Total-Octets\",\"flags\":\"-M-\",\"length\":17,\
\"type\":\"Unsigned64\",\"wrong\":\"it runs past the end\",\"hex\":\"000001a5400000110000000000000001\"}]}],\
\"fault\":{\"result_code\":5014,\"name\":\"DIAMETER_INVALID_AVP_LENGTH\",\"reason\":\"an AVP has a wrong length\",\
\"failed\":{\"code\":421,\"vendor\":null,\"name\":\"CC-Total-Octets\",\"place\":28}}}
";

const UNKNOWN_LINE: &str = "{\"number\":1,\"offset\":0,\
\"abbreviation\":\"DWA\",\"name\":\"Device-Watchdog-Answer\",\"flags\":\"--ET\",\
\"version\":1,\"length\":56,\"command\":280,\"application\":0,\"hop_by_hop\":1,\"end_to_end\":255,\
\"session\":null,\"avps\":[\
{\"place\":20,\"code\":9999,\"vendor\":10415,\"name\":null,\"flags\":\"VM-\",\"length\":16,\
\"type\":null,\"hex\":\"00000007\"},\
{\"place\":36,\"code\":9999,\"vendor\":0,\"name\":null,\"flags\":\"V--\",\"length\":12,\
\"type\":null,\"hex\":\"\"},\
{\"place\":48,\"code\":268,\"vendor\":null,\"name\":\"Result-Code\",\"flags\":\"--P\",\"length\":7,\
\"type\":\"Unsigned32\",\"wrong\":\"its length is below that of its header\",\"hex\":\"0000010c20000007\"}],\
\"fault\":{\"result_code\":5001,\"name\":\"DIAMETER_AVP_UNSUPPORTED\",\"reason\":\"an AVP that is not known has flag \
    M\",\
\"failed\":{\"code\":9999,\"vendor\":10415,\"name\":null,\"place\":20}}}
";

const CUT_LINE: &str = "{\"number\":1,\"offset\":0,\"hex\":\"01000038800001\",\"avps\":[],\
\"fault\":{\"result_code\":5015,\"name\":\"DIAMETER_INVALID_MESSAGE_LENGTH\",\
\"reason\":\"the length in the header is not that of the message\",\"failed\":null}}
";

const MISSING: &str = "0100001400000118000000000000000100000001";

const MISSING_LINE: &str = "{\"number\":1,\"offset\":0,\
\"abbreviation\":\"DWA\",\"name\":\"Device-Watchdog-Answer\",\"flags\":\"----\",\
\"version\":1,\"length\":20,\"command\":280,\"application\":0,\"hop_by_hop\":1,\"end_to_end\":1,\
\"session\":null,\"avps\":[],\
\"fault\":{\"result_code\":5005,\"name\":\"DIAMETER_MISSING_AVP\",\"reason\":\"an AVP that is required is missing\",\
\"failed\":{\"code\":268,\"vendor\":null,\"name\":\"Result-Code\",\"place\":null}}}
";

/// Each header field and each AVP is told, a wrong length with its place, and what is unknown, cut off or missing.
const ROWS: &[Row] = &[
    (None, 1, 0, TERMINATION, false, TERMINATION_LINE),
    (Some(7), 2, 168, BAD_SIZE, true, BAD_SIZE_LINE),
    (
        None,
        u64::MAX,
        u64::MAX,
        BROKEN_INSIDE,
        true,
        BROKEN_INSIDE_LINE,
    ),
    (None, 1, 0, UNKNOWN, true, UNKNOWN_LINE),
    (None, 1, 0, CUT, true, CUT_LINE),
    (None, 1, 0, MISSING, true, MISSING_LINE),
];

/// The place of the first row that isn't so.
fn wrong_row(alloc: Global) -> Option<usize> {
    for (place, row) in ROWS.iter().enumerate() {
        if !says(alloc, row) {
            return Some(place);
        }
    }
    None
}

#[test]
fn each_message_has_its_line(rt: HostRuntime) {
    let wrong = wrong_row(rt.alloc());
    assert!(rt; wrong.is_none(), "{wrong:?}");
}
