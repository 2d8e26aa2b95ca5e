//! What assembling a table's text prints, and listing an image's.
use base_device::{Counting, Status};
use image_text::{assemble_on, list_on};
use role_tables::all_laws;
use std::test::Fail;
use tab_law::LawBook;

const TABLE: &str = "  State  Event                        Action         Next
  Wait   CCA-I when mine and success  Grant-Service  Done
  Wait   CCA-I                        End-Service    Wait
";

/// Magic, counts, names; two entries, the code's length; the code of two rows.
const IMAGE: &str = "4454493200020001000200020002\
0457616974 04446f6e65 054343412d49 046d696e65 0773756363657373 0d4772616e742d53657276696365 0b456e642d53657276696365\
00000000ffffffff0000001b\
010000 020000000013 020100000013 0300 0401 010001 0301 0400 05";

/// Whether assembling a text prints this, blanks aside, and a newline, and ends so.
fn assembles(laws: &LawBook, rt: &HostRuntime, table: &str, printed: &str, wanted: Status) -> bool {
    let mut sink = Counting::new(Vec::new(rt.alloc()));
    let status = assemble_on(rt.alloc(), table.as_bytes(), laws, &mut sink);
    let mut left = sink.device.as_slice();
    for c in printed.as_bytes() {
        if *c == b' ' && wanted == Status::Done {
            continue;
        }
        let [first, rest @ ..] = left else {
            return false;
        };
        if first != c {
            return false;
        }
        left = rest;
    }
    left == b"\n".as_slice() && status == wanted
}

#[test]
fn a_text_is_assembled_or_its_first_refusal_told(rt: HostRuntime) -> Result<(), Fail> {
    let laws = all_laws(rt.alloc())?;
    for (table, printed, status) in [
        (TABLE, IMAGE, Status::Done),
        (
            "",
            "line 0 fault 1\n  wanted: a header: two blanks, then the words State, Event, Action and Next",
            Status::Refused,
        ),
        (
            "  State  Event  Action  Next\n  A      CCA-I  Open    A\n",
            "unbound Open\n  in: row 0, line 2\n  wanted: a kind, a guard or an action that is registered",
            Status::Refused,
        ),
    ] {
        assert!(rt; assembles(&laws, &rt, table, printed, status));
    }
    Ok(())
}

const LISTING: &str = "Wait CCA-I 0
0 ROW 0
3 GUARD mine 19
9 GUARD success 19
15 ACT Grant-Service
17 GOTO Done
19 ROW 1
22 ACT End-Service
24 GOTO Wait
26 NONE
";

/// The image above in format 1, with digits of both cases.
const FORMAT_1: &str = "4454493100020001000200020002
0457616974 04446F6E65 054343412D49 046D696E65 0773756363657373 0d4772616e742d53657276696365 0b456e642d53657276696365
0000ffff0017 010000 0200000f 0201000f 0300 0401 010001 0301 0400 05";

const LISTING_1: &str = "Wait CCA-I 0
0 ROW 0
3 GUARD mine 15
7 GUARD success 15
11 ACT Grant-Service
13 GOTO Done
15 ROW 1
18 ACT End-Service
20 GOTO Wait
22 NONE
";

/// Whether listing an image prints this, and ends so.
fn lists(laws: &LawBook, rt: &HostRuntime, image: &str, printed: &str, wanted: Status) -> bool {
    let mut sink = Counting::new(Vec::new(rt.alloc()));
    let status = list_on(rt.alloc(), image.as_bytes(), laws, &mut sink);
    sink.device.as_slice() == printed.as_bytes() && status == wanted
}

#[test]
fn an_image_is_listed_or_its_first_refusal_told(rt: HostRuntime) -> Result<(), Fail> {
    let laws = all_laws(rt.alloc())?;
    for (image, printed, status) in [
        (IMAGE, LISTING, Status::Done),
        (FORMAT_1, LISTING_1, Status::Done),
        (
            "4454493",
            "bad hex\n  wanted: hexadecimal digits, two for each octet; blanks between them don't count\n",
            Status::Refused,
        ),
        (
            "4454493x",
            "bad hex\n  wanted: hexadecimal digits, two for each octet; blanks between them don't count\n",
            Status::Refused,
        ),
        (
            "",
            "at 0 fault 2\n  wrong: the image is cut off; it has that many octets\n",
            Status::Refused,
        ),
        (
            "44544933",
            "at 0 fault 1\n  wrong: it doesn't begin as an image of a format that is known\n",
            Status::Refused,
        ),
    ] {
        assert!(rt; lists(&laws, &rt, image, printed, status));
    }
    Ok(())
}
