//! What connections answer by themselves, post and make of faults.
//! The octets are typed by hand from RFC 6733 and RFC 8506.

use crate::node::{CER, connections, joined, lifted};
use bench_item::LineState;
use dia_frame::FrameFault;
use std::alloc::Global;
use std::test::Fail;

/// Messages in pieces, what is posted behind the CER that greets the connection, what is sent, the fault of the stream,
/// and whether the connection is closed then.
struct AnswerRow {
    pieces: &'static [&'static str],
    posted: &'static str,
    sent: &'static str,
    ended: Option<FrameFault>,
    closed: bool,
}

const GREETED: &str = "told 0 p:c.example R-Conn-CER 0=4096 1=1 2=1 3=1 5=1\n";

const ROWS: &[AnswerRow] = &[
    // A DWR is no CER.
    AnswerRow {
        pieces: &["0100003880000118000000000000000100000001 peer"],
        posted: "",
        sent: "",
        ended: None,
        closed: true,
    },
    // The host is no peer's: 3010.
    AnswerRow {
        pieces: &[
            "0100006c80000101000000000000000100000001 stranger address vendor product credit",
        ],
        posted: "",
        sent: "0100004420000101000000000000000100000001 server 0000010c4000000c00000bc2",
        ended: None,
        closed: true,
    },
    // Case does not count in hosts: another host is 3010, and the peer is greeted under its configured name.
    AnswerRow {
        pieces: &[
            "0100006c80000101000000000000000100000001 STRANGER address vendor product credit",
        ],
        posted: "",
        sent: "0100004420000101000000000000000100000001 server 0000010c4000000c00000bc2",
        ended: None,
        closed: true,
    },
    AnswerRow {
        pieces: &["0100006c80000101000000000000000100000001 PEER address vendor product credit"],
        posted: GREETED,
        sent: "",
        ended: None,
        closed: false,
    },
    // No application of credit control: 5010; inside a Vendor-Specific-Application-Id it is one.
    AnswerRow {
        pieces: &["0100006080000101000000000000000100000001 peer address vendor product"],
        posted: "",
        sent: "0100004400000101000000000000000100000001 server 0000010c4000000c00001392",
        ended: None,
        closed: true,
    },
    AnswerRow {
        pieces: &[
            "0100008080000101000000000000000100000001 peer address vendor product \
0000010440000020 vendor credit",
        ],
        posted: GREETED,
        sent: "",
        ended: None,
        closed: false,
    },
    // In the second of two Vendor-Specific-Application-Ids, or behind another one in the same, it is one too;
    // in none of two it is 5010.
    AnswerRow {
        pieces: &[
            "010000a080000101000000000000000100000001 peer address vendor product \
0000010440000020 vendor nasreq 0000010440000020 vendor credit",
        ],
        posted: GREETED,
        sent: "",
        ended: None,
        closed: false,
    },
    AnswerRow {
        pieces: &[
            "0100008c80000101000000000000000100000001 peer address vendor product \
000001044000002c vendor nasreq credit",
        ],
        posted: GREETED,
        sent: "",
        ended: None,
        closed: false,
    },
    AnswerRow {
        pieces: &[
            "010000a080000101000000000000000100000001 peer address vendor product \
0000010440000020 vendor nasreq 0000010440000020 vendor nasreq",
        ],
        posted: "",
        sent: "0100004400000101000000000000000100000001 server 0000010c4000000c00001392",
        ended: None,
        closed: true,
    },
    // No Vendor-Id: 5005.
    AnswerRow {
        pieces: &["0100006080000101000000000000000100000001 peer address product credit"],
        posted: "",
        sent: "0100005800000101000000000000000100000001 server 0000010c4000000c0000138d \
00000117400000140000010a4000000c00000000",
        ended: None,
        closed: true,
    },
    // A RAR: 3001. A second CER: 5012.
    AnswerRow {
        pieces: &[
            CER,
            "01000080c0000102000000040000000900000009 client \
0000012540000011732e6578616d706c650000000000011d4000000c00000000",
            CER,
        ],
        posted: GREETED,
        sent: "0100005060000102000000040000000900000009 session server 0000010c4000000c00000bb9 \
0100004400000101000000000000000100000001 server 0000010c4000000c00001394",
        ended: None,
        closed: false,
    },
    // Five services: 5012, and nothing is posted.
    AnswerRow {
        pieces: &[
            CER,
            "010000e8c0000110000000040000000700000007 client context initial \
000001c840000014000001b04000000c00000001 000001c840000014000001b04000000c00000002 \
000001c840000014000001b04000000c00000003 000001c840000014000001b04000000c00000004 \
000001c840000014000001b04000000c00000005",
        ],
        posted: GREETED,
        sent: "0100005040000110000000040000000700000007 session server 0000010c4000000c00001394",
        ended: None,
        closed: false,
    },
    // A message, and then a version that isn't 1.
    AnswerRow {
        pieces: &[
            CER,
            "010000bcc0000110000000040000000700000007 client context initial subscriber sixty 02",
        ],
        posted: "\
told 0 p:c.example R-Conn-CER 0=4096 1=1 2=1 3=1 5=1
told 0 p:c.example R-Rcv-Message 0=4096 1=1 2=7 3=7 4=1 5=1 6=1 7=100 9=60 10=3 if 1=1
told 0 p:c.example R-Peer-Disc 0=4096 1=1 if 1=1
",
        sent: "",
        ended: Some(FrameFault::Version),
        closed: true,
    },
    // A message that closes stands before such a fault.
    AnswerRow {
        pieces: &["0100003880000118000000000000000100000001 peer 02"],
        posted: "",
        sent: "",
        ended: None,
        closed: true,
    },
];

/// Whether a row is so.
fn holds(alloc: Global, row: &AnswerRow) -> Result<bool, Fail> {
    let mut lines = connections(alloc)?;
    if !matches!(lines.joined(), Ok(1)) {
        return Ok(false);
    }
    let mut ended = None;
    for words in row.pieces {
        match lines.came(1, joined(alloc, words)?.as_slice()) {
            Ok(came) => ended = came.ended,
            Err(_) => return Ok(false),
        }
    }
    let text = lifted(alloc, &mut lines, 1)?;
    let sent = joined(alloc, row.sent)?;
    let closed = matches!(lines.state(1), Some(LineState::Closed));
    Ok(
        text.as_slice() == row.posted.as_bytes()
            && lines.sent(1) == sent.as_slice()
            && ended == row.ended
            && closed == row.closed,
    )
}

/// The place of the first row that isn't so.
fn wrong_row(alloc: Global) -> Result<Option<usize>, Fail> {
    for (place, row) in ROWS.iter().enumerate() {
        if !holds(alloc, row)? {
            return Ok(Some(place));
        }
    }
    Ok(None)
}

#[test]
fn each_message_is_answered_and_posted(rt: HostRuntime) -> Result<(), Fail> {
    let wrong = wrong_row(rt.alloc())?;
    assert!(rt; wrong.is_none(), "{wrong:?}");
    Ok(())
}
