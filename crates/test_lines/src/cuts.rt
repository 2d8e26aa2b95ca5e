//! However octets come in pieces, a connection posts and sends the same.

use crate::node::{CCR, CER, connections, joined, lifted};
use std::alloc::Global;
use std::test::Fail;

/// A CER, a Credit-Control-Request, the same without Service-Context-Id, and a DWR.
fn stream(alloc: Global) -> Result<Vec<u8>, Fail> {
    let mut octets = joined(alloc, CER)?;
    for words in [
        CCR,
        "010000b0c0000110000000040000000700000007 client initial subscriber sixty",
        "0100003880000118000000000000000100000001 peer",
    ] {
        octets.extend_from_slice(joined(alloc, words)?.as_slice())?;
    }
    Ok(octets)
}

/// What is posted of these messages, and what is sent.
const POSTED: &str = "\
told 0 p:c.example R-Conn-CER 0=4096 1=1 2=1 3=1 5=1
told 0 p:c.example R-Rcv-Message 0=4096 1=1 2=7 3=7 4=1 5=1 6=1 7=100 9=60 10=3 if 1=1
told 0 p:c.example R-Rcv-DWR 0=4096 1=1 2=1 3=1 if 1=1
";

const SENT: &str = "\
0100006040000110000000040000000700000007 session server 0000010c4000000c0000138d \
0000011740000010000001cd40000008";

/// Whether the stream in pieces of so many octets behind a first one posts and sends that.
fn is_same(
    alloc: Global,
    octets: &[u8],
    sent: &[u8],
    first: usize,
    size: usize,
) -> Result<bool, Fail> {
    let mut lines = connections(alloc)?;
    if !matches!(lines.joined(), Ok(1)) {
        return Ok(false);
    }
    let mut posted = 0;
    let mut at = 0;
    for _ in 0..octets.len() {
        if at >= octets.len() {
            break;
        }
        let wanted = if at == 0 { first } else { size };
        let end = at.saturating_add(wanted).min(octets.len());
        match lines.came(1, &octets[at..end]) {
            Ok(came) => {
                if came.ended.is_some() {
                    return Ok(false);
                }
                posted = came.posted.saturating_add(posted);
            }
            Err(_) => return Ok(false),
        }
        at = end;
    }
    let text = lifted(alloc, &mut lines, 1)?;
    Ok(posted == 3 && text.as_slice() == POSTED.as_bytes() && lines.sent(1) == sent)
}

/// The first cut at which something else comes of it.
fn wrong_cut(alloc: Global) -> Result<Option<usize>, Fail> {
    let octets = stream(alloc)?;
    let sent = joined(alloc, SENT)?;
    for first in 1..=octets.len() {
        if !is_same(alloc, &octets, &sent, first, octets.len())? {
            return Ok(Some(first));
        }
    }
    if is_same(alloc, &octets, &sent, 1, 1)? {
        Ok(None)
    } else {
        Ok(Some(0))
    }
}

#[test]
fn cut_anywhere_the_same_is_posted_and_sent(rt: HostRuntime) -> Result<(), Fail> {
    let wrong = wrong_cut(rt.alloc())?;
    assert!(rt; wrong.is_none(), "{wrong:?}");
    Ok(())
}
