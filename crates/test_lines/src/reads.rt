//! Logs read from their texts.

use crate::logs::{TEXT, machines, text_of};
use base_list::Octets;
use event_text::LinesError;
use log_text::{NameBook, read_log};
use peer_rules::peer_laws;
use std::alloc::Global;
use std::test::Fail;

/// Whether a text is read as a log of so many entries that prints `whole`.
fn is_read(
    alloc: Global,
    names: &NameBook<'_>,
    text: &str,
    whole: &str,
    count: usize,
) -> Result<bool, Fail> {
    let Ok(log) = read_log(alloc, names, text.as_bytes()) else {
        return Ok(false);
    };
    let printed = text_of(alloc, names, &log)?;
    Ok(log.len() == count && printed.as_slice() == whole.as_bytes())
}

/// Texts, what the log prints that is read, and how many entries it has. The newline at the end may be missing.
const READ: &[(&str, &str, usize)] = &[
    (TEXT, TEXT, 14),
    ("", "", 0),
    ("join\n", "join\n", 1),
    ("join", "join\n", 1),
    ("work 0\njoin\n", "work 0\njoin\n", 2),
    ("work 0\n  busy", "work 0\n  busy\n", 1),
    (
        "work 0\n  p:x Start Closed Closed row -\n    Service\n",
        "work 0\n  p:x Start Closed Closed row -\n    Service\n",
        1,
    ),
];

/// Texts with a bad line, and its number: of a step, an item or a deed that there isn't,
/// at the wrong place, or in another spelling.
const BAD: &[(&str, usize)] = &[
    ("joined\n", 1),
    ("join\n\njoin\n", 2),
    ("join\nlost\njoined\n", 2),
    ("join\n  busy\n", 2),
    ("  busy\n", 1),
    ("work 0\n  busy\n  busy\n", 3),
    ("work 0\n  busy\n    Service\n", 3),
    ("work 0\n  p:x Start Closed 1 stale\n", 2),
    ("work 0\n  p:x Start Closed Open row 2\n", 2),
    ("work 0\n  p:x Started Closed 1 row 2\n", 2),
    ("work 0\n  p:x Start Closed 1 row 65536\n", 2),
    ("work 0\n  p:x Start Closed 0 row 2\n", 2),
    ("work 0\n p:x Start Closed 1 row 2\n", 2),
    ("work 0\n  p:x Start Closed 1 row 2\n    Reserve 60\n", 3),
    ("work 0\n  p:x Start Closed 1 row 2\n    Service = 1 0\n", 3),
    ("work 0\n  p:x Start Closed 1 row 2\n    20 60 refused\n", 3),
    ("work 0\n  p:x Start Closed 1 row 2\n    99 1 0\n", 3),
    ("work 0\n  p:x Start Closed 1 row 2\n    99 1\n  busy\n", 4),
];

/// The place of the first text that isn't read so.
fn wrong_text(alloc: Global, names: &NameBook<'_>) -> Result<Option<usize>, Fail> {
    for (place, (text, whole, count)) in READ.iter().enumerate() {
        if !is_read(alloc, names, text, whole, *count)? {
            return Ok(Some(place));
        }
    }
    Ok(None)
}

/// The place of the first text whose bad line isn't told.
fn untold(alloc: Global, names: &NameBook<'_>) -> Option<usize> {
    for (place, (text, line)) in BAD.iter().enumerate() {
        match read_log(alloc, names, text.as_bytes()) {
            Err(LinesError::BadLine(bad)) if bad == *line => {}
            _ => return Some(place),
        }
    }
    None
}

#[test]
fn a_log_is_read_from_its_text(rt: HostRuntime) -> Result<(), Fail> {
    let alloc = rt.alloc();
    let laws = peer_laws(alloc)?;
    let machines = machines(alloc)?;
    let closed = [Octets::from_slice(alloc, b"Closed")?];
    let names = NameBook {
        laws: &laws,
        machines: &machines,
        peer_states: &closed,
        client_states: &[],
        server_states: &[],
    };
    let wrong = wrong_text(alloc, &names)?;
    assert!(rt; wrong.is_none(), "{wrong:?}");
    let untold = untold(alloc, &names);
    assert!(rt; untold.is_none(), "{untold:?}");
    Ok(())
}
