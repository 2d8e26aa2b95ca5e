//! A bench in threads is fed with what happens to connections.

use base_list::Octets;
use bench_core::Core;
use bench_item::{LineState, Step};
use bench_live::{InThreads, Live, Parts};
use std::alloc::Global;
use std::sync::Wait;
use std::test::Fail;
use std::thread::Threads;
use std::time::Clock;
use thread_cases::right;

/// A Device-Watchdog-Request of `a.example` (RFC 6733 section 5.5.1).
const WATCHDOG: &[u8; 56] =
    b"\x01\x00\x00\x38\x80\x00\x01\x18\x00\x00\x00\x00\x00\x00\x00\x01\x00\x00\x00\x01\
\x00\x00\x01\x08\x40\x00\x00\x11a.example\x00\x00\x00\x00\x00\x01\x28\x40\x00\x00\x0fexample\x00";

/// Octets come on a connection. Says whether that is taken.
fn comes<R: Wait>(
    rt: &R,
    alloc: Global,
    live: &mut Live,
    line: u32,
    octets: &[u8],
) -> Result<bool, Fail> {
    let piece = Octets::from_slice(alloc, octets)?;
    Ok(live.feed(rt, Step::Came { line, piece }).is_ok())
}

/// A connection is accepted, and lost after half a message.
fn feed_pieces<R: Wait>(rt: &R, alloc: Global, live: &mut Live) -> Result<(), Fail> {
    right(
        live.feed(rt, Step::Joined).is_ok(),
        "a connection is accepted",
    )?;
    right(
        comes(rt, alloc, live, 1, b"\x01\x00\x00")?,
        "half a message comes",
    )?;
    right(live.feed(rt, Step::Lost(1)).is_ok(), "it is lost")?;
    right(
        live.feed(rt, Step::Lost(1)).is_err(),
        "it can't be lost once more",
    )?;
    right(
        live.feed(rt, Step::Work(0)).is_err(),
        "a shard's step is refused",
    )
}

/// Whether a connection is open.
fn is_open(state: Option<LineState>) -> bool {
    match state {
        Some(LineState::Open) => true,
        Some(LineState::Dialling { .. } | LineState::Closed) | None => false,
    }
}

/// Whether a connection is closed.
fn is_closed(state: Option<LineState>) -> bool {
    match state {
        Some(LineState::Closed) => true,
        Some(LineState::Dialling { .. } | LineState::Open) | None => false,
    }
}

/// Whether what is looked at of a bench without desks is so many entries, for each of which a stamp was drawn, and so
/// many connections, of which these sent something or are closed.
fn looks_so<R, B: InThreads<R>>(
    rt: &R,
    bench: &B,
    entries: usize,
    lines: usize,
    news: [bool; 3],
) -> bool {
    let mut marks = [true; 3];
    let count = bench.survey(rt, &[], &mut marks);
    let is_drawn = bench.drawn() >= entries as u64;
    is_drawn
        && count == lines
        && marks[..count.min(3)] == news[..count.min(3)]
        && bench.entries(rt) == entries
}

/// A connection is accepted whose first message is no Capabilities-Exchange-Request: it is closed, without an answer.
fn feed_stranger<R: Threads + Wait + Clock + Copy + Send + 'static>(
    rt: &R,
    alloc: Global,
    live: &mut Live,
) -> Result<(), Fail> {
    right(live.feed(rt, Step::Joined).is_ok(), "another is accepted")?;
    right(is_open(live.line(rt, 2)), "it is open")?;
    right(
        looks_so(rt, live, 4, 2, [true, false, false]),
        "one is closed, and nothing was sent",
    )?;
    right(comes(rt, alloc, live, 2, WATCHDOG)?, "a message comes")?;
    right(is_closed(live.line(rt, 2)), "it is closed")?;
    let mut buffer = [0u8; 8];
    right(live.unsent(rt, 2, 0, &mut buffer) == 0, "nothing is sent")
}

/// Both of these.
pub fn feed_both<R: Threads + Wait + Clock + Copy + Send + 'static>(
    rt: &R,
    alloc: Global,
    live: &mut Live,
) -> Result<(), Fail> {
    feed_pieces(rt, alloc, live)?;
    feed_stranger(rt, alloc, live)?;
    right(
        looks_so(rt, live, 5, 2, [true, true, false]),
        "both are closed",
    )
}

/// The five steps that were taken are all that there is.
pub fn is_fed(parts: &Parts, core: &Core) -> Result<(), Fail> {
    right(
        parts.fed.len() == 5 && parts.lines.len() == 5,
        "five steps are kept",
    )?;
    right(
        core.place() == 5 && core.lines() == 2,
        "five steps are in the log",
    )
}
