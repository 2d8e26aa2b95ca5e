//! What desks tell and see while workers are held, or their shard is paused.

use crate::bench::{seen, state_after, tell_by};
use bench_core::Core;
use bench_item::{Key, Role};
use bench_live::{Live, LiveDesk, Parts};
use std::alloc::Global;
use std::sync::Wait;
use std::test::Fail;
use std::thread;
use std::time::{Clock, Duration};
use tab_law::LawBook;
use thread_cases::{LOOKS, event_of, has_told, key_of, right};

/// A peer of that name.
fn peer_of(alloc: Global, name: &str) -> Result<Key, Fail> {
    key_of(alloc, Role::Peer, name)
}

/// The session, of the first shard.
fn session_of(alloc: Global) -> Result<Key, Fail> {
    key_of(alloc, Role::Client, "c1;1")
}

/// Two desks tell the peers of two shards to start: `b.example` of the first shard, `a.example` of the second.
pub fn tell_two<R: Wait + Clock>(
    rt: &R,
    alloc: Global,
    laws: &LawBook,
    live: &Live,
    desks: &mut [LiveDesk],
) -> Result<(), Fail> {
    let a = peer_of(alloc, "a.example")?;
    let b = peer_of(alloc, "b.example")?;
    let start = event_of(laws, "Start");
    right(tell_by(rt, desks, 0, &b, &start), "b.example is told")?;
    right(tell_by(rt, desks, 1, &a, &start), "a.example is told")?;
    // Told to start, a peer waits for its connection: the second state of the table.
    right(
        state_after(rt, desks, 0, &b) == Some(1),
        "b.example waits for a connection",
    )?;
    right(
        state_after(rt, desks, 1, &a) == Some(1),
        "a.example waits for a connection",
    )?;
    right(has_lines(rt, live, 2), "both are dialled")
}

/// Waits until there are so many connections.
fn has_lines<R: Wait + Clock>(rt: &R, live: &Live, count: usize) -> bool {
    for _turn in 0..LOOKS {
        if live.lines(rt) >= count {
            return true;
        }
        thread::sleep(rt, Duration::from_micros(200));
    }
    false
}

/// Each desk told one peer, and each peer dials.
pub fn are_two(alloc: Global, parts: &Parts, core: &Core) -> Result<(), Fail> {
    right(parts.lines.len() == 2, "the connections have two entries")?;
    let (a, b) = (peer_of(alloc, "a.example")?, peer_of(alloc, "b.example")?);
    right(
        has_told(alloc, core, 0, &[b])?,
        "the first desk told b.example",
    )?;
    right(
        has_told(alloc, core, 1, &[a])?,
        "the second desk told a.example",
    )
}

/// A desk tells a session of a paused shard to begin, and looks; then the shard goes on, and its worker is held once it
/// handled that.
pub fn tell_paused<R: Wait + Clock>(
    rt: &R,
    alloc: Global,
    laws: &LawBook,
    live: &Live,
    desks: &mut [LiveDesk],
) -> Result<(), Fail> {
    let session = session_of(alloc)?;
    right(
        live.pause(rt, 0) && !live.pause(rt, 1),
        "the only shard is paused",
    )?;
    right(
        tell_by(rt, desks, 0, &session, &event_of(laws, "Begin")),
        "the session is told",
    )?;
    thread::sleep(rt, Duration::from_millis(20));
    right(seen(rt, desks, &session) == Some((0, 1, 0)), "that waits")?;
    right(live.resume(rt, 0), "the shard goes on")?;
    right(
        state_after(rt, desks, 0, &session) == Some(1),
        "the session began",
    )?;
    right(
        seen(rt, desks, &session) == Some((1, 0, 1)),
        "that was handled",
    )
}

/// The desk kept what it told and saw, and told one session.
pub fn is_one(alloc: Global, parts: &Parts, core: &Core) -> Result<(), Fail> {
    // Told and Lift, and three looks at least.
    let kept = match parts.desks.get(0) {
        Some(desk) => desk.len(),
        None => 0,
    };
    right(kept >= 5, "the desk kept what it told and saw")?;
    let session = session_of(alloc)?;
    right(
        has_told(alloc, core, 0, &[session])?,
        "the desk told the session",
    )
}
