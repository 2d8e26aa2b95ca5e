//! What desks and workers meet at: the locks of shards, which many want at once.

use crate::bench::{seen, tell_by};
use bench_core::Core;
use bench_item::{Key, MAX_MACHINES, Role, home};
use bench_live::LiveDesk;
use std::alloc::Global;
use std::sync::Wait;
use std::test::Fail;
use std::thread;
use std::thread::{Threads, join};
use std::time::{Clock, Duration};
use tab_law::LawBook;
use tab_step::Event;
use thread_cases::{Hold, LOOKS, begin_of, count_handled, event_of, key_of, right};

/// How many events a desk tells one after the other: with those of another less than what may wait in a shard.
const TELLS: u64 = 400;

/// How many sessions ask a peer of another shard.
const SESSIONS: u64 = 200;

/// The number of the machine of the only peer, which is the first of the second shard.
pub const PEER: u64 = MAX_MACHINES as u64;

/// The peer, of the second shard.
pub fn peer_of(alloc: Global) -> Result<Key, Fail> {
    key_of(alloc, Role::Peer, "a.example")
}

/// An event that no row of a closed peer takes: nothing comes of it, no timer either.
pub fn stop_of(laws: &LawBook) -> Event {
    event_of(laws, "Stop")
}

/// The keys of the sessions, all of the first of two shards.
fn sessions_of(alloc: Global) -> Result<Vec<Key>, Fail> {
    let mut keys = Vec::new(alloc);
    for number in 0..8 * SESSIONS {
        let name = format!(in alloc; "c1;{number}")?;
        let key = key_of(alloc, Role::Client, name.as_str())?;
        if home(2, &key) == 0 && (keys.len() as u64) < SESSIONS {
            keys.push(key)?;
        }
    }
    Ok(keys)
}

/// The peer, so many times.
fn peers_of(alloc: Global, count: u64) -> Result<Vec<Key>, Fail> {
    let mut keys = Vec::new(alloc);
    for _one in 0..count {
        keys.push(peer_of(alloc)?)?;
    }
    Ok(keys)
}

/// The first of these desks tells machines an event, one after the other: some at once, some a little after workers
/// handled something. It looks at each fourth. Says whether it could.
fn tell_all<R: Wait + Clock + Drop>(
    rt: &R,
    gate: &Hold<R>,
    desks: &mut [LiveDesk],
    keys: &[Key],
    event: &Event,
) -> bool {
    let mut handled = 0;
    for (place, key) in keys.iter().enumerate() {
        if place / 25 % 2 == 0 {
            handled = gate.follows(handled, place as u64 * 7 % 100);
        }
        if !tell_by(rt, desks, 0, key, event) {
            return false;
        }
        if place % 4 == 0 && seen(rt, desks, key).is_none() {
            return false;
        }
    }
    true
}

/// Two desks tell machines, each one after the other, both at once. Says whether they could.
fn tell_both<R: Threads + Wait + Clock + Drop + Sync>(
    rt: &R,
    gate: &Hold<R>,
    desks: &mut [LiveDesk],
    keys: &[Key],
    event: &Event,
    other_keys: &[Key],
    other_event: &Event,
) -> bool {
    if desks.len() < 1 {
        return false;
    }
    let (front, back) = desks.split_at_mut(1);
    let (one, other) = join(
        rt,
        || tell_all(rt, gate, front, keys, event),
        || tell_all(rt, gate, back, other_keys, other_event),
    );
    one && other
}

/// Two desks tell the same peer many events at once.
pub fn tell_at_once<R: Threads + Wait + Clock + Drop + Sync>(
    rt: &R,
    alloc: Global,
    laws: &LawBook,
    gate: &Hold<R>,
    desks: &mut [LiveDesk],
) -> Result<(), Fail> {
    let peers = peers_of(alloc, TELLS)?;
    let stop = stop_of(laws);
    right(desks.len() == 2, "there are two desks")?;
    right(
        tell_both(rt, gate, desks, &peers, &stop, &peers, &stop),
        "both desks told all",
    )?;
    right(gate.waits_for(1, 2 * TELLS), "all was handled")
}

/// All that two desks told is in the log: Told, Lift, Drop and Work of each.
pub fn are_many(core: &Core) -> Result<(), Fail> {
    right(
        core.place() as u64 == 8 * TELLS,
        "all that was told is in the log",
    )
}

/// Whether the last of these sessions is idle again, in the end: as in the first state of its table, once all that the
/// first desk told them was handled.
fn is_idle_again<R: Wait + Clock>(rt: &R, desks: &mut [LiveDesk], sessions: &[Key]) -> bool {
    let Some(last) = sessions.last() else {
        return false;
    };
    for _turn in 0..LOOKS {
        if seen(rt, desks, last) == Some((0, 0, sessions.len() as u64)) {
            return true;
        }
        thread::sleep(rt, Duration::from_micros(200));
    }
    false
}

/// A desk tells sessions of the first shard to begin, each of which asks the peer of the second, and hears that this is
/// not connected; meanwhile another desk tells that peer.
pub fn tell_crossing<R: Threads + Wait + Clock + Drop + Sync>(
    rt: &R,
    alloc: Global,
    laws: &LawBook,
    gate: &Hold<R>,
    desks: &mut [LiveDesk],
) -> Result<(), Fail> {
    let (sessions, peers) = (sessions_of(alloc)?, peers_of(alloc, TELLS)?);
    let (begin, stop) = (begin_of(laws, PEER), stop_of(laws));
    right(desks.len() == 2, "there are two desks")?;
    right(
        tell_both(rt, gate, desks, &sessions, &begin, &peers, &stop),
        "both desks told all",
    )?;
    right(
        gate.waits_for(1, TELLS + SESSIONS),
        "the peer handled what it was told and asked",
    )?;
    right(gate.waits_for(0, 2 * SESSIONS), "the sessions are answered")?;
    right(
        is_idle_again(rt, desks, &sessions),
        "the last session is idle again",
    )
}

/// How many requests peers were to send.
pub fn count_asked(alloc: Global, laws: &LawBook, core: &Core) -> Result<u64, Fail> {
    let kind = event_of(laws, "Send-Message").kind;
    count_handled(alloc, core, Role::Peer, Some(kind))
}

/// How often sessions heard that a request was not sent.
pub fn count_unsent(alloc: Global, laws: &LawBook, core: &Core) -> Result<u64, Fail> {
    let kind = event_of(laws, "Send-Fail").kind;
    count_handled(alloc, core, Role::Client, Some(kind))
}

/// Each session asked once, and heard that its peer is not connected.
pub fn are_crossing(alloc: Global, laws: &LawBook, core: &Core) -> Result<(), Fail> {
    right(
        count_asked(alloc, laws, core)? == SESSIONS,
        "each session asked its peer",
    )?;
    right(
        count_unsent(alloc, laws, core)? == SESSIONS,
        "each session heard that its peer is not connected",
    )
}
