//! A desk and a worker in turns: the worker sleeps in between, or an item waits in its hand.

use crate::bench::{seen, tell_by};
use crate::met::{PEER, count_asked, count_unsent, peer_of, stop_of};
use bench_core::Core;
use bench_item::{Key, MAX_WAITING, Role};
use bench_live::{InThreads, Live, LiveDesk};
use std::alloc::Global;
use std::sync::Wait;
use std::test::Fail;
use std::thread;
use std::thread::{Threads, join};
use std::time::{Clock, Duration};
use tab_law::LawBook;
use tab_step::Event;
use thread_cases::{Hold, LOOKS, begin_of, key_of, right};

/// How often a desk tells once what it told was handled.
const TURNS: u64 = 1_000;

/// How often the other desk looks meanwhile.
const GLANCES: u64 = 300;

/// A desk tells a peer of the second shard, and again once that was handled: its worker, which waits for that with its
/// lock held, is about to sleep then.
fn tell_turns<R: Wait + Clock + Drop>(
    rt: &R,
    gate: &Hold<R>,
    desks: &mut [LiveDesk],
    peer: &Key,
    event: &Event,
) -> bool {
    for turn in 0..TURNS {
        gate.tells();
        if !tell_by(rt, desks, 0, peer, event) || !gate.waits_for(1, turn + 1) {
            return false;
        }
    }
    gate.let_go();
    true
}

/// The first of these desks looks at a machine many times, each a little after workers handled something: the lock of
/// its shard is often held. Says whether it could.
fn look_often<R: Wait + Clock + Drop>(
    rt: &R,
    gate: &Hold<R>,
    desks: &mut [LiveDesk],
    key: &Key,
) -> bool {
    let mut handled = 0;
    for look in 0..GLANCES {
        handled = gate.follows(handled, look * 7 % 100);
        if seen(rt, desks, key).is_none() {
            return false;
        }
    }
    true
}

/// A desk tells a peer in turns with its worker, while another desk looks at it.
fn tell_and_look<R: Threads + Wait + Clock + Drop + Sync>(
    rt: &R,
    gate: &Hold<R>,
    desks: &mut [LiveDesk],
    peer: &Key,
    event: &Event,
) -> bool {
    if desks.len() < 1 {
        return false;
    }
    let (front, back) = desks.split_at_mut(1);
    let (looked, told) = join(
        rt,
        || look_often(rt, gate, back, peer),
        || tell_turns(rt, gate, front, peer, event),
    );
    looked && told
}

/// A desk tells a peer in turns with its worker.
pub fn tell_in_turns<R: Threads + Wait + Clock + Drop + Sync>(
    rt: &R,
    alloc: Global,
    laws: &LawBook,
    gate: &Hold<R>,
    desks: &mut [LiveDesk],
) -> Result<(), Fail> {
    let peer = peer_of(alloc)?;
    let stop = stop_of(laws);
    right(desks.len() == 2, "there are two desks")?;
    right(
        tell_and_look(rt, gate, desks, &peer, &stop),
        "each is handled",
    )
}

/// All that was told in turns is in the log: Told, Lift, Drop and Work.
pub fn are_turns(core: &Core) -> Result<(), Fail> {
    right(
        core.place() as u64 == 4 * TURNS,
        "all that was told is in the log",
    )
}

/// The first desk tells a machine as often as its shard has room, and once more in vain.
fn fill<R: Wait>(rt: &R, desks: &mut [LiveDesk], key: &Key, event: &Event) -> Result<(), Fail> {
    for _item in 0..MAX_WAITING {
        right(tell_by(rt, desks, 0, key, event), "the peer is told")?;
    }
    right(!tell_by(rt, desks, 0, key, event), "the shard is full")
}

/// Whether a machine stands in a state, in the end, by the first desk.
fn stands<R: Wait + Clock>(rt: &R, desks: &mut [LiveDesk], key: &Key, state: u8) -> bool {
    for _turn in 0..LOOKS {
        match seen(rt, desks, key) {
            Some((own, _, _)) if own == state => return true,
            _ => thread::sleep(rt, Duration::from_micros(200)),
        }
    }
    false
}

/// Whether what is looked at of a machine is that an item of the first desk waits in its shard, or none, and that it
/// stands in a state.
fn looks_so<R, B: InThreads<R>>(
    rt: &R,
    bench: &B,
    desks: &[B::Desk],
    key: &Key,
    waits: bool,
    state: u8,
) -> bool {
    let own = match bench.state_of(rt, key) {
        None => None,
        Some(own) => Some(own.state),
    };
    match desks.get(0) {
        None => false,
        Some(desk) => bench.has_waiting(rt, desk, key) == waits && own == Some(state),
    }
}

/// The second shard is paused and full; what a session of the first asks its peer there waits in a worker's hand until
/// the shard goes on. The session hears then that the peer is not connected, and is idle again, as in the first state.
pub fn tell_full<R: Threads + Wait + Clock + Copy + Send + 'static>(
    rt: &R,
    alloc: Global,
    laws: &LawBook,
    live: &Live,
    desks: &mut [LiveDesk],
) -> Result<(), Fail> {
    let (peer, session) = (peer_of(alloc)?, key_of(alloc, Role::Client, "c1;1")?);
    right(live.pause(rt, 1), "the second shard is paused")?;
    fill(rt, desks, &peer, &stop_of(laws))?;
    right(
        tell_by(rt, desks, 0, &session, &begin_of(laws, PEER)),
        "the session is told",
    )?;
    right(stands(rt, desks, &session, 1), "the session asks its peer")?;
    thread::sleep(rt, Duration::from_millis(20));
    right(
        seen(rt, desks, &session) == Some((1, 0, 1)),
        "it waits for an answer",
    )?;
    right(
        looks_so(rt, live, desks, &peer, true, 0) && looks_so(rt, live, desks, &session, false, 1),
        "what was told waits at the peer alone",
    )?;
    right(live.resume(rt, 1), "the second shard goes on")?;
    right(stands(rt, desks, &session, 0), "the session is idle again")?;
    right(
        looks_so(rt, live, desks, &peer, false, 0),
        "all that was told was handled",
    )
}

/// All that was told is in the log, and the session asked once, and heard once that the peer is not connected.
pub fn are_full(alloc: Global, laws: &LawBook, core: &Core) -> Result<(), Fail> {
    right(
        core.place() > 4 * MAX_WAITING,
        "all that was told is in the log",
    )?;
    right(
        count_asked(alloc, laws, core)? == 1,
        "the session asked its peer",
    )?;
    right(
        count_unsent(alloc, laws, core)? == 1,
        "the session heard that its peer is not connected",
    )
}
