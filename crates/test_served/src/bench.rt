//! Benches in threads as tests start, tell, look at and end them.

use bench_item::Key;
use bench_live::{Live, LiveDesk, Parts};
use bench_open::Config;
use std::alloc::Global;
use std::sync::{Arc, Wait};
use std::test::Fail;
use std::thread;
use std::thread::Threads;
use std::time::{Clock, Duration};
use tab_call::Registry;
use tab_step::Event;
use thread_cases::{Hold, LOOKS};

/// Starts a bench.
pub fn started<R: Threads + Wait + Clock + Copy + Drop + Send + Sync + 'static>(
    rt: &R,
    alloc: Global,
    config: Config,
    registries: Vec<Registry>,
    gate: &Arc<Hold<R>, Global>,
) -> Result<(Live, Vec<LiveDesk>), Fail> {
    match Live::start(rt, alloc, config, registries, gate) {
        Ok(started) => Ok(started),
        Err(_) => Err(Fail::new("the bench is started")),
    }
}

/// Ends a bench.
pub fn ended<R: Threads + Wait + Clock>(
    rt: &R,
    live: Live,
    desks: Vec<LiveDesk>,
) -> Result<Parts, Fail> {
    match live.end(rt, desks) {
        Ok(parts) => Ok(parts),
        Err(_) => Err(Fail::new("the bench is ended")),
    }
}

/// The first desk tells a machine. Says whether it could.
pub fn tell<R: Wait>(rt: &R, desks: &mut [LiveDesk], key: &Key, event: &Event) -> bool {
    match desks.get_mut(0) {
        None => false,
        Some(desk) => desk.tell(rt, key, event).is_ok(),
    }
}

/// Where a machine stands, as the first desk sees it.
pub fn state_of<R: Wait>(rt: &R, desks: &mut [LiveDesk], key: &Key) -> Option<u8> {
    let desk = desks.get_mut(0)?;
    match desk.look(rt, key) {
        Ok(look) => Some(look.state),
        Err(_) => None,
    }
}

/// Whether a machine stands in a state, in the end.
pub fn stands<R: Wait + Clock>(rt: &R, desks: &mut [LiveDesk], key: &Key, state: u8) -> bool {
    for _turn in 0..LOOKS {
        if state_of(rt, desks, key) == Some(state) {
            return true;
        }
        thread::sleep(rt, Duration::from_micros(200));
    }
    false
}
