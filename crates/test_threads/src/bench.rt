//! Benches in threads as tests start, tell, look at and end them.

use bench_desk::Look;
use bench_item::Key;
use bench_live::{Live, LiveDesk, Parts};
use bench_open::Config;
use std::alloc::Global;
use std::sync::{Arc, Wait};
use std::test::Fail;
use std::thread;
use std::thread::Threads;
use std::time::{Clock, Duration};
use tab_call::Registry;
use tab_step::Event;
use thread_cases::{Hold, LOOKS};

/// Starts a bench.
pub fn started<R: Threads + Wait + Clock + Copy + Drop + Send + Sync + 'static>(
    rt: &R,
    alloc: Global,
    config: Config,
    registries: Vec<Registry>,
    gate: &Arc<Hold<R>, Global>,
) -> Result<(Live, Vec<LiveDesk>), Fail> {
    match Live::start(rt, alloc, config, registries, gate) {
        Ok(started) => Ok(started),
        Err(_) => Err(Fail::new("the bench is started")),
    }
}

/// Ends a bench.
pub fn ended<R: Threads + Wait + Clock>(
    rt: &R,
    live: Live,
    desks: Vec<LiveDesk>,
) -> Result<Parts, Fail> {
    match live.end(rt, desks) {
        Ok(parts) => Ok(parts),
        Err(_) => Err(Fail::new("the bench is ended")),
    }
}

/// Tells a machine, by the desk of that number. Says whether it could.
pub fn tell_by<R: Wait>(
    rt: &R,
    desks: &mut [LiveDesk],
    number: usize,
    key: &Key,
    event: &Event,
) -> bool {
    match desks.get_mut(number) {
        None => false,
        Some(desk) => desk.tell(rt, key, event).is_ok(),
    }
}

/// Looks at a machine until one of the desk's items was handled in its shard. None where that does not come to be.
fn look_until<R: Wait + Clock>(rt: &R, desk: &mut LiveDesk, key: &Key) -> Option<Look> {
    for _turn in 0..LOOKS {
        if let Ok(look) = desk.look(rt, key) {
            if look.handled > 0 {
                return Some(look);
            }
        }
        thread::sleep(rt, Duration::from_micros(200));
    }
    None
}

/// Where a machine stands once one of the items of the desk of that number was handled in its shard.
pub fn state_after<R: Wait + Clock>(
    rt: &R,
    desks: &mut [LiveDesk],
    number: usize,
    key: &Key,
) -> Option<u8> {
    let desk = desks.get_mut(number)?;
    let look = look_until(rt, desk, key)?;
    Some(look.state)
}

/// What the first desk sees of a machine: where it stands, and how many of the desk's items wait in its shard and were
/// handled there.
pub fn seen<R: Wait>(rt: &R, desks: &mut [LiveDesk], key: &Key) -> Option<(u8, u64, u64)> {
    let desk = desks.get_mut(0)?;
    match desk.look(rt, key) {
        Ok(look) => Some((look.state, look.waiting, look.handled)),
        Err(_) => None,
    }
}
