//! How a lock is taken.
#![tactic(auto)]

use std::sync::{Mutex, MutexGuard, Wait};
use std::thread::yield_now;

/// How often a lock that is held is looked at before a thread sleeps.
const LOOKS: u32 = 100;

/// Takes a lock. Who finds it held lets other threads run and looks again, `LOOKS` times in all, and only then sleeps:
/// most holds are over before a sleeper would be awake.
pub fn hold<'a, R: Wait, T>(rt: &R, lock: &'a Mutex<T>) -> MutexGuard<'a, T> {
    for _ in 0..LOOKS {
        if let Some(guard) = lock.try_lock() {
            return guard;
        }
        yield_now();
    }
    lock.lock(rt)
}
