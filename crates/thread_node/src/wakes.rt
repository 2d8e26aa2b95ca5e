//! A worker that sent something wakes the sockets.

use bench_live::{Gate, Point};
use mio::Waker;
use std::sync::atomic::{AtomicBool, Ordering};

/// What ends a wait of the sockets, where they may be waiting.
#[derive(Drop)]
pub struct Wakes {
    waker: Waker,
    // The sockets are about to wait.
    waiting: AtomicBool,
}

impl Wakes {
    /// Nobody waits yet.
    pub fn new(waker: Waker) -> Wakes {
        Wakes {
            waker,
            waiting: AtomicBool::new(false),
        }
    }

    /// The sockets are about to look what was sent, and then to wait: what is sent from now on wakes them.
    pub fn wait(&self) {
        self.waiting.store(true, Ordering::SeqCst);
    }
}

impl Gate for Wakes {
    fn pass(&self, point: Point) {
        if matches!(point, Point::Sent(_)) && self.waiting.swap(false, Ordering::SeqCst) {
            let _woken = self.waker.wake();
        }
    }
}
