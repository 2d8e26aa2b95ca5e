//! A gate that holds workers, and counts what they handle.

use bench_live::{Gate, Point};
use std::sync::atomic::{AtomicU64, Ordering};
use std::thread;
use std::time::{Clock, Duration};

/// The most turns that anybody waits, of which each but the first rests a microsecond.
const TURNS: u64 = 400_000;

/// How often somebody looks before it rests.
const SPINS: u64 = 20_000;

/// What holds workers.
#[derive(Clone, Copy, PartialEq, Eq)]
pub enum Held {
    /// The worker of shard 0 before it works, until that of shard 1 handled an item.
    UntilOther,
    /// Each worker once it handled an item, with its lock, until the other has.
    UntilBoth,
    /// A worker before it works, once it handled an item, until it is let go.
    UntilLetGo,
    /// The worker of shard 1 once it handled an item, with its lock, until somebody is about to tell; and a little
    /// longer, each time another while.
    UntilTold,
    /// Nobody.
    Nobody,
}

/// A gate that holds workers, and counts.
#[derive(Drop)]
pub struct Hold<R: Clock + Drop> {
    rt: R,
    held: Held,
    // Of each of two shards how many items its worker handled.
    handled: [AtomicU64; 2],
    // How often somebody was about to tell.
    telling: AtomicU64,
    // 1 once workers are let go.
    let_go: AtomicU64,
    // How often somebody waited all its turns.
    late: AtomicU64,
}

impl<R: Clock + Drop> Hold<R> {
    pub fn new(rt: R, held: Held) -> Hold<R> {
        Hold {
            rt,
            held,
            handled: [AtomicU64::new(0), AtomicU64::new(0)],
            telling: AtomicU64::new(0),
            let_go: AtomicU64::new(0),
            late: AtomicU64::new(0),
        }
    }

    // Rests, but in the first turns.
    fn rest(&self, turn: u64) {
        if turn >= SPINS {
            thread::sleep(&self.rt, Duration::from_micros(1));
        }
    }

    // Looks at a count so many times: a short while, without rest.
    fn spin(&self, times: u64) -> u64 {
        let mut last = 0;
        for _spin in 0..times {
            last = self.telling.load(Ordering::SeqCst);
        }
        last
    }

    /// How many items the worker of a shard handled.
    pub fn count(&self, shard: u32) -> u64 {
        match self.handled.get(shard as usize) {
            None => 0,
            Some(count) => count.load(Ordering::SeqCst),
        }
    }

    // How many items both workers handled.
    fn count_both(&self) -> u64 {
        self.count(0).saturating_add(self.count(1))
    }

    // Whether a worker at a point may go on.
    fn may_pass(&self, point: Point) -> bool {
        match (self.held, point) {
            (Held::UntilOther, Point::BeforeWork(0)) => self.count(1) > 0,
            (Held::UntilBoth, Point::AfterWork(shard)) => self.count(1 - shard.min(1)) > 0,
            (Held::UntilLetGo, Point::BeforeWork(shard)) => {
                self.count(shard) == 0 || self.let_go.load(Ordering::SeqCst) > 0
            }
            (Held::UntilTold, Point::AfterWork(1)) => {
                self.telling.load(Ordering::SeqCst) > self.count(1)
                    || self.let_go.load(Ordering::SeqCst) > 0
            }
            _ => true,
        }
    }

    /// Waits until the worker of a shard handled so many items. Says whether it did.
    pub fn waits_for(&self, shard: u32, handled: u64) -> bool {
        for turn in 0..TURNS {
            if self.count(shard) >= handled {
                return true;
            }
            self.rest(turn);
        }
        false
    }

    /// Waits, a short while at most and without rest, until the workers handled more than so many items, and then a
    /// little longer. Answers how many they handled.
    pub fn follows(&self, handled: u64, longer: u64) -> u64 {
        let mut count = self.count_both();
        for _spin in 0..SPINS {
            if count > handled {
                break;
            }
            count = self.count_both();
        }
        self.spin(longer);
        count
    }

    /// Somebody is about to tell.
    pub fn tells(&self) {
        self.telling.fetch_add(1, Ordering::SeqCst);
    }

    /// All workers may go on.
    pub fn let_go(&self) {
        self.let_go.store(1, Ordering::SeqCst);
    }

    /// Whether a worker waited all its turns.
    pub fn was_late(&self) -> bool {
        self.late.load(Ordering::SeqCst) > 0
    }

    // Waits until a worker at a point may go on.
    fn waits_at(&self, point: Point) {
        for turn in 0..TURNS {
            if self.may_pass(point) {
                return;
            }
            self.rest(turn);
        }
        self.late.fetch_add(1, Ordering::SeqCst);
    }
}

impl<R: Clock + Drop> Gate for Hold<R> {
    fn pass(&self, point: Point) {
        if let Point::AfterWork(shard) = point {
            if let Some(count) = self.handled.get(shard as usize) {
                count.fetch_add(1, Ordering::SeqCst);
            }
        }
        self.waits_at(point);
        if self.held == Held::UntilTold {
            self.spin(self.count(1) % 256);
        }
    }
}
