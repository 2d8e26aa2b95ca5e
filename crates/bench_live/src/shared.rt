//! What threads share, each part behind its lock.
ghost use Rattle.std.specs.Prelude.{◌≡◌, nat_lt, vec_len};

use crate::slot::Slot;
use acct_book::Page;
use acct_pages::Pages;
use live_parts::{ClockPart, LinesPart};
use live_slot::ClockSlot;
use std::alloc::Global;
use std::sync::atomic::AtomicU64;
use std::sync::{Condvar, Mutex, Wait};

/// A shard behind its lock, and where its worker sleeps.
pub struct ShardLock {
    pub(crate) slot: Mutex<Slot>,
    pub(crate) moved: Condvar,
}

// A derived `drop` is proved anew in each crate that holds a lock; this one is a call.
impl Drop for ShardLock {
    fn drop(self) {
        let ShardLock { slot, moved } = self;
    }
}

/// All that threads share.
///
/// In: `tell`, `take`, `set_paused`, `say_all`. Looks: `look`; `state` and `unsent` of a connection.
pub struct Shared {
    pub(crate) alloc: Global,
    pub shards: Vec<ShardLock>,
    pub pages: Pages,
    pub(crate) lines: Mutex<LinesPart>,
    pub(crate) clock: Mutex<ClockSlot>,
    pub(crate) ticked: Condvar,
    pub(crate) stamps: AtomicU64,
}

impl Drop for Shared {
    fn drop(self) {
        let Shared {
            alloc: _,
            shards,
            pages,
            lines,
            clock,
            ticked,
            stamps,
        } = self;
    }
}

/// All parts, out of their locks but for the shards.
pub struct Inside {
    pub shards: Vec<ShardLock>,
    pub pages: Vec<Page>,
    pub lines: LinesPart,
    pub clock: ClockPart,
}

impl ShardLock {
    /// A shard, behind its lock.
    pub fn new(slot: Slot) -> ShardLock {
        ShardLock {
            slot: Mutex::new(slot),
            moved: Condvar::new(),
        }
    }

    /// What is behind the lock.
    pub fn into_slot(self) -> Slot {
        let ShardLock { slot, moved } = self;
        slot.into_inner()
    }

    // Says to its worker that there may be room, or that the bench ends.
    fn say<R: Wait>(&self, rt: &R, ending: bool) {
        let mut slot = self.slot.lock(rt);
        slot.say(ending);
        self.moved.notify_all();
    }

    // Stops, or goes on.
    fn set_paused<R: Wait>(&self, rt: &R, paused: bool) {
        let mut slot = self.slot.lock(rt);
        slot.set_paused(paused);
        self.moved.notify_all();
    }
}

impl Shared {
    /// The parts of a bench, each behind its lock. No stamp was drawn yet.
    pub fn new(
        alloc: Global,
        shards: Vec<ShardLock>,
        pages: Pages,
        lines: LinesPart,
        clock: ClockPart,
    ) -> Shared
        ensures shards { result.shards.items ≡ shards.items }
        ensures pages { result.pages ≡ pages }
    {
        Shared {
            alloc,
            shards,
            pages,
            lines: Mutex::new(lines),
            clock: Mutex::new(ClockSlot::new(clock)),
            ticked: Condvar::new(),
            stamps: AtomicU64::new(0),
        }
    }

    /// All parts, out of their locks but for the shards.
    pub fn into_inside(self) -> Inside
        ensures shards { result.shards.items ≡ self.shards.items }
        ensures pages { vec_len result.pages ≡ self.pages }
    {
        let Shared {
            alloc: _,
            shards,
            pages,
            lines,
            clock,
            ticked,
            stamps: _,
        } = self;
        let clock = clock.into_inner();
        Inside {
            shards,
            pages: pages.into_pages(),
            lines: lines.into_inner(),
            clock: clock.into_part(),
        }
    }

    /// Says to all workers and to the timers' thread that there may be room for what they have in hand, or that the
    /// bench ends.
    pub fn say_all<R: Wait>(&self, rt: &R, ending: bool) {
        for shard in &self.shards {
            shard.say(rt, ending);
        }
        let mut clock = self.clock.lock(rt);
        clock.say(ending);
        self.ticked.notify_all();
    }

    /// A shard stops, or goes on. Says whether there is one of that number.
    pub fn set_paused<R: Wait>(&self, rt: &R, shard: u32, paused: bool) -> bool
        ensures { result ≡ nat_lt shard (vec_len self.now.shards) }
    {
        match self.shards.get(shard as usize) {
            None => false,
            Some(own) => {
                own.set_paused(rt, paused);
                true
            }
        }
    }
}
