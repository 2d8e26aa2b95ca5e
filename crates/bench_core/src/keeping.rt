//! All of a world but its callbacks.

use acct_book::Page;
use bench_line::Lines;
use bench_log::Log;
use bench_move::Roles;
use bench_open::Account;
use bench_queue::Outbox;
use bench_shard::ShardState;
use bench_undo::UndoLog;
use line_message::Listener;
use std::alloc::Global;
use std::marker::Model;
use tick_wheel::Wheel;

/// All of a world but its callbacks. A contract sees what it was opened with, its log, and which shards are paused.
pub struct Core {
    pub(crate) alloc: Global,
    pub(crate) roles: Roles,
    pub(crate) accounts: Vec<Account>,
    pub(crate) page_count: u64,
    pub(crate) desk_count: u32,
    pub(crate) shards: Vec<ShardState>,
    // That of the clock, and then of each desk.
    pub(crate) outboxes: Vec<Outbox>,
    pub(crate) lines: Lines<Listener>,
    // Of each line how many of its items were dropped.
    pub(crate) carried: Vec<usize>,
    pub(crate) pages: Vec<Page>,
    pub(crate) wheel: Wheel,
    pub(crate) log: Log,
    pub(crate) undo: UndoLog,
}

// A derived `drop` is proved anew in each crate that holds a world; this one is a call.
impl Drop for Core {
    fn drop(self) {
        let Core {
            alloc: _,
            roles,
            accounts,
            page_count: _,
            desk_count: _,
            shards,
            outboxes,
            lines,
            carried,
            pages,
            wheel,
            log,
            undo,
        } = self;
    }
}

impl Model for Core {
    ghost use Rattle.bench_spec.specs.Taken.{Run};

    ghost Value = { Run };

    ghost use Rattle.bench_core.specs.Inside.{IsSound, run_in};

    ghost view = { run_in };

    ghost invariant = { IsSound };
}
