//! What a bench hands over at its end.
ghost use Rattle.std.specs.Prelude.{◌≡◌, ◌≤◌, [], IfOk, map, vec_capacity, vec_len};

use crate::desk::LiveDesk;
use crate::shared::ShardLock;
use acct_book::Page;
use bench_desk::{Desk, ShardPart};
use bench_item::Step;
use live_parts::{ClockPart, LinesPart};
use std::alloc::{AllocError, Global};
use tab_call::Registry;

/// What a bench that ran in threads hands over at its end: its shards with their callbacks and its pages, by their
/// numbers, its connections and its timers, the desks as they were handed in, and the steps that were fed and taken, in
/// order.
pub struct Parts {
    pub shards: Vec<ShardPart>,
    pub registries: Vec<Registry>,
    pub pages: Vec<Page>,
    pub lines: LinesPart,
    pub clock: ClockPart,
    pub desks: Vec<Desk>,
    pub fed: Vec<Step>,
}

impl Drop for Parts {
    fn drop(self) {
        let Parts {
            shards,
            registries,
            pages,
            lines,
            clock,
            desks,
            fed,
        } = self;
    }
}

/// What threads logged, and the pages: what is handed over, but for the callbacks.
pub struct Logged {
    pub shards: Vec<ShardPart>,
    pub pages: Vec<Page>,
    pub lines: LinesPart,
    pub clock: ClockPart,
    pub desks: Vec<Desk>,
    pub fed: Vec<Step>,
}

impl Drop for Logged {
    fn drop(self) {
        let Logged {
            shards,
            pages,
            lines,
            clock,
            desks,
            fed,
        } = self;
    }
}

impl Parts {
    /// The same without the callbacks.
    pub fn into_logged(self) -> Logged
        ensures shards { result.shards.items ≡ self.shards.items }
        ensures pages { result.pages.items ≡ self.pages.items }
        ensures lines { result.lines ≡ self.lines }
        ensures clock { result.clock ≡ self.clock }
        ensures desks { result.desks.items ≡ self.desks.items }
        ensures fed { result.fed.items ≡ self.fed.items }
    {
        let Parts {
            shards,
            registries,
            pages,
            lines,
            clock,
            desks,
            fed,
        } = self;
        Logged {
            shards,
            pages,
            lines,
            clock,
            desks,
            fed,
        }
    }
}

/// Room for what is handed over.
pub(crate) struct Room {
    pub(crate) shards: Vec<ShardPart>,
    pub(crate) registries: Vec<Registry>,
    pub(crate) desks: Vec<Desk>,
}

impl Room {
    pub(crate) fn new(alloc: Global, shards: usize, desks: usize) -> Result<Room, AllocError>
        ensures shards { IfOk result (λ room. (room.shards.items ≡ []) × (shards ≤ vec_capacity room.shards)) }
        ensures registries { IfOk result (λ room. (room.registries.items ≡ [])
            × (shards ≤ vec_capacity room.registries)) }
        ensures desks { IfOk result (λ room. (room.desks.items ≡ []) × (desks ≤ vec_capacity room.desks)) }
    {
        Ok(Room {
            shards: Vec::with_capacity(alloc, shards)?,
            registries: Vec::with_capacity(alloc, shards)?,
            desks: Vec::with_capacity(alloc, desks)?,
        })
    }
}

/// The desks, without the bench.
pub(crate) fn take_desks(desks: Vec<LiveDesk>, room: Vec<Desk>) -> Vec<Desk>
    requires empty { room.items ≡ [] }
    requires room { vec_len desks ≤ vec_capacity room }
    ensures { result.items ≡ map (λ d. d.desk) desks.items }
{
    let mut own = room;
    for desk in desks {
        own.push(desk.into_desk()).unwrap();
    }
    own
}

/// The shards and their callbacks, out of their locks.
pub(crate) fn take_shards(
    locks: Vec<ShardLock>,
    shards: Vec<ShardPart>,
    registries: Vec<Registry>,
) -> (Vec<ShardPart>, Vec<Registry>)
    requires empty { (shards.items ≡ []) × (registries.items ≡ []) }
    requires room { (vec_len locks ≤ vec_capacity shards) × (vec_len locks ≤ vec_capacity registries) }
    ensures count { vec_len result.0 ≡ vec_len locks }
    ensures laws { map (λ r. r.book) result.1.items ≡ map (λ s. s.tables.laws) result.0.items }
{
    let mut parts = shards;
    let mut calls = registries;
    for lock in locks {
        let (part, registry) = lock.into_slot().into_parts();
        parts.push(part).unwrap();
        calls.push(registry).unwrap();
    }
    (parts, calls)
}
