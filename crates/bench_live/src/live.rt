//! The bench in threads: looked at, paused, ended.
ghost use Rattle.std.specs.Prelude.{◌≡◌, ◌≤◌, None, IfErr, IfOk, length, map, nat_lt, vec_capacity, vec_len};
ghost use Rattle.std.specs.Arc.{arc_value};
ghost use Rattle.bench_live.specs.Ended.{IsEndFault, is_among, missing};

use crate::desk::LiveDesk;
use crate::fault::{EndFault, NotEnded};
use crate::parts::{Parts, Room, take_desks, take_shards};
use crate::shared::{Inside, Shared};
use crate::start::join_all;
use bench_item::{LineState, Step};
use live_slot::Hand;
use std::alloc::{AllocError, Global};
use std::sync::{Arc, Wait};
use std::thread;
use std::thread::{JoinHandle, Threads};
use std::time::{Clock, Duration};

/// A running bench: its threads, and what belongs to whoever feeds connections.
///
/// In: `feed`, `set_patient`, `joined`, `pause`, `resume`, `end`. Looks: `line`, `lines`, `unsent`.
pub struct Live {
    pub(crate) alloc: Global,
    pub(crate) shared: Arc<Shared, Global>,
    pub(crate) threads: Vec<JoinHandle<()>>,
    pub(crate) desks: u32,
    // Of each connection what it lifted.
    pub(crate) hands: Vec<Option<Hand>>,
    // Whether a drop waits while its shard is at work.
    pub(crate) patient: bool,
    // The steps that were fed and taken, in order.
    pub(crate) fed: Vec<Step>,
}

impl Drop for Live {
    fn drop(self) {
        let Live {
            alloc: _,
            shared,
            threads,
            desks: _,
            hands,
            patient: _,
            fed,
        } = self;
    }
}

/// Whether a desk of that number is among these.
fn is_among(desks: &[LiveDesk], number: u32) -> bool
    ensures { result ≡ is_among (λ d. d.desk) desks.now number }
{
    for own in desks {
        if own.desk().number() == number {
            return true;
        }
    }
    false
}

/// The least number of a desk, of so many, that is not among these.
fn missing(count: u32, desks: &[LiveDesk]) -> Option<u32>
    ensures { result ≡ missing (λ d. d.desk) count desks.now }
{
    for number in 0..count {
        if !is_among(desks, number) {
            return Some(number);
        }
    }
    None
}

impl Live {
    /// Where a connection stands, if there is one of that number.
    pub fn line<R: Wait>(&self, rt: &R, line: u64) -> Option<LineState>
        ensures { line ≡ 0 → result ≡ None }
    {
        self.shared.state(rt, line)
    }

    /// How many connections there are.
    pub fn lines<R: Wait>(&self, rt: &R) -> usize {
        self.shared.line_count(rt)
    }

    /// Copies what a connection sent from a place on, as much as there is and fits, to the front of `out`, and says how
    /// much that is.
    pub fn unsent<R: Wait>(&self, rt: &R, line: u64, from: usize, out: &mut [u8]) -> usize
        ensures { result ≤ length out.new }
    {
        self.shared.unsent(rt, line, from, out)
    }

    /// A shard stops: it handles nothing until it resumes. Says whether there is one of that number.
    pub fn pause<R: Wait>(&self, rt: &R, shard: u32) -> bool
        ensures { result ≡ nat_lt shard (vec_len (arc_value self.now.shared).shards) }
    {
        self.shared.set_paused(rt, shard, true)
    }

    /// A shard goes on. Says whether there is one of that number.
    pub fn resume<R: Wait>(&self, rt: &R, shard: u32) -> bool
        ensures { result ≡ nat_lt shard (vec_len (arc_value self.now.shared).shards) }
    {
        self.shared.set_paused(rt, shard, false)
    }

    /// Ends the bench: each thread is joined, and all parts are handed over as they are, with what desks kept and the
    /// steps that were fed. Refused where a desk is missing, and for memory; the bench then runs on. Waits while a desk
    /// of this bench is elsewhere, which can be only where another bench's was handed in.
    pub fn end<R: Threads + Wait + Clock>(
        self,
        rt: &R,
        desks: Vec<LiveDesk>,
    ) -> Result<Parts, NotEnded>
        ensures could { IfOk result (λ parts. missing (λ d. d.desk) self.desks desks.items ≡ None) }
        ensures desks { IfOk result (λ parts. parts.desks.items ≡ map (λ d. d.desk) desks.items) }
        ensures fed { IfOk result (λ parts. parts.fed.items ≡ self.fed.items) }
        ensures laws { IfOk result (λ parts. map (λ r. r.book) parts.registries.items
            ≡ map (λ s. s.tables.laws) parts.shards.items) }
        ensures shards { IfOk result (λ parts. vec_len parts.shards ≡ vec_len (arc_value self.shared).shards) }
        ensures pages { IfOk result (λ parts. vec_len parts.pages ≡ (arc_value self.shared).pages) }
        ensures fault { IfErr result (λ e. IsEndFault (missing (λ d. d.desk) self.desks desks.items) e.fault) }
        ensures err { IfErr result (λ e. (e.desks ≡ desks) × (e.live ≡ self)) }
    {
        if let Some(number) = missing(self.desks, &desks) {
            return Err(NotEnded {
                fault: EndFault::Missing(number),
                live: self,
                desks,
            });
        }
        match Room::new(self.alloc, self.shared.shards.len(), desks.len()) {
            Ok(room) => {
                let live = self;
                Ok(ended(rt, Ending { live, desks, room }))
            }
            Err(AllocError) => Err(NotEnded {
                fault: EndFault::NoMemory,
                live: self,
                desks,
            }),
        }
    }

    // What its threads share, the threads, and what was fed; what connections lifted is let go.
    fn into_shared(self) -> (Arc<Shared, Global>, Vec<JoinHandle<()>>, Vec<Step>)
        ensures shared { result.0 ≡ self.shared }
        ensures fed { result.2 ≡ self.fed }
    {
        let Live {
            alloc: _,
            shared,
            threads,
            desks: _,
            hands,
            patient: _,
            fed,
        } = self;
        (shared, threads, fed)
    }
}

/// A bench that ends, its desks, and room for all that is handed over.
struct Ending {
    live: Live,
    desks: Vec<LiveDesk>,
    room: Room,
    ghost no_shards: { vec_len room.shards ≡ 0 },
    ghost no_registries: { vec_len room.registries ≡ 0 },
    ghost no_desks: { vec_len room.desks ≡ 0 },
    ghost shards: { vec_len (arc_value live.shared).shards ≤ vec_capacity room.shards },
    ghost registries: { vec_len (arc_value live.shared).shards ≤ vec_capacity room.registries },
    ghost desks_fit: { vec_len desks ≤ vec_capacity room.desks },
}

/// What threads shared, once nobody else has it. Each thread was joined: else only a desk can have it.
fn take_shared<R: Wait + Clock>(rt: &R, shared: Arc<Shared, Global>) -> Shared
    ensures { result ≡ arc_value shared }
{
    let mut left = shared;
    for _ in rt.forever() {
        match Arc::try_unwrap(left) {
            Ok(own) => return own,
            Err(again) => left = again,
        }
        thread::sleep(rt, Duration::from_millis(10));
    }
    unreachable!()
}

/// Ends the bench: each thread is joined, and all parts are taken out of their locks.
fn ended<R: Threads + Wait + Clock>(rt: &R, ending: Ending) -> Parts
    ensures desks { result.desks.items ≡ map (λ d. d.desk) ending.desks.items }
    ensures fed { result.fed.items ≡ ending.live.fed.items }
    ensures laws { map (λ r. r.book) result.registries.items ≡ map (λ s. s.tables.laws) result.shards.items }
    ensures shards { vec_len result.shards ≡ vec_len (arc_value ending.live.shared).shards }
    ensures pages { vec_len result.pages ≡ (arc_value ending.live.shared).pages }
{
    let Ending { live, desks, room } = ending;
    let (shared, threads, fed) = live.into_shared();
    let Room {
        shards,
        registries,
        desks: own_desks,
    } = room;
    shared.say_all(rt, true);
    join_all(rt, threads);
    let desks = take_desks(desks, own_desks);
    let Inside {
        shards: locks,
        pages,
        lines,
        clock,
    } = take_shared(rt, shared).into_inside();
    let (shards, registries) = take_shards(locks, shards, registries);
    Parts {
        shards,
        registries,
        pages,
        lines,
        clock,
        desks,
        fed,
    }
}
