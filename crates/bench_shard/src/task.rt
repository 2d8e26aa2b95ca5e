//! What a shard is to do next.
ghost use Rattle.std.specs.Prelude.{◌≡◌, ◌<◌, ◌≤◌, ◌==◌, false, IfOk, length};
ghost use Rattle.std.specs.Prelude.{slice_get, slice_index, unwrap_or};
ghost use Rattle.bench_item.specs.Keys.{number_at};
ghost use Rattle.bench_item.specs.declared.limit.TheConstants.{MAX_MACHINES};
ghost use Rattle.bench_spec.specs.Machines.{holds, start};
ghost use Rattle.bench_spec.specs.Refusal.{is_empty};
ghost use Rattle.bench_queue.specs.Inbox.{items_in};
ghost use Rattle.bench_shard.specs.Refusal.{lacks_work_room, work_refusal};
ghost use Rattle.bench_shard.specs.Tasks.{fate_of, page_of};
ghost use Rattle.bench_shard.specs.View.{place_in, state_for, with_paused};

use crate::fault::WorkFault;
use crate::open::{number_at, start};
use crate::state::ShardState;
use bench_item::{Condition, Key, MAX_MACHINES, MAX_WAITING, MachineItem, WORK_ROOM};
use bench_log::{KeptMachineItem, KeptState};
use charge_session::Want;
use std::alloc::AllocError;
use tab_law::PLACES;

/// What is to become of an item.
#[derive(Clone, Copy, PartialEq, Eq)]
pub enum Fate {
    /// There is no room for its machine.
    Busy,
    /// Its condition fails.
    Stale,
    /// Its machine moves.
    Moves,
}

/// What a shard is to do next: its oldest item, and the item's machine.
#[derive(Drop)]
pub struct Task {
    pub item: KeptMachineItem,
    /// The number that the machine has, or gets where it is not there yet.
    pub number: u64,
    /// Where it stands: at its start where it is not there yet.
    pub before: KeptState,
    pub fate: Fate,
    /// What the item asks of the account book: only one that moves its machine asks something.
    pub want: Option<Want>,
}

impl Task {
    /// The page of the account book that it needs, of so many; none where it asks nothing of the book.
    pub fn page(&self, pages: u64) -> Option<u64>
        requires { 0 < pages }
        ensures { result ≡ page_of pages self.now.want }
    {
        match &self.want {
            None => None,
            Some(want) => Some(want.account % pages),
        }
    }
}

/// The number in a register, 0 where there is no such register.
fn register(regs: &[u64; PLACES], place: u8) -> u64
    ensures { result ≡ slice_index regs.now place }
{
    match regs.get(usize::from(place)) {
        None => 0,
        Some(value) => *value,
    }
}

/// Whether an item's condition holds in a machine. Without one no register is read.
fn holds(condition: &Option<Condition>, state: &KeptState) -> bool
    ensures { result ≡ holds condition.now state.now }
{
    match condition {
        None => true,
        Some(condition) => register(&state.show().regs, condition.register) == condition.value,
    }
}

impl ShardState {
    // The number of the machine at a place, or behind all.
    pub(crate) fn number_for(&self, place: usize) -> u64
        requires { place ≤ length self.now.names }
        ensures { result ≡ number_at self.now.number place }
    {
        let _shards = self.peers.shards();
        let _machines = self.names.len();
        number_at(self.number, place)
    }

    // Where the machine at a place stands: at its start behind all.
    pub(crate) fn state_for(&self, place: usize) -> Result<KeptState, AllocError>
        requires { place ≤ length self.now.names }
        ensures { IfOk result (λ state. state
            ≡ unwrap_or (slice_get self.now.states place) (start (number_at self.now.number place))) }
    {
        match self.states.get(place) {
            Some(state) => state.copy(),
            None => KeptState::keep(self.alloc, &start(self.number_for(place))),
        }
    }

    // Where a machine stands: at its start where it is not there.
    pub(crate) fn before(&self, key: &Key) -> Result<KeptState, AllocError>
        ensures { IfOk result (λ state. state ≡ state_for self.now key.now) }
    {
        let place = self.find(self.alloc, key)?.unwrap_or(self.names.len());
        self.state_for(place)
    }

    // What is to become of an item for the machine at that place, if it is there, which stands there.
    pub(crate) fn fate(&self, place: Option<usize>, item: &MachineItem, before: &KeptState) -> Fate
        requires place { place ≡ place_in self.now item.now.key }
        requires before { before.now ≡ state_for self.now item.now.key }
        ensures { result ≡ fate_of self.now item.now }
    {
        if place.is_none() && self.names.len() >= MAX_MACHINES {
            return Fate::Busy;
        }
        if holds(&item.condition, before) {
            Fate::Moves
        } else {
            Fate::Stale
        }
    }

    // Whether no item waits.
    fn is_idle(&self) -> bool
        ensures { result ≡ is_empty (items_in self.now.inbox) }
    {
        self.waiting() == 0
    }

    // Whether its outbox lacks the room for the deeds of a step.
    fn lacks_work_room(&self) -> bool
        ensures { result ≡ lacks_work_room self.now }
    {
        self.posted() > MAX_WAITING - WORK_ROOM
    }

    /// Why it would not work if it were not paused, memory and the account book's page aside. Takes no memory.
    pub fn unpaused_refusal(&self) -> Option<WorkFault>
        ensures { result ≡ work_refusal (with_paused self.now false) }
    {
        if self.is_idle() {
            return Some(WorkFault::Nothing);
        }
        if self.lacks_work_room() {
            return Some(WorkFault::Full);
        }
        None
    }

    /// Why it does not work, memory and the account book's page aside; none where it may. Takes no memory.
    pub fn work_refusal(&self) -> Option<WorkFault>
        ensures { result ≡ work_refusal self.now }
    {
        if self.paused {
            return Some(WorkFault::Paused);
        }
        self.unpaused_refusal()
    }
}
