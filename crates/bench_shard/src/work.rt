//! A shard's work is written, and taken back.
ghost use Rattle.std.specs.Prelude.{◌≡◌, IfOk, OnOk, OnErr};
ghost use Rattle.bench_shard.specs.Works.{Fits, after_work, state_left, taken_back};

use crate::settle::{Settled, settle_left, unsettle};
use crate::state::ShardState;
use acct_totals::Op;
use bench_item::{MachineItem, Series};
use bench_log::{KeptHandled, KeptItem, KeptMachineItem, KeptState};
use std::alloc::AllocError;

/// What a handled item leads to.
#[derive(Drop)]
pub struct Effects {
    /// What the shard puts out, in order.
    pub posts: Vec<KeptItem>,
    /// The operations that the account book is to do, in order.
    pub ops: Series<Op>,
}

/// A shard's oldest item, what becomes of it and what that leads to.
#[derive(Drop)]
pub struct Work {
    pub item: KeptMachineItem,
    pub handled: KeptHandled,
    pub effects: Effects,
}

/// What work changed, for it to be taken back: work is taken back last first.
#[derive(Drop)]
pub struct ShardRecord {
    /// So many items were put out.
    pub posted: usize,
    pub settled: Settled,
}

impl ShardState {
    // Where the machine of a handled item comes to stand.
    fn left(
        &self,
        item: &MachineItem,
        handled: &KeptHandled,
    ) -> Result<Option<KeptState>, AllocError>
        ensures { IfOk result (λ left. left ≡ state_left self.now item.now handled.now) }
    {
        if let Some(moved) = handled.moved() {
            return Ok(Some(moved.after().copy()?));
        }
        if handled.is_stale() {
            return Ok(Some(self.before(&item.key)?));
        }
        Ok(None)
    }

    /// Does the work on its oldest item, which is this one: it is handled, its machine comes to stand where that leaves
    /// it, and what that posts is put out. Where memory is refused nothing changes.
    pub fn commit(
        &mut self,
        item: &MachineItem,
        handled: &KeptHandled,
        posts: Vec<KeptItem>,
    ) -> Result<ShardRecord, AllocError>
        requires { Fits self.old item.now handled.now }
        ensures ok { OnOk result (self.new ≡ after_work self.old item.now handled.now posts.items) }
        ensures undone { IfOk result (λ change. taken_back change self.new ≡ self.old) }
        ensures err { OnErr result (self.new ≡ self.old) }
    {
        let left = self.left(item, handled)?;
        let posted = posts.len();
        self.outbox.reserve(posted)?;
        let settled = settle_left(
            self.alloc,
            &mut self.names,
            &mut self.states,
            &item.key,
            left,
        )?;
        self.outbox.put_all(posts);
        self.inbox.work_one();
        Ok(ShardRecord { posted, settled })
    }

    /// Takes the last work back: the shard is as it was before, but for the memory. Takes no memory.
    pub fn take_back(&mut self, change: ShardRecord)
        ensures { self.new ≡ taken_back change self.old }
    {
        let ShardRecord { posted, settled } = change;
        unsettle(&mut self.names, &mut self.states, settled);
        self.inbox.unwork();
        self.outbox.unput(posted);
    }
}
