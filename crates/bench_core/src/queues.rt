//! What waits, how many machines there are, and how many desks.
ghost use Rattle.std.specs.Prelude.{◌≡◌, ◌<◌, ◌≤◌, [], IfOk, None, Some, length, option_map};
ghost use Rattle.std.specs.Prelude.{option_copied, option_to_list, slice_get, true};
ghost use Rattle.std.specs.Option.{option_map_or};
ghost use Rattle.bench_queue.specs.Inbox.{items_in};
ghost use Rattle.bench_spec.specs.Refusal.{is_source};
ghost use Rattle.bench_spec.specs.Taken.{shown};

use crate::keeping::Core;
use bench_carry::{hand_item, hand_kept};
use bench_item::{Item, MachineItem, Series, Source};
use bench_log::KeptItem;
use bench_shard::ShardState;
use std::alloc::{AllocError, Global};

/// How many machines the shard of that number has, if it is there.
fn machines_in(shards: &[ShardState], shard: u32) -> Option<usize>
    ensures { result ≡ option_map (λ v. length v.names) (slice_get shards.now shard) }
{
    match shards.get(shard as usize) {
        None => None,
        Some(own) => Some(own.machines()),
    }
}

/// The items that wait at the shard of that number, oldest first; none where it is not there.
fn inbox_in(
    alloc: Global,
    shards: &[ShardState],
    shard: u32,
) -> Result<Series<MachineItem>, AllocError>
    ensures { IfOk result (λ items. items ≡ option_map_or (λ v. items_in v.inbox) (slice_get shards.now shard) []) }
{
    match shards.get(shard as usize) {
        None => Ok(Series::empty(alloc)),
        Some(own) => own.items(alloc),
    }
}

impl Core {
    /// How many desks there are: they have the numbers from 0 on. Takes no memory.
    pub fn desks(&self) -> u32
        ensures { result ≡ self.now.settings.desks }
    {
        self.desk_count
    }

    /// How many machines a shard has, if it is there:
    /// that at place `k` has the number `shard · 4,096 + k`, and `key` has its key. Takes no memory.
    pub fn machines(&self, shard: u32) -> Option<usize>
        ensures there { shard < self.now.settings.node.shards
            → result ≡ Some (length ((shown self.now).machines shard)) }
        ensures none { self.now.settings.node.shards ≤ shard → result ≡ None }
    {
        machines_in(&self.shards, shard)
    }

    /// The items that wait at a shard, oldest first; none where it is not there.
    pub fn inbox(&self, shard: u32) -> Result<Series<MachineItem>, AllocError>
        ensures there { IfOk result (λ items. shard < self.now.settings.node.shards
            → items ≡ (shown self.now).inbox_of shard) }
        ensures none { IfOk result (λ items. self.now.settings.node.shards ≤ shard → items ≡ []) }
    {
        inbox_in(self.alloc, &self.shards, shard)
    }

    /// The item in a source's hand, if one lies there: lifted, and not dropped yet.
    /// Looked at only where the source is there.
    pub fn hand(&self, source: Source) -> Result<Option<Item>, AllocError>
        ensures { IfOk result (λ item. is_source self.now.settings self.now.log source ≡ true
            → option_to_list item ≡ (shown self.now).hand_of source) }
    {
        hand_item(
            self.alloc,
            &self.shards,
            &self.outboxes,
            &self.lines,
            &self.carried,
            source,
        )
    }

    /// The same as it is kept. Takes no memory.
    pub fn hand_kept(&self, source: Source) -> Option<&KeptItem>
        ensures { is_source self.now.settings self.now.log source ≡ true
            → option_to_list (option_copied result) ≡ (shown self.now).hand_of source }
    {
        hand_kept(
            &self.shards,
            &self.outboxes,
            &self.lines,
            &self.carried,
            source,
        )
    }
}
