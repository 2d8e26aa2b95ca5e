//! The machines that entries bring into the directory of a shard.
ghost use Rattle.std.specs.Prelude.{◌≡◌, ◌<◌, ◌≤◌, ◌++◌, ◌∷◌, [], IfOk, List, OnOk, option_to_list, position};
ghost use Rattle.std.specs.List.{list_any};
ghost use Rattle.bench_item.specs.Keys.{home};
ghost use Rattle.bench_item.specs.declared.entry.Entry.{Entry as LogEntry};
ghost use Rattle.bench_item.specs.declared.limit.TheConstants.{MAX_SHARDS};
ghost use Rattle.bench_looks.specs.Before.{before};
ghost use Rattle.bench_looks.specs.Brought.{AreBrought, BringsKeys};
ghost use Rattle.bench_looks.specs.Tallies.{is_key};
ghost use Rattle.bench_parts.specs.Views.{kept_in};
ghost use Rattle.bench_spec.specs.Machines.{directory};

use crate::before::{entry_before, places};
use crate::key::{copy_key, taken_key};
use bench_core::Core;
use bench_item::{Entry, Key, home, is_same_key};
use bench_parts::Lent;
use std::alloc::{AllocError, Global};

/// The first place of a machine among these.
pub(crate) fn place_of(keys: &[Key], key: &Key) -> Option<usize>
    ensures { result ≡ position (is_key key.now) keys.now }
{
    keys.iter().position(|own| is_same_key(own, key))
}

/// Whether a machine is that of a peer, or among these.
fn is_known(core: &Core, keys: &[Key], key: &Key) -> bool
    requires { core.now.log ≡ [] }
    ensures { result ≡ list_any (is_key key.now)
        (directory core.now.settings.node (home core.now.settings.node.shards key.now.name) [] ++ keys.now) }
{
    core.number_of(key).is_some() || place_of(keys, key).is_some()
}

/// Adds a machine that is of the shard, unless it is known there.
fn add_key(
    alloc: Global,
    core: &Core,
    keys: &mut Vec<Key>,
    shard: usize,
    key: &Key,
) -> Result<(), AllocError>
    requires opening { core.now.log ≡ [] }
    requires some { 0 < core.now.settings.node.shards }
    requires few { core.now.settings.node.shards ≤ MAX_SHARDS }
    ensures { OnOk result (BringsKeys core.now.settings.node shard keys.old.items (key.now ∷ []) keys.new.items) }
{
    if home(core.shards(), key) != shard {
        return Ok(());
    }
    if is_known(core, keys, key) {
        return Ok(());
    }
    let key = copy_key(alloc, key)?;
    keys.push(key)?;
    Ok(())
}

/// Adds the machine that an entry, if there is one, brings into the directory of a shard.
fn add_brought(
    alloc: Global,
    core: &Core,
    keys: &mut Vec<Key>,
    shard: usize,
    entry: &Option<Entry>,
) -> Result<(), AllocError>
    requires opening { core.now.log ≡ [] }
    requires some { 0 < core.now.settings.node.shards }
    requires few { core.now.settings.node.shards ≤ MAX_SHARDS }
    ensures { OnOk result ((log : List LogEntry) → AreBrought core.now.settings.node shard log keys.old.items
        → AreBrought core.now.settings.node shard (log ++ option_to_list entry.now) keys.new.items) }
{
    let Some(entry) = entry else {
        return Ok(());
    };
    match taken_key(entry) {
        None => Ok(()),
        Some(key) => add_key(alloc, core, keys, shard, key),
    }
}

/// The machines that entries of a part that were stamped before bring into the directory of a shard, behind its peers.
pub(crate) fn brought(
    alloc: Global,
    core: &Core,
    part: &Lent<'_>,
    stamp: u64,
    shard: usize,
) -> Result<Vec<Key>, AllocError>
    requires opening { core.now.log ≡ [] }
    requires some { 0 < core.now.settings.node.shards }
    requires few { core.now.settings.node.shards ≤ MAX_SHARDS }
    ensures { IfOk result (λ keys.
        AreBrought core.now.settings.node shard (before stamp (kept_in part.now)) keys.items) }
{
    let mut keys = Vec::new(alloc);
    let end = places(part);
    for place in 0..end {
        let entry = entry_before(alloc, part, place, stamp)?;
        add_brought(alloc, core, &mut keys, shard, &entry)?;
    }
    Ok(keys)
}
