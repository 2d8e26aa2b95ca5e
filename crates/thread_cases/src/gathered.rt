//! The world of the parts of a bench, and what its log says.

use bench_core::Core;
use bench_gather::gather;
use bench_item::{Item, Key, MAX_SHARDS, Role, Step, is_same_key};
use bench_live::Parts;
use bench_open::Config;
use std::alloc::Global;
use std::test::Fail;
use tab_step::Stepped;

/// The world of parts, opened with the configuration of their bench. Fails where they are not gathered: they disagree.
pub fn world_of(alloc: Global, config: Config, parts: &Parts) -> Result<Core, Fail> {
    let Ok(mut core) = Core::new(alloc, config, &parts.registries) else {
        return Err(Fail::new("the world is opened"));
    };
    if parts.pages.len() as u64 != core.pages() {
        return Err(Fail::new("the parts have each page"));
    }
    let count = core.shards();
    if count == 0 || count > MAX_SHARDS {
        return Err(Fail::new("the world has shards"));
    }
    let lent = parts.lent(alloc)?;
    let mut room = Box::new(alloc, Stepped::new())?;
    match gather(alloc, &mut core, &lent, &parts.fed, &parts.pages, &mut room) {
        Ok(()) => Ok(core),
        Err(_) => Err(Fail::new("the parts are gathered")),
    }
}

/// The machine that an entry told by that desk is of; none where it is another's.
fn told_by(step: &Step, desk: u32) -> Option<&Key> {
    match step {
        Step::Told { desk: own, key, .. } if *own == desk => Some(key),
        _ => None,
    }
}

/// Whether what a desk told, by a log, is one event to each of these machines, in this order.
pub fn has_told(alloc: Global, core: &Core, desk: u32, keys: &[Key]) -> Result<bool, Fail> {
    let mut count = 0;
    for place in 0..core.place() {
        if let Some(step) = core.log().step(place, alloc)? {
            if let Some(key) = told_by(&step, desk) {
                match keys.get(count) {
                    Some(own) if is_same_key(own, key) => count += 1,
                    _ => return Ok(false),
                }
            }
        }
    }
    Ok(count == keys.len())
}

/// Whether an item is for a machine of a role; of one kind alone, where one is named.
fn is_for(item: &Item, role: Role, kind: Option<u8>) -> bool {
    match item {
        Item::ToMachine(item) => {
            item.key.role == role && (kind.is_none() || kind == Some(item.event.kind()))
        }
        _ => false,
    }
}

/// Whether at a place of a log an item for a machine of a role was handled.
fn is_handled(
    alloc: Global,
    core: &Core,
    place: usize,
    role: Role,
    kind: Option<u8>,
) -> Result<bool, Fail> {
    match core.log().step(place, alloc)? {
        Some(Step::Work(_)) => {}
        _ => return Ok(false),
    }
    match core.log().item(place, alloc)? {
        Some(item) => Ok(is_for(&item, role, kind)),
        None => Ok(false),
    }
}

/// How many items for machines of a role were handled, by a log; of one kind alone, where one is named.
pub fn count_handled(
    alloc: Global,
    core: &Core,
    role: Role,
    kind: Option<u8>,
) -> Result<u64, Fail> {
    let mut count: u64 = 0;
    for place in 0..core.place() {
        if is_handled(alloc, core, place, role, kind)? {
            count = count.saturating_add(1);
        }
    }
    Ok(count)
}
