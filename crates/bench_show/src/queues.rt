//! What waits in each outbox, hand and inbox.
ghost use Rattle.std.specs.Prelude.{◌≡◌, ◌++◌, ◌-◌, ◌<◌, ◌^◌, OnOk, codes, decimal, flat_map, true};
ghost use Rattle.bench_show.specs.Queues.{event_text, inbox_line, inbox_text, item_text, queue_text, queues_text};
ghost use Rattle.bench_show.specs.Queues.{queues_to, source_at, source_text, waiting_line};
ghost use Rattle.bench_show.specs.Timers.{machine_text};
ghost use Rattle.bench_spec.specs.Refusal.{is_source};
ghost use Rattle.bench_spec.specs.Taken.{shown};

use crate::timers::put_machine;
use crate::why::put_facts;
use base_text::put_number;
use bench_core::Core;
use bench_item::{Item, LineItem, MAX_DESKS, MAX_SHARDS, MachineItem, Source};
use bench_script::line_count;
use event_text::put_deed_words;
use std::alloc::AllocError;
use step_text::{Machines, put_key, put_kind};

/// Sources of one sort, each with a number.
#[derive(Clone, Copy)]
pub(crate) enum Sort {
    Line,
    Shard,
    Desk,
}

/// Whether a source is there.
fn is_source(core: &Core, source: Source) -> bool
    ensures { result ≡ is_source core.now.settings core.now.log source }
{
    match source {
        Source::Line(line) => line > 0 && line as usize <= core.lines(),
        Source::Shard(shard) => (shard as usize) < core.shards(),
        Source::Desk(desk) => desk < core.desks(),
        Source::Clock => true,
    }
}

/// Puts who puts items out.
fn put_source(out: &mut Vec<u8>, source: Source) -> Result<(), AllocError>
    ensures { OnOk result (out.new.items ≡ out.old.items ++ source_text source) }
{
    match source {
        Source::Line(line) => put_number(out, b"line ", u64::from(line)),
        Source::Shard(shard) => put_number(out, b"shard ", u64::from(shard)),
        Source::Desk(desk) => put_number(out, b"desk ", u64::from(desk)),
        Source::Clock => out.extend_from_slice(b"clock"),
    }
}

/// Puts an event that is on its way to a machine.
fn put_event(out: &mut Vec<u8>, core: &Core, item: &MachineItem) -> Result<(), AllocError>
    ensures { OnOk result (out.new.items ≡ out.old.items ++ event_text core.now item.now) }
{
    let none = Machines::new(*out.allocator());
    put_key(out, &item.key)?;
    put_kind(out, core.laws(), &none, item.event.kind())?;
    put_facts(out, &item.event.show().facts)
}

/// Puts a deed that is on its way to a connection.
fn put_to_line(out: &mut Vec<u8>, core: &Core, item: &LineItem) -> Result<(), AllocError>
    ensures { OnOk result (out.new.items ≡ out.old.items ++ item_text core.now (Item.ToLine item.now)) }
{
    put_number(out, b" line ", item.line)?;
    put_deed_words(out, b" ", &item.deed.show())
}

/// Puts a machine, and a word and a number of it.
fn put_of_machine(
    out: &mut Vec<u8>,
    core: &Core,
    machine: u64,
    word: &[u8],
    number: u64,
) -> Result<(), AllocError>
    ensures { OnOk result (out.new.items
        ≡ out.old.items ++ machine_text core.now machine ++ word.now ++ decimal number) }
{
    put_machine(out, core, machine)?;
    put_number(out, word, number)
}

/// Puts an item.
fn put_item(out: &mut Vec<u8>, core: &Core, item: &Item) -> Result<(), AllocError>
    ensures { OnOk result (out.new.items ≡ out.old.items ++ item_text core.now item.now) }
{
    match item {
        Item::ToMachine(item) => put_event(out, core, item),
        Item::ToLine(item) => put_to_line(out, core, item),
        Item::Dial { peer, generation } => put_of_machine(out, core, *peer, b" Dial ", *generation),
        Item::Undial { peer, generation } => {
            put_of_machine(out, core, *peer, b" Undial ", *generation)
        }
        Item::Arm {
            machine,
            generation,
            ticks,
        } => {
            put_of_machine(out, core, *machine, b" Arm ", *generation)?;
            put_number(out, b" ", *ticks)
        }
        Item::Disarm { machine } => {
            put_machine(out, core, *machine)?;
            out.extend_from_slice(b" Disarm")
        }
    }
}

/// Puts an item on a line of its own, behind who put it out and where it waits.
fn put_waiting(
    out: &mut Vec<u8>,
    core: &Core,
    source: Source,
    place: &[u8],
    item: &Item,
) -> Result<(), AllocError>
    ensures { OnOk result (out.new.items ≡ out.old.items ++ waiting_line core.now source place.now item.now) }
{
    put_source(out, source)?;
    out.extend_from_slice(place)?;
    put_item(out, core, item)?;
    out.extend_from_slice(b"\n")
}

/// Puts items that wait at one place.
fn put_items(
    out: &mut Vec<u8>,
    core: &Core,
    source: Source,
    place: &[u8],
    items: &[Item],
) -> Result<(), AllocError>
    ensures { OnOk result (out.new.items
        ≡ out.old.items ++ flat_map (waiting_line core.now source place.now) items.now) }
{
    for item in items {
        put_waiting(out, core, source, place, item)?;
    }
    Ok(())
}

/// Puts what a source has put out and what was not lifted.
fn put_outbox(out: &mut Vec<u8>, core: &Core, source: Source) -> Result<(), AllocError>
    requires { is_source core.now.settings core.now.log source ≡ true }
    ensures { OnOk result (out.new.items ≡ out.old.items
        ++ flat_map (waiting_line core.now source (codes " outbox")) ((shown core.now).outbox_of source)) }
{
    let items = core.outbox(source)?;
    put_items(out, core, source, b" outbox", items.as_slice())
}

/// Puts what is in a source's hand.
fn put_hand(out: &mut Vec<u8>, core: &Core, source: Source) -> Result<(), AllocError>
    requires { is_source core.now.settings core.now.log source ≡ true }
    ensures { OnOk result (out.new.items
        ≡ out.old.items ++ flat_map (waiting_line core.now source (codes " hand")) ((shown core.now).hand_of source)) }
{
    match core.hand(source)? {
        Some(item) => put_waiting(out, core, source, b" hand", &item),
        None => Ok(()),
    }
}

/// Puts an event that waits at a shard.
fn put_arrived(
    out: &mut Vec<u8>,
    core: &Core,
    shard: u32,
    item: &MachineItem,
) -> Result<(), AllocError>
    ensures { OnOk result (out.new.items ≡ out.old.items ++ inbox_line core.now shard item.now) }
{
    put_number(out, b"shard ", u64::from(shard))?;
    out.extend_from_slice(b" inbox")?;
    put_event(out, core, item)?;
    out.extend_from_slice(b"\n")
}

/// Puts events that wait at a shard.
fn put_arrivals(
    out: &mut Vec<u8>,
    core: &Core,
    shard: u32,
    items: &[MachineItem],
) -> Result<(), AllocError>
    ensures { OnOk result (out.new.items ≡ out.old.items ++ flat_map (inbox_line core.now shard) items.now) }
{
    for item in items {
        put_arrived(out, core, shard, item)?;
    }
    Ok(())
}

/// Puts what waits at a shard to be handled.
fn put_shard_inbox(out: &mut Vec<u8>, core: &Core, shard: u32) -> Result<(), AllocError>
    requires { shard < core.now.settings.node.shards }
    ensures { OnOk result (out.new.items
        ≡ out.old.items ++ flat_map (inbox_line core.now shard) ((shown core.now).inbox_of shard)) }
{
    let items = core.inbox(shard)?;
    put_arrivals(out, core, shard, items.as_slice())
}

/// Puts what waits at a source to be handled: other sources than shards have no inbox.
fn put_inbox(out: &mut Vec<u8>, core: &Core, source: Source) -> Result<(), AllocError>
    requires { is_source core.now.settings core.now.log source ≡ true }
    ensures { OnOk result (out.new.items ≡ out.old.items ++ inbox_text core.now source) }
{
    match source {
        Source::Shard(shard) => put_shard_inbox(out, core, shard),
        Source::Line(_) | Source::Desk(_) | Source::Clock => Ok(()),
    }
}

/// Puts what a source has put out, what is in its hand, and what waits at it; nothing where the source is not there.
fn put_queue(out: &mut Vec<u8>, core: &Core, source: Source) -> Result<(), AllocError>
    ensures { OnOk result (out.new.items ≡ out.old.items ++ queue_text core.now source) }
{
    if !is_source(core, source) {
        return Ok(());
    }
    put_outbox(out, core, source)?;
    put_hand(out, core, source)?;
    put_inbox(out, core, source)
}

/// The source at a place of its sort: connections are numbered from 1.
fn source_at(sort: Sort, place: u32) -> Source
    requires { place < 2 ^ 32 - 1 }
    ensures { result ≡ source_at sort place }
{
    match sort {
        Sort::Line => Source::Line(place + 1),
        Sort::Shard => Source::Shard(place),
        Sort::Desk => Source::Desk(place),
    }
}

/// Puts the same of the first so many sources of a sort.
fn put_each(out: &mut Vec<u8>, core: &Core, sort: Sort, count: u32) -> Result<(), AllocError>
    ensures { OnOk result (out.new.items ≡ out.old.items ++ queues_to core.now sort count) }
{
    'places: for place in 0..count {
        put_queue(out, core, source_at(sort, place))?;
    }
    Ok(())
}

/// Puts each item that waits behind what `out` holds, oldest first, by source: lines that were opened, shards and
/// desks, each by number, and the clock; of each what it has put out, what is in its hand, and of a shard what waits
/// there to be handled. A line an item: `SRC outbox ITEM`, `SRC hand ITEM`, `shard S inbox ITEM`.
pub fn put_queues(out: &mut Vec<u8>, core: &Core) -> Result<(), AllocError>
    ensures { OnOk result (out.new.items ≡ out.old.items ++ queues_text core.now) }
{
    put_each(out, core, Sort::Line, line_count(core))?;
    put_each(out, core, Sort::Shard, MAX_SHARDS as u32)?;
    put_each(out, core, Sort::Desk, MAX_DESKS as u32)?;
    put_queue(out, core, Source::Clock)
}
