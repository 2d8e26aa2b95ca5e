//! What a bench shows, as text.

use base_list::Octets;
use base_text::{number_of, put_hex, put_number};
use bench_core::{Core, LentNames};
use bench_item::{Handled, Item, Key, LineState, MachineItem, Role, Source, Step};
use bench_log::Log;
use bench_world::TakesSteps;
use log_text::{NameBook, put_entry, read_log};
use script_text::read_key;
use std::alloc::{AllocError, Global};
use step_text::{Machines, put_key};

/// The most machines of a shard.
const MAX_PLACES: u64 = 4096;

/// Puts the name of a state, its number where it has none.
fn put_state(core: &Core, role: Role, state: u8, out: &mut Vec<u8>) -> Result<(), AllocError> {
    match core.table(role).states().as_slice().get(usize::from(state)) {
        Some(name) => {
            out.extend_from_slice(b" ")?;
            out.extend_from_slice(name.as_slice())?;
        }
        None => put_number(out, b" ", u64::from(state))?,
    }
    Ok(())
}

/// Puts where a machine stands: its key, its state and the registers that aren't 0.
pub fn put_machine(core: &Core, key: &Key, out: &mut Vec<u8>) -> Result<(), AllocError> {
    let Some(state) = core.state_of(key) else {
        out.extend_from_slice(b" no machine\n")?;
        return Ok(());
    };
    put_key(out, key)?;
    put_state(core, key.role, state.state, out)?;
    put_places(b" r", &state.regs, out)?;
    out.extend_from_slice(b"\n")?;
    Ok(())
}

/// Puts where the machine of a key stands.
pub fn put_shown(
    alloc: Global,
    core: &Core,
    word: &str,
    out: &mut Vec<u8>,
) -> Result<(), AllocError> {
    match read_key(alloc, word.as_bytes())? {
        Some(key) => put_machine(core, &key, out),
        None => Ok(out.extend_from_slice(b" no key\n")?),
    }
}

/// Puts the generation with which a machine's timer is armed.
pub fn put_timer(core: &Core, machine: u64, out: &mut Vec<u8>) -> Result<(), AllocError> {
    match core.timer(machine) {
        Some(generation) => put_number(out, b" timer ", generation)?,
        None => out.extend_from_slice(b" no timer")?,
    }
    out.extend_from_slice(b"\n")?;
    Ok(())
}

/// Puts what stands on an account.
pub fn put_totals(
    alloc: Global,
    core: &Core,
    account: u64,
    out: &mut Vec<u8>,
) -> Result<(), AllocError> {
    let Some(totals) = core.totals(account) else {
        out.extend_from_slice(b" no account\n")?;
        return Ok(());
    };
    put_number(out, b" given ", totals.given)?;
    put_number(out, b" reserved ", totals.reserved)?;
    put_number(out, b" debited ", totals.debited)?;
    let unpaid = totals.unpaid;
    let text = format!(in alloc; " unpaid {unpaid}\n")?;
    out.extend_from_slice(text.as_bytes())?;
    Ok(())
}

/// Puts where a connection stands.
pub fn put_line(core: &Core, line: u32, out: &mut Vec<u8>) -> Result<(), AllocError> {
    match core.line(line) {
        Some(LineState::Dialling { peer }) => put_number(out, b" dialling ", peer)?,
        Some(LineState::Open) => out.extend_from_slice(b" open")?,
        Some(LineState::Closed) => out.extend_from_slice(b" closed")?,
        None => out.extend_from_slice(b" no line")?,
    }
    out.extend_from_slice(b"\n")?;
    Ok(())
}

/// Puts the last so many octets of those that a connection has sent.
fn put_sent(core: &Core, line: u32, count: usize, out: &mut Vec<u8>) -> Result<(), AllocError> {
    let sent = core.sent(line);
    let from = sent.len().saturating_sub(count);
    if let Some(tail) = sent.get(from..) {
        put_hex(out, tail)?;
    }
    out.extend_from_slice(b"\n")?;
    Ok(())
}

/// Says whether a connection has sent just these octets, else which ones.
pub fn put_sent_is(
    core: &Core,
    line: u32,
    octets: &[u8],
    out: &mut Vec<u8>,
) -> Result<(), AllocError> {
    if core.sent(line) == octets {
        out.extend_from_slice(b" as told\n")?;
        return Ok(());
    }
    put_sent(core, line, usize::MAX, out)
}

/// Says whether these are the last octets that a connection has sent, else which ones.
pub fn put_tail_is(
    core: &Core,
    line: u32,
    octets: &[u8],
    out: &mut Vec<u8>,
) -> Result<(), AllocError> {
    if !octets.is_empty() && core.sent(line).ends_with(octets) {
        out.extend_from_slice(b" as told\n")?;
        return Ok(());
    }
    put_sent(core, line, octets.len(), out)
}

/// Puts why a step would be refused.
fn put_refusal(core: &Core, step: &Step, out: &mut Vec<u8>) -> Result<(), AllocError> {
    match core.refusal(step) {
        Some(fault) => put_number(out, b" ", u64::from(fault.number()))?,
        None => out.extend_from_slice(b" -")?,
    }
    Ok(())
}

/// Puts numbers that aren't 0, each with its place.
fn put_places(name: &[u8], values: &[u64], out: &mut Vec<u8>) -> Result<(), AllocError> {
    for (place, value) in values.iter().enumerate() {
        if *value != 0 {
            put_number(out, name, place as u64)?;
            put_number(out, b"=", *value)?;
        }
    }
    Ok(())
}

/// Puts an event for a machine: its key, kind and facts, its condition and the session that it carries.
fn put_event(item: &MachineItem, out: &mut Vec<u8>) -> Result<(), AllocError> {
    put_key(out, &item.key)?;
    put_number(out, b" ", u64::from(item.event.kind()))?;
    put_places(b" ", &item.event.show().facts, out)?;
    if let Some(condition) = item.condition {
        put_number(out, b" if ", u64::from(condition.register))?;
        put_number(out, b"=", condition.value)?;
    }
    put_hex(out, item.session.as_slice())?;
    out.extend_from_slice(b";")
}

/// Puts an item that is on its way.
fn put_item(item: &Item, out: &mut Vec<u8>) -> Result<(), AllocError> {
    let (name, values) = match item {
        Item::ToMachine(item) => return put_event(item, out),
        Item::ToLine(item) => (b" to line".as_slice(), [item.line, 0, 0]),
        Item::Dial { peer, generation } => (b" dial".as_slice(), [*peer, *generation, 0]),
        Item::Undial { peer, generation } => (b" undial".as_slice(), [*peer, *generation, 0]),
        Item::Arm {
            machine,
            generation,
            ticks,
        } => (b" arm".as_slice(), [*machine, *generation, *ticks]),
        Item::Disarm { machine } => (b" disarm".as_slice(), [*machine, 0, 0]),
    };
    out.extend_from_slice(name)?;
    for value in values {
        put_number(out, b" ", value)?;
    }
    out.extend_from_slice(b";")
}

/// Puts what waits at a source and what lies in its hand, and whether that may be lifted and dropped.
fn put_source(core: &Core, source: Source, out: &mut Vec<u8>) -> Result<(), AllocError> {
    put_refusal(core, &Step::Lift(source), out)?;
    put_refusal(core, &Step::Drop(source), out)?;
    let waiting = core.outbox(source)?;
    for item in waiting.as_slice() {
        put_item(item, out)?;
    }
    out.extend_from_slice(b" |")?;
    match core.hand(source)? {
        Some(item) => put_item(&item, out),
        None => Ok(()),
    }
}

/// Puts all that a shard shows.
fn put_shard(alloc: Global, core: &Core, shard: u32, out: &mut Vec<u8>) -> Result<(), AllocError> {
    put_number(out, b"shard ", u64::from(shard))?;
    let paused = match core.is_paused(shard) {
        Some(true) => b" paused".as_slice(),
        Some(false) => b"".as_slice(),
        None => b" none".as_slice(),
    };
    out.extend_from_slice(paused)?;
    put_source(core, Source::Shard(shard), out)?;
    put_refusal(core, &Step::Work(shard), out)?;
    let waiting = core.inbox(shard)?;
    for item in waiting.as_slice() {
        put_event(item, out)?;
    }
    out.extend_from_slice(b"\n")?;
    let first = u64::from(shard) * MAX_PLACES;
    for place in 0..MAX_PLACES {
        let number = first + place;
        match core.key(number)? {
            Some(key) => {
                put_machine(core, &key, out)?;
                put_timer(core, number, out)?;
            }
            None => break,
        }
    }
    Ok(())
}

/// Puts all that a bench shows: place, shards, machines and timers, connections and what they sent,
/// accounts up to 200, what waits.
pub fn put_all(alloc: Global, core: &Core, out: &mut Vec<u8>) -> Result<(), AllocError> {
    put_number(out, b"at ", core.place() as u64)?;
    put_source(core, Source::Clock, out)?;
    for desk in 0..16u32 {
        put_source(core, Source::Desk(desk), out)?;
    }
    out.extend_from_slice(b"\n")?;
    for shard in 0..16u32 {
        if core.is_paused(shard).is_some() {
            put_shard(alloc, core, shard, out)?;
        }
    }
    for line in 1..=core.lines().min(1024) as u32 {
        put_source(core, Source::Line(line), out)?;
        put_line(core, line, out)?;
        put_sent(core, line, core.sent(line).len(), out)?;
    }
    for account in 0..200u64 {
        if core.totals(account).is_some() {
            put_totals(alloc, core, account, out)?;
        }
    }
    Ok(())
}

/// Adds a machine of a bench, no two of which have one key.
fn add(machines: &mut Machines, key: &Key, number: u64) -> Result<(), AllocError> {
    match machines.add(key, number) {
        Ok(()) => Ok(()),
        Err(_) => Err(AllocError),
    }
}

/// The machines of a bench with their numbers.
fn machines_of(alloc: Global, core: &Core) -> Result<Machines, AllocError> {
    let mut machines = Machines::new(alloc);
    for shard in 0..core.shards().min(16) as u64 {
        for place in 0..MAX_PLACES {
            let number = shard * MAX_PLACES + place;
            match core.key(number)? {
                Some(key) => add(&mut machines, &key, number)?,
                None => break,
            }
        }
    }
    Ok(machines)
}

/// Puts the entries of a log from a place on.
fn put_entries(
    alloc: Global,
    names: &NameBook<'_>,
    log: &Log,
    first: usize,
    out: &mut Vec<u8>,
) -> Result<(), AllocError> {
    for place in first..log.len() {
        if let Some(entry) = log.entry(place, alloc)? {
            put_entry(out, names, &entry)?;
        }
    }
    Ok(())
}

/// Puts the last so many entries of the log.
pub fn put_last(
    alloc: Global,
    core: &Core,
    count: usize,
    out: &mut Vec<u8>,
) -> Result<(), AllocError> {
    let machines = machines_of(alloc, core)?;
    let names = NameBook {
        laws: core.laws(),
        machines: &machines,
        peer_states: core.table(Role::Peer).states().as_slice(),
        client_states: core.table(Role::Client).states().as_slice(),
        server_states: core.table(Role::Server).states().as_slice(),
    };
    let log = core.log();
    put_entries(alloc, &names, log, log.len().saturating_sub(count), out)
}

/// Puts what became of the item that was handled last, without names.
pub fn put_fate(alloc: Global, core: &Core, out: &mut Vec<u8>) -> Result<(), AllocError> {
    let entry = core.log().last(alloc)?;
    let handled = match &entry {
        Some(entry) => entry.handled.as_ref(),
        None => None,
    };
    match handled {
        Some(Handled::TooBusy) => out.extend_from_slice(b" busy\n")?,
        Some(Handled::Stale(_)) => out.extend_from_slice(b" stale\n")?,
        Some(Handled::Move(moved)) => {
            put_number(out, b" moved by ", u64::from(moved.row.unwrap_or(u16::MAX)))?;
            out.extend_from_slice(b"\n")?;
        }
        None => out.extend_from_slice(b" not handled\n")?,
    }
    Ok(())
}

/// Puts names, each behind a blank.
fn put_names_in(names: &[Octets], out: &mut Vec<u8>) -> Result<(), AllocError> {
    for name in names {
        out.extend_from_slice(b" ")?;
        out.extend_from_slice(name.as_slice())?;
    }
    out.extend_from_slice(b"\n")
}

/// Puts the machines of a shard by their numbers, with their keys.
fn put_named(names: &LentNames<'_>, shard: u64, out: &mut Vec<u8>) -> Result<(), AllocError> {
    for place in 0..MAX_PLACES {
        let number = shard.saturating_mul(MAX_PLACES).saturating_add(place);
        let Some(key) = names.machine(number) else {
            return Ok(());
        };
        let role = match key.role {
            Role::Peer => b" p:".as_slice(),
            Role::Client => b" c:".as_slice(),
            Role::Server => b" s:".as_slice(),
        };
        put_number(out, b" ", number)?;
        out.extend_from_slice(role)?;
        out.extend_from_slice(key.name)?;
        out.extend_from_slice(b"\n")?;
    }
    Ok(())
}

/// Puts the names that a bench shows: of kinds of events, of the states of each role's table, and of machines.
pub fn put_names(core: &Core, out: &mut Vec<u8>) -> Result<(), AllocError> {
    let names = core.names();
    for kind in names.kinds() {
        out.extend_from_slice(b" ")?;
        out.extend_from_slice(kind.name.as_slice())?;
    }
    out.extend_from_slice(b"\n")?;
    for role in [Role::Peer, Role::Client, Role::Server] {
        put_names_in(names.states(role), out)?;
    }
    for shard in 0..16u64 {
        put_named(&names, shard, out)?;
    }
    Ok(())
}

/// The text of the whole log.
pub fn log_of(alloc: Global, core: &Core) -> Result<Vec<u8>, AllocError> {
    let mut out = Vec::new(alloc);
    put_last(alloc, core, usize::MAX, &mut out)?;
    Ok(out)
}

/// Whether the text of the log is read as a log that prints it.
fn is_read_back(alloc: Global, core: &Core) -> Result<bool, AllocError> {
    let machines = machines_of(alloc, core)?;
    let names = NameBook {
        laws: core.laws(),
        machines: &machines,
        peer_states: core.table(Role::Peer).states().as_slice(),
        client_states: core.table(Role::Client).states().as_slice(),
        server_states: core.table(Role::Server).states().as_slice(),
    };
    let mut text = Vec::new(alloc);
    put_entries(alloc, &names, core.log(), 0, &mut text)?;
    let Ok(log) = read_log(alloc, &names, text.as_slice()) else {
        return Ok(false);
    };
    let mut again = Vec::new(alloc);
    put_entries(alloc, &names, &log, 0, &mut again)?;
    Ok(log.len() == core.place() && again.as_slice() == text.as_slice())
}

/// Says whether the text of the log is read as a log that prints it.
pub fn put_read_back(alloc: Global, core: &Core, out: &mut Vec<u8>) -> Result<(), AllocError> {
    let said = if is_read_back(alloc, core)? {
        b" read back\n".as_slice()
    } else {
        b" not read back\n".as_slice()
    };
    out.extend_from_slice(said)?;
    Ok(())
}

/// The number of a word; what no number is, 0.
pub fn number_in(word: &str) -> u64 {
    number_of(word.as_bytes()).unwrap_or(0)
}

/// The same below 2^32.
pub fn short_in(word: &str) -> u32 {
    number_in(word).min(0xffff_ffff) as u32
}

/// Steps back, and says where that led to, or that it was the start.
pub fn put_back<B: TakesSteps>(
    world: &mut B,
    count: u64,
    out: &mut Vec<u8>,
) -> Result<(), AllocError> {
    for _ in 0..count {
        if !world.back() {
            out.extend_from_slice(b" at the start\n")?;
            return Ok(());
        }
    }
    put_number(out, b" at ", world.core().place() as u64)?;
    out.extend_from_slice(b"\n")?;
    Ok(())
}
