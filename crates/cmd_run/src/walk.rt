//! `walk`: a table or its image stepped over events, by callbacks that answer by the laws of all roles;
//! the names that tables may use.
ghost use Rattle.std.specs.Prelude.{◌≡◌, ◌≢◌, ◌⊎◌, ◌<◌, ◌≤◌, ◌+◌, ◌*◌, ◌-◌, ◌^◌, max, option_map, IfOk, OnErr};
ghost use Rattle.base_device.specs.Devices.{IsRun, Tells};
ghost use Rattle.cmd_read.specs.Reads.{TellsNoMemory};
ghost use Rattle.cmd_run.specs.Runs.{TellsTable, WalksTable};
ghost use Rattle.law_text.specs.Sentences.{book_text};
ghost use Rattle.role_tables.specs.Roles.{all_laws, table_named};
ghost use Rattle.tab_walk.specs.Starts.{from_of};
ghost use Rattle.tab_walk.specs.Walks.{IsWalkedOn};

use base_device::{
    ByteSink, FileSource, MAX_IDLE_WRITES, MAX_READS, Status, read_input, tell, tell_unread,
};
use law_text::put_book;
use role_tables::{all_laws, table_named};
use std::alloc::{AllocError, Global};
use tab_call::{Ask, Calls, Do, Registry, StoredAct, StoredGuard};
use tab_law::{Acted, LawBook, Scene, high_into, holds};
use tab_role::TakesRoles;
use tab_walk::{WalkOptions, walk_on};

/// What is told where no table has the name.
const NO_ROLE: &str = "wanted the name of a shipped table: peer, client or server\n";

/// Walks a table over callbacks that answer by these laws. Without memory for them nothing is told.
fn walk_by<O: ByteSink>(
    alloc: Global,
    laws: &LawBook,
    options: WalkOptions<'_>,
    table: &[u8],
    events: &[u8],
    sink: &mut O,
) -> Result<Status, AllocError>
    requires idle { O.idle sink.old ≡ 0 }
    requires failures { O.failures sink.old < 2 ^ 64 - 1 }
    ensures walk { IfOk result (IsWalkedOn O.contents O.failures O.idle laws.now options.entry table.now
        events.now sink.old sink.new) }
    ensures err { OnErr result (sink.new ≡ sink.old) }
    ensures row { O.most_idle sink.new ≤ max (O.most_idle sink.old) MAX_IDLE_WRITES }
{
    let mut guards = Vec::new(alloc);
    for entry in laws.guards().as_slice() {
        let own = entry.value.copy(alloc)?;
        let ask: Ask = Box::new(alloc, move |scene: &Scene| holds(&own, scene))?;
        guards.push(StoredGuard::new(entry.value.copy(alloc)?, ask))?;
    }
    let mut acts = Vec::new(alloc);
    for entry in laws.acts().as_slice() {
        let own = entry.value.copy(alloc)?;
        let act: Do = Box::new(alloc, move |scene: &Scene, room: &mut Acted| {
            high_into(&own, scene, room);
        })?;
        acts.push(StoredAct::new(entry.value.copy(alloc)?, act))?;
    }
    let mut registry = Registry::new(alloc);
    // The callbacks are those of the laws, and the registry is empty, so what lacks is memory.
    if registry.register(laws, Calls { guards, acts }).is_err() {
        return Err(AllocError);
    }
    Ok(walk_on(alloc, table, &registry, options, events, sink))
}

pub(crate) fn tell_no_memory<O: ByteSink>(sink: &mut O) -> Status
    requires idle { O.idle sink.old ≡ 0 }
    requires failures { O.failures sink.old < 2 ^ 64 - 1 }
    ensures told { TellsNoMemory O.contents O.failures O.idle sink.old sink.new result }
    ensures row { O.most_idle sink.new ≤ max (O.most_idle sink.old) MAX_IDLE_WRITES }
{
    tell(sink, b"no memory\n", Status::NoMemory)
}

/// Walks a table over the callbacks of all roles.
fn walk_all<O: ByteSink>(
    alloc: Global,
    options: WalkOptions<'_>,
    table: &[u8],
    events: &[u8],
    sink: &mut O,
) -> Status
    requires idle { O.idle sink.old ≡ 0 }
    requires failures { O.failures sink.old < 2 ^ 64 - 1 }
    ensures walk { IsWalkedOn O.contents O.failures O.idle all_laws options.entry table.now events.now
        sink.old sink.new result }
    ensures row { O.most_idle sink.new ≤ max (O.most_idle sink.old) MAX_IDLE_WRITES }
{
    let Ok(laws) = all_laws(alloc) else {
        return tell_no_memory(sink);
    };
    match walk_by(alloc, &laws, options, table, events, sink) {
        Ok(status) => status,
        Err(AllocError) => tell_no_memory(sink),
    }
}

/// The options of a walk, by what its words ask for.
fn options_of<'a>(why: bool, from: Option<&'a str>) -> WalkOptions<'a>
    ensures why { result.why ≡ why }
    ensures from { from_of result ≡ option_map (λ text. text.now) from.entry }
{
    match from {
        Some(text) => WalkOptions {
            why,
            from: Some(text.as_bytes()),
        },
        None => WalkOptions { why, from: None },
    }
}

/// Reads the table of a file, and events of another or of standard input, and walks.
pub(crate) fn walk<I: FileSource, O: ByteSink>(
    alloc: Global,
    why: bool,
    from: Option<&str>,
    table: &str,
    events: Option<&str>,
    source: &mut I,
    sink: &mut O,
) -> Status
    requires reads { I.reads source.old + 2 * MAX_READS < 2 ^ 64 }
    requires read_failures { I.failures source.old < 2 ^ 64 - 1 }
    requires idle { O.idle sink.old ≡ 0 }
    requires write_failures { O.failures sink.old < 2 ^ 64 - 1 }
    ensures reads { I.reads source.new ≤ I.reads source.old + 2 * MAX_READS }
    ensures row { O.most_idle sink.new ≤ max (O.most_idle sink.old) MAX_IDLE_WRITES }
    ensures run { IsRun I.reads I.failures O.failures O.idle source.old source.new sink.old sink.new result }
    ensures as_asked { result ≢ Status.Fault
        → WalksTable I.remaining I.reads I.failures O.contents O.failures O.idle why
        (option_map (λ text. text.now) from.entry) source.old source.new sink.old sink.new result
        ⊎ TellsNoMemory O.contents O.failures O.idle sink.old sink.new result }
    ensures words { result ≢ Status.Usage }
{
    let table_text = match read_input(alloc, Some(table), source) {
        Ok(text) => text,
        Err(why) => return tell_unread(alloc, Some(table), why, sink),
    };
    let event_text = match read_input(alloc, events, source) {
        Ok(text) => text,
        Err(why) => return tell_unread(alloc, events, why, sink),
    };
    walk_all(alloc, options_of(why, from), &table_text, &event_text, sink)
}

/// The kinds, guards and actions of all roles, with their laws.
fn names_text(alloc: Global) -> Result<Vec<u8>, AllocError>
    ensures { IfOk result (λ text. text.items ≡ book_text all_laws) }
{
    let mut text = Vec::new(alloc);
    put_book(&mut text, &all_laws(alloc)?)?;
    Ok(text)
}

/// Prints the names that tables may use.
pub(crate) fn tell_names<O: ByteSink>(alloc: Global, sink: &mut O) -> Status
    requires idle { O.idle sink.old ≡ 0 }
    requires failures { O.failures sink.old < 2 ^ 64 - 1 }
    ensures told { Tells O.contents O.failures O.idle sink.old sink.new (book_text all_laws) Status.Done result
        ⊎ TellsNoMemory O.contents O.failures O.idle sink.old sink.new result }
    ensures row { O.most_idle sink.new ≤ max (O.most_idle sink.old) MAX_IDLE_WRITES }
{
    match names_text(alloc) {
        Ok(text) => tell(sink, &text, Status::Done),
        Err(AllocError) => tell_no_memory(sink),
    }
}

/// Prints the table of the role of that name.
pub(crate) fn tell_table<O: ByteSink>(name: &str, sink: &mut O) -> Status
    requires idle { O.idle sink.old ≡ 0 }
    requires failures { O.failures sink.old < 2 ^ 64 - 1 }
    ensures told { TellsTable O.contents O.failures O.idle (table_named name.now) sink.old sink.new result }
    ensures row { O.most_idle sink.new ≤ max (O.most_idle sink.old) MAX_IDLE_WRITES }
{
    match table_named(name) {
        Some(text) => tell(sink, text.as_bytes(), Status::Done),
        None => tell(sink, NO_ROLE.as_bytes(), Status::Usage),
    }
}
