//! The lines of entries, and of a log.
ghost use Rattle.std.specs.Prelude.{◌≡◌, ◌++◌, OnOk, slice_get};
ghost use Rattle.std.specs.Option.{option_map};
ghost use Rattle.log_text.specs.Books.{named};
ghost use Rattle.log_text.specs.EntryLines.{below, entry_lines, handled_lines, is_work, item_text, log_lines};
ghost use Rattle.log_text.specs.EntryLines.{move_lines, moved_line, row_text, stale_line, state_text};

use crate::book::NameBook;
use crate::deeds::put_deed_lines;
use base_text::put_number;
use bench_item::{Entry, Handled, Item, Key, MachineItem, Moved, Role, Step};
use event_text::put_name;
use std::alloc::AllocError;
use step_text::{put_key, put_kind, write_step};

/// The name of a state.
pub(crate) fn state_name<'a>(names: &NameBook<'a>, role: Role, state: u8) -> Option<&'a [u8]>
    ensures { option_map (λ name. name.now) result ≡ slice_get ((named names.now).states role) state }
{
    match names.states(role).get(usize::from(state)) {
        Some(name) => Some(name.as_slice()),
        None => None,
    }
}

/// A state behind a blank, by its number where it has no name.
fn put_state(
    out: &mut Vec<u8>,
    names: &NameBook<'_>,
    role: Role,
    state: u8,
) -> Result<(), AllocError>
    ensures { OnOk result (out.new.items ≡ out.old.items ++ state_text (named names.now) role state) }
{
    out.extend_from_slice(b" ")?;
    put_name(out, b"", state_name(names, role, state), u64::from(state))
}

/// The row that took an event.
fn put_row(out: &mut Vec<u8>, row: Option<u16>) -> Result<(), AllocError>
    ensures { OnOk result (out.new.items ≡ out.old.items ++ row_text row) }
{
    match row {
        Some(row) => put_number(out, b" row ", u64::from(row)),
        None => out.extend_from_slice(b" row -"),
    }
}

/// Which machine, and of its event the kind.
fn put_item(out: &mut Vec<u8>, names: &NameBook<'_>, key: &Key, kind: u8) -> Result<(), AllocError>
    ensures { OnOk result (out.new.items ≡ out.old.items ++ item_text (named names.now) key.now kind) }
{
    out.extend_from_slice(b" ")?;
    put_key(out, key)?;
    put_kind(out, names.laws, names.machines, kind)
}

/// The line of a move, without its newline.
pub(crate) fn put_moved(
    out: &mut Vec<u8>,
    names: &NameBook<'_>,
    key: &Key,
    kind: u8,
    before: u8,
    after: u8,
    row: Option<u16>,
) -> Result<(), AllocError>
    ensures { OnOk result (out.new.items
        ≡ out.old.items ++ moved_line (named names.now) key.now kind before after row) }
{
    put_item(out, names, key, kind)?;
    put_state(out, names, key.role, before)?;
    put_state(out, names, key.role, after)?;
    put_row(out, row)
}

/// The line of an item that was stale, in a machine that stands in this state; without its newline.
pub(crate) fn put_stale(
    out: &mut Vec<u8>,
    names: &NameBook<'_>,
    key: &Key,
    kind: u8,
    state: u8,
) -> Result<(), AllocError>
    ensures { OnOk result (out.new.items ≡ out.old.items ++ stale_line (named names.now) key.now kind state) }
{
    put_item(out, names, key, kind)?;
    put_state(out, names, key.role, state)?;
    put_state(out, names, key.role, state)?;
    out.extend_from_slice(b" stale")
}

/// A move, and its deeds below it.
fn put_move(
    out: &mut Vec<u8>,
    names: &NameBook<'_>,
    item: &MachineItem,
    moved: &Moved,
) -> Result<(), AllocError>
    ensures { OnOk result (out.new.items ≡ out.old.items ++ move_lines (named names.now) item.now moved.now) }
{
    let (before, after) = (moved.before.state, moved.after.state);
    put_moved(
        out,
        names,
        &item.key,
        item.event.kind(),
        before,
        after,
        moved.row,
    )?;
    out.extend_from_slice(b"\n")?;
    put_deed_lines(out, moved.deeds.as_slice(), moved.outcomes.as_slice())
}

/// What became of an item for a machine.
fn put_handled(
    out: &mut Vec<u8>,
    names: &NameBook<'_>,
    item: &MachineItem,
    handled: &Handled,
) -> Result<(), AllocError>
    ensures { OnOk result (out.new.items ≡ out.old.items ++ handled_lines (named names.now) item.now handled.now) }
{
    match handled {
        Handled::TooBusy => out.extend_from_slice(b"  busy\n"),
        Handled::Stale(state) => {
            put_stale(out, names, &item.key, item.event.kind(), *state)?;
            out.extend_from_slice(b"\n")
        }
        Handled::Move(moved) => put_move(out, names, item, moved),
    }
}

/// Whether a shard handles an item.
pub(crate) fn is_work(step: &Step) -> bool
    ensures { result ≡ is_work step.now }
{
    matches!(step, Step::Work(_))
}

/// What stands below the step's line.
fn put_below(
    out: &mut Vec<u8>,
    names: &NameBook<'_>,
    step: &Step,
    item: Option<&Item>,
    handled: Option<&Handled>,
) -> Result<(), AllocError>
    ensures { OnOk result (out.new.items ≡ out.old.items
        ++ below (named names.now) step.now (option_map (λ item. item.now) item.entry)
        (option_map (λ handled. handled.now) handled.entry)) }
{
    if !is_work(step) {
        return Ok(());
    }
    match (item, handled) {
        (Some(Item::ToMachine(item)), Some(handled)) => put_handled(out, names, item, handled),
        _ => Ok(()),
    }
}

/// Puts an entry: the line of its step, and below that of a `work` what became of the item.
pub fn put_entry(out: &mut Vec<u8>, names: &NameBook<'_>, entry: &Entry) -> Result<(), AllocError>
    ensures { OnOk result (out.new.items ≡ out.old.items ++ entry_lines (named names.now) entry.now) }
{
    write_step(out, names.laws, names.machines, &entry.step)?;
    out.extend_from_slice(b"\n")?;
    put_below(
        out,
        names,
        &entry.step,
        entry.item.as_ref(),
        entry.handled.as_ref(),
    )
}

/// Puts the entries of a log, in order.
pub fn put_entries(
    out: &mut Vec<u8>,
    names: &NameBook<'_>,
    entries: &[Entry],
) -> Result<(), AllocError>
    ensures { OnOk result (out.new.items ≡ out.old.items ++ log_lines (named names.now) entries.now) }
{
    for entry in entries {
        put_entry(out, names, entry)?;
    }
    Ok(())
}
