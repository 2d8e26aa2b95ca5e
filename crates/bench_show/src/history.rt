//! The moves of a machine.
ghost use Rattle.std.specs.Prelude.{◌≡◌, ◌++◌, ◌+◌, ◌<◌, IfNone, IfOk, IfSome, IsFalse, MatchOption, OnOk, Some, false};
ghost use Rattle.std.specs.Prelude.{option_copied, slice_get, true};
ghost use Rattle.bench_item.specs.declared.entry.Entry.{Entry as LogEntry};
ghost use Rattle.bench_item.specs.declared.limit.TheConstants.{MAX_ENTRIES};
ghost use Rattle.bench_spec.specs.Machines.{number_of};
ghost use Rattle.bench_show.specs.History.{LastMove, MovesNone, history_text, move_in, moves, numbered_text, told_of};

use base_text::put_number;
use bench_core::Core;
use bench_item::{Entry, Handled, Item, Key, Moved, is_same_key};
use bench_script::put_taken;
use std::alloc::{AllocError, Global};

/// The move of a machine in an entry, if it moved there.
pub(crate) fn move_in<'a>(key: &Key, entry: &'a Entry) -> Option<&'a Moved>
    ensures { option_copied result ≡ move_in key.now entry.now }
{
    match (&entry.item, &entry.handled) {
        (Some(Item::ToMachine(item)), Some(Handled::Move(moved))) => {
            if is_same_key(key, &item.key) {
                Some(moved)
            } else {
                None
            }
        }
        _ => None,
    }
}

/// Whether a machine moved in an entry.
fn moves(key: &Key, entry: &Entry) -> bool
    ensures { result ≡ moves key.now entry.now }
{
    match (&entry.item, &entry.handled) {
        (Some(Item::ToMachine(item)), Some(Handled::Move(_))) => {
            if is_same_key(key, &item.key) {
                true
            } else {
                false
            }
        }
        _ => false,
    }
}

/// Puts an entry behind its number.
pub(crate) fn put_numbered(
    alloc: Global,
    out: &mut Vec<u8>,
    core: &Core,
    number: u64,
    entry: &Entry,
) -> Result<(), AllocError>
    ensures { OnOk result (out.new.items ≡ out.old.items ++ numbered_text core.now (number, entry.now)) }
{
    put_number(out, b"", number)?;
    out.extend_from_slice(b" ")?;
    put_taken(alloc, core, entry, out)
}

/// Whether the entry at a place may move a machine of that number:
/// what one of another number moves is another machine. Takes no memory.
fn may_move(core: &Core, key: &Key, number: Option<u64>, place: usize) -> bool
    requires { number ≡ number_of core.now.settings.node core.now.log key.now }
    ensures { IsFalse result → (entry : LogEntry)
        → slice_get core.now.log place ≡ Some entry → moves key.now entry ≡ false }
{
    core.known();
    match (number, core.log().machine(place)) {
        (Some(number), Some(machine)) => machine == number,
        (None, Some(_)) => true,
        (_, None) => false,
    }
}

/// The entry at a place, where it moves a machine. The machine's number spares to read most entries of others.
fn moving_entry(
    alloc: Global,
    core: &Core,
    key: &Key,
    number: Option<u64>,
    place: usize,
) -> Result<Option<Entry>, AllocError>
    requires { number ≡ number_of core.now.settings.node core.now.log key.now }
    ensures some { IfOk result (λ found. IfSome found (λ entry. (slice_get core.now.log place ≡ Some entry)
        × (moves key.now entry ≡ true))) }
    ensures none { IfOk result (λ found. IfNone found ((entry : LogEntry)
        → slice_get core.now.log place ≡ Some entry → moves key.now entry ≡ false)) }
{
    if !may_move(core, key, number, place) {
        return Ok(None);
    }
    match core.log().entry(place, alloc)? {
        Some(entry) => {
            if moves(key, &entry) {
                Ok(Some(entry))
            } else {
                Ok(None)
            }
        }
        None => Ok(None),
    }
}

/// Puts the entry at a place behind its number, where it moves a machine.
fn put_entry(
    alloc: Global,
    out: &mut Vec<u8>,
    core: &Core,
    key: &Key,
    place: usize,
) -> Result<(), AllocError>
    requires { place < MAX_ENTRIES }
    ensures { OnOk result ((entry : LogEntry) → slice_get core.now.log place ≡ Some entry
        → out.new.items ≡ out.old.items ++ told_of core.now key.now (place + 1, entry)) }
{
    let Some(entry) = core.log().entry(place, alloc)? else {
        return Ok(());
    };
    if moves(key, &entry) {
        put_numbered(alloc, out, core, place as u64 + 1, &entry)
    } else {
        Ok(())
    }
}

/// The same, and reads the entry only where it may move the machine:
/// to clear the room for an entry takes longer than to look.
fn put_move(
    alloc: Global,
    out: &mut Vec<u8>,
    core: &Core,
    key: &Key,
    number: Option<u64>,
    place: usize,
) -> Result<(), AllocError>
    requires number { number ≡ number_of core.now.settings.node core.now.log key.now }
    requires place { place < MAX_ENTRIES }
    ensures { OnOk result ((entry : LogEntry) → slice_get core.now.log place ≡ Some entry
        → out.new.items ≡ out.old.items ++ told_of core.now key.now (place + 1, entry)) }
{
    if may_move(core, key, number, place) {
        put_entry(alloc, out, core, key, place)
    } else {
        Ok(())
    }
}

/// Puts each entry that moved a machine behind what `out` holds: its number, from 1, and its text.
pub fn put_history(
    alloc: Global,
    out: &mut Vec<u8>,
    core: &Core,
    key: &Key,
) -> Result<(), AllocError>
    ensures { OnOk result (out.new.items ≡ out.old.items ++ history_text core.now key.now) }
{
    let number = core.number_of(key);
    let count = core.log().len();
    'entries: for place in 0..count {
        put_move(alloc, out, core, key, number, place)?;
    }
    Ok(())
}

/// The entry of a machine's last move, with its number; none where it has not moved.
pub fn last_move(alloc: Global, core: &Core, key: &Key) -> Result<Option<(u64, Entry)>, AllocError>
    ensures { IfOk result (λ last. MatchOption last (MovesNone key.now core.now.log)
        (λ at. LastMove key.now core.now.log at.0 at.1)) }
{
    let number = core.number_of(key);
    let mut place = core.log().len();
    'entries: while place > 0 {
        if let Some(entry) = moving_entry(alloc, core, key, number, place - 1)? {
            return Ok(Some((place as u64, entry)));
        }
        place -= 1;
    }
    Ok(None)
}
