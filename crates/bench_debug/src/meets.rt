//! Which breakpoint an entry meets.
ghost use Rattle.std.specs.Prelude.{◌≡◌, min, option_map};
ghost use Rattle.std.specs.Option.{option_map_or};
ghost use Rattle.bench_debug.specs.Meets.{first_met, has_value, is_met_at, is_met_by, is_met_with, meets, move_with};

use crate::debugger::SetBreakpoint;
use bench_item::{Entry, Handled, Item, MachineItem, Moved, Step, is_same_key, is_same_role};
use debug_text::Breakpoint;
use tab_law::PLACES;

/// Whether a register has a value.
fn has_value(registers: &[u64; PLACES], register: usize, value: u64) -> bool
    ensures { result ≡ has_value registers.now register value }
{
    match registers.get(register) {
        Some(found) => *found == value,
        None => value == 0,
    }
}

/// Whether a move that an item led to meets a breakpoint.
fn is_met_by(breakpoint: &Breakpoint, item: &MachineItem, moved: &Moved) -> bool
    ensures { result ≡ is_met_by breakpoint.now item.now moved.now }
{
    match breakpoint {
        Breakpoint::Row { role, row } => {
            is_same_role(*role, item.key.role)
                && match moved.row {
                    Some(by) => u64::from(by) == *row,
                    None => false,
                }
        }
        Breakpoint::State { key, state } => {
            is_same_key(key, &item.key) && moved.after.state == *state
        }
        Breakpoint::Value {
            key,
            register,
            value,
        } => {
            is_same_key(key, &item.key)
                && (has_value(&moved.after.regs, *register, *value)
                    && !has_value(&moved.before.regs, *register, *value))
        }
        Breakpoint::Kind(_) => false,
        Breakpoint::Machine(_) => false,
    }
}

/// Whether an item that is handled meets a breakpoint, whatever becomes of it.
fn is_met_at(breakpoint: &Breakpoint, item: &MachineItem) -> bool
    ensures { result ≡ is_met_at breakpoint.now item.now }
{
    match breakpoint {
        Breakpoint::Kind(kind) => item.event.kind() == *kind,
        Breakpoint::Machine(key) => is_same_key(key, &item.key),
        _ => false,
    }
}

/// Whether an item that is handled, and its move, meet a breakpoint.
fn is_met_with(breakpoint: &Breakpoint, handled: Option<&Handled>, item: &MachineItem) -> bool
    ensures { result
        ≡ is_met_with breakpoint.now (move_with (option_map (λ handled. handled.now) handled.entry)) item.now }
{
    is_met_at(breakpoint, item)
        || match handled {
            Some(Handled::Move(moved)) => is_met_by(breakpoint, item, moved),
            _ => false,
        }
}

/// Whether an entry meets a breakpoint.
fn meets(entry: &Entry, breakpoint: &Breakpoint) -> bool
    ensures { result ≡ meets entry.now breakpoint.now }
{
    match (&entry.step, entry.item.as_ref()) {
        (Step::Work(_), Some(Item::ToMachine(item))) => {
            is_met_with(breakpoint, entry.handled.as_ref(), item)
        }
        _ => false,
    }
}

/// The lesser of a number and another that may be there.
fn least_with(number: u64, other: Option<u64>) -> u64
    ensures { result ≡ option_map_or (min number) other number }
{
    match other {
        Some(other) => number.min(other),
        None => number,
    }
}

/// The breakpoint of the least number that an entry meets.
pub(crate) fn first_met(set: &[SetBreakpoint], entry: &Entry) -> Option<u64>
    ensures { result ≡ first_met set.now entry.now }
{
    match set {
        [] => None,
        [first, others @ ..] => {
            let found = first_met(others, entry);
            if meets(entry, &first.breakpoint) {
                Some(least_with(first.number, found))
            } else {
                found
            }
        }
    }
}
