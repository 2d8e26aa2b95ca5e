//! What a step changed, and why rows didn't take its event.
ghost use Rattle.std.specs.Prelude.{◌≡◌, ◌++◌, ◌<◌, [], All, OnOk, length, slice_index_or};
ghost use Rattle.std.specs.List.{filter_map, slice_get};
ghost use Rattle.std.specs.Option.{option_map, option_map_or};
ghost use Rattle.tab_step.specs.Bind.{IsBoundTo};
ghost use Rattle.tab_text.specs.declared.row.Row.{Row};
ghost use Rattle.tab_walk.specs.Places.{count_before, no_at};
ghost use Rattle.tab_walk.specs.Whys.{change_line, changes_text, first_no, is_of, no_line, row_why, rows_why};

use base_text::put_number;
use law_text::{first_unmet, put_unmet};
use std::alloc::AllocError;
use tab_law::{LawBook, PLACES, Scene, Test};
use tab_step::{Bound, Event, MachineState};

/// Puts a register that changed.
fn put_change(
    out: &mut Vec<u8>,
    old: &[u64; PLACES],
    new: &[u64; PLACES],
    place: usize,
) -> Result<(), AllocError>
    requires { place < PLACES }
    ensures { OnOk result (out.new.items ≡ out.old.items ++ change_line old.now new.now place) }
{
    if old[place] == new[place] {
        return Ok(());
    }
    put_number(out, b"  r", place as u64)?;
    put_number(out, b" ", old[place])?;
    put_number(out, b" -> ", new[place])?;
    out.extend_from_slice(b"\n")
}

/// Puts each register that changed, on a line of its own.
pub(crate) fn put_changes(
    out: &mut Vec<u8>,
    old: &[u64; PLACES],
    new: &[u64; PLACES],
) -> Result<(), AllocError>
    ensures { OnOk result (out.new.items ≡ out.old.items ++ changes_text old.now new.now) }
{
    for place in 0..PLACES {
        put_change(out, old, new, place)?;
    }
    Ok(())
}

/// The first guard of these places that says no, with the first test of its law that isn't met.
fn first_no<'a>(book: &'a LawBook, guards: &[u8], scene: &Scene) -> Option<(&'a [u8], &'a Test)>
    requires { All (λ place. place < length book.now.guards) guards.now }
    ensures { option_map (λ no. (no.0.now, no.1.now)) result
        ≡ slice_get (filter_map (no_at book.now scene.now) guards.now) 0 }
{
    for place in guards {
        let entry = book.guards().at(*place as usize);
        if let Some(test) = first_unmet(&entry.value, scene) {
            return Some((entry.name.as_slice(), test));
        }
    }
    None
}

/// Whether the row of that number has the machine's state and the event's kind.
fn is_of(
    bound: &Bound,
    book: &LawBook,
    number: usize,
    machine: &MachineState,
    event: &Event,
) -> bool
    requires bound { IsBoundTo bound.now book.now }
    requires in_rows { number < length bound.now.table.rows }
    ensures { (row : Row) → result ≡ is_of bound.now.table book.now machine.now event.now
        (slice_index_or bound.now.table.rows number row) }
{
    book.known();
    let row = &bound.table().rows()[number];
    let places = &bound.places()[number];
    row.state == machine.state && places.kind == event.kind
}

/// Puts that a guard of a row says no, and why.
fn put_no(
    out: &mut Vec<u8>,
    scene: &Scene,
    number: usize,
    name: &[u8],
    test: &Test,
) -> Result<(), AllocError>
    ensures { OnOk result (out.new.items ≡ out.old.items ++ no_line scene.now number (name.now, test.now)) }
{
    put_number(out, b"  row ", number as u64)?;
    out.extend_from_slice(b": not ")?;
    out.extend_from_slice(name)?;
    out.extend_from_slice(b": ")?;
    put_unmet(out, scene, test)?;
    out.extend_from_slice(b"\n")
}

/// Puts the first guard of a row that says no, if one does.
fn put_first_no(
    out: &mut Vec<u8>,
    bound: &Bound,
    book: &LawBook,
    number: usize,
    scene: &Scene,
) -> Result<(), AllocError>
    requires bound { IsBoundTo bound.now book.now }
    requires in_rows { number < length bound.now.table.rows }
    ensures { (row : Row) → OnOk result (out.new.items ≡ out.old.items
        ++ option_map_or (no_line scene.now number)
        (first_no bound.now.table book.now scene.now (slice_index_or bound.now.table.rows number row)) []) }
{
    // A table has few rows.
    let _rows = bound.table().rows();
    let places = &bound.places()[number];
    match first_no(book, places.guards.as_slice(), scene) {
        Some((name, test)) => put_no(out, scene, number, name, test),
        None => Ok(()),
    }
}

/// Puts why the row of that number didn't take an event, if it has the machine's state and the event's kind.
fn put_row(
    out: &mut Vec<u8>,
    bound: &Bound,
    book: &LawBook,
    number: usize,
    machine: &MachineState,
    event: &Event,
) -> Result<(), AllocError>
    requires bound { IsBoundTo bound.now book.now }
    requires in_rows { number < length bound.now.table.rows }
    ensures { (row : Row) → OnOk result (out.new.items ≡ out.old.items
        ++ row_why bound.now.table book.now machine.now event.now
        (number, slice_index_or bound.now.table.rows number row)) }
{
    if !is_of(bound, book, number, machine, event) {
        return Ok(());
    }
    let scene = Scene {
        regs: machine.regs,
        facts: event.facts,
    };
    put_first_no(out, bound, book, number, &scene)
}

/// How many rows stand before the one that took an event.
fn count_before(taken: Option<u16>, rows: usize) -> usize
    ensures { result ≡ count_before taken rows }
{
    match taken {
        Some(number) => (number as usize).min(rows),
        None => rows,
    }
}

/// Puts why rows didn't take an event: those of the machine's state and the event's kind before the one that took it.
pub(crate) fn put_rows(
    out: &mut Vec<u8>,
    bound: &Bound,
    book: &LawBook,
    machine: &MachineState,
    event: &Event,
    taken: Option<u16>,
) -> Result<(), AllocError>
    requires { IsBoundTo bound.now book.now }
    ensures { OnOk result (out.new.items ≡ out.old.items
        ++ rows_why bound.now.table book.now machine.now event.now taken) }
{
    let end = count_before(taken, bound.table().rows().len());
    for number in 0..end {
        put_row(out, bound, book, number, machine, event)?;
    }
    Ok(())
}
