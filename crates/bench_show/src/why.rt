//! The event, the row and the guards of a move.
ghost use Rattle.std.specs.Prelude.{◌≡◌, ◌++◌, ◌+◌, ◌<◌, [], All, OnOk, Some, flat_map, length};
ghost use Rattle.std.specs.Prelude.{map, option_copied, slice_get};
ghost use Rattle.base_list.specs.Named.{entry_of};
ghost use Rattle.bench_item.specs.declared.entry.Moved.{Moved as OneMove};
ghost use Rattle.bench_show.specs.History.{move_in};
ghost use Rattle.bench_show.specs.Why.{answer_words, answers_line, answers_words, count_to, event_line, guards_text};
ghost use Rattle.bench_show.specs.Why.{is_of, rows_to, taken_row, told_row, why_text};
ghost use Rattle.step_text.specs.Lines.{behind, fact_words};
ghost use Rattle.tab_law.specs.Books.{named_answer};
ghost use Rattle.tab_step.specs.Moves.{is_kind_of, name_at};
ghost use Rattle.tab_text.specs.Contents.{IsRowOf};
ghost use Rattle.tab_text.specs.declared.row.Row.{Row as TableRow};

use crate::history::{move_in, put_numbered};
use base_list::Named;
use base_text::put_number;
use bench_core::Core;
use bench_item::{Entry, Key};
use std::alloc::{AllocError, Global};
use step_text::{Machines, put_kind};
use tab_law::{GuardLaw, LawBook, PLACES, Scene, holds};
use tab_print::print_row;
use tab_step::{Event, MachineState};
use tab_text::{NameList, Row, Table};

/// Puts the facts that are not 0.
pub(crate) fn put_facts(out: &mut Vec<u8>, facts: &[u64; PLACES]) -> Result<(), AllocError>
    ensures { OnOk result (out.new.items ≡ out.old.items ++ behind (fact_words 0 facts.now)) }
{
    for (number, value) in facts.iter().enumerate() {
        if *value != 0 {
            put_number(out, b" ", number as u64)?;
            put_number(out, b"=", *value)?;
        }
    }
    Ok(())
}

/// Puts an event: its kind, and the facts that aren't 0.
fn put_event(
    alloc: Global,
    out: &mut Vec<u8>,
    laws: &LawBook,
    event: &Event,
) -> Result<(), AllocError>
    ensures { OnOk result (out.new.items ≡ out.old.items ++ event_line laws.now event.now) }
{
    let none = Machines::new(alloc);
    out.extend_from_slice(b"event")?;
    put_kind(out, laws, &none, event.kind)?;
    put_facts(out, &event.facts)?;
    out.extend_from_slice(b"\n")
}

/// The guard of a name, if the book has one.
fn guard_named<'a>(laws: &'a LawBook, name: &[u8]) -> Option<&'a Named<GuardLaw>>
    ensures { option_copied result ≡ entry_of name.now laws.now.guards }
{
    laws.guards()
        .as_slice()
        .iter()
        .find(|entry| entry.name.as_slice() == name)
}

/// What the guard of a name says on a scene, by its law; no where the book has none.
fn says_yes(laws: &LawBook, scene: &Scene, name: &[u8]) -> bool
    ensures { result ≡ named_answer laws.now scene.now name.now }
{
    match guard_named(laws, name) {
        Some(guard) => holds(&guard.value, scene),
        None => false,
    }
}

/// Puts what a guard says.
fn put_answer(
    out: &mut Vec<u8>,
    laws: &LawBook,
    scene: &Scene,
    name: &[u8],
) -> Result<(), AllocError>
    ensures { OnOk result (out.new.items ≡ out.old.items ++ answer_words laws.now scene.now name.now) }
{
    out.extend_from_slice(b" ")?;
    out.extend_from_slice(name)?;
    if says_yes(laws, scene, name) {
        out.extend_from_slice(b" yes")
    } else {
        out.extend_from_slice(b" no")
    }
}

/// Puts what the guard says that has the name at a place.
fn put_answer_at(
    out: &mut Vec<u8>,
    laws: &LawBook,
    scene: &Scene,
    names: &NameList,
    guard: u8,
) -> Result<(), AllocError>
    requires { guard < length names.now }
    ensures { OnOk result (out.new.items ≡ out.old.items ++ answer_words laws.now scene.now (name_at names.now guard)) }
{
    put_answer(
        out,
        laws,
        scene,
        names.as_slice()[guard as usize].as_slice(),
    )
}

/// Puts what each of these guards says, by the places of their names.
fn put_each_answer(
    out: &mut Vec<u8>,
    laws: &LawBook,
    scene: &Scene,
    names: &NameList,
    guards: &[u8],
) -> Result<(), AllocError>
    requires { All (λ guard. guard < length names.now) guards.now }
    ensures { OnOk result (out.new.items
        ≡ out.old.items ++ flat_map (answer_words laws.now scene.now) (map (name_at names.now) guards.now)) }
{
    for guard in guards {
        put_answer_at(out, laws, scene, names, *guard)?;
    }
    Ok(())
}

/// Puts what the guards of a row say.
fn put_answers(
    out: &mut Vec<u8>,
    laws: &LawBook,
    scene: &Scene,
    names: &NameList,
    guards: &[u8],
) -> Result<(), AllocError>
    requires { All (λ guard. guard < length names.now) guards.now }
    ensures { OnOk result (out.new.items
        ≡ out.old.items ++ answers_words laws.now scene.now (map (name_at names.now) guards.now)) }
{
    match guards {
        [] => out.extend_from_slice(b" always"),
        [_, ..] => put_each_answer(out, laws, scene, names, guards),
    }
}

/// Puts what the guards of the row of that number say.
fn put_row_answers(
    out: &mut Vec<u8>,
    table: &Table,
    laws: &LawBook,
    scene: &Scene,
    number: usize,
    row: &Row,
) -> Result<(), AllocError>
    requires { IsRowOf table.now row.now }
    ensures { OnOk result (out.new.items
        ≡ out.old.items ++ answers_line table.now laws.now scene.now (number, row.now)) }
{
    put_number(out, b"  row ", number as u64)?;
    out.extend_from_slice(b":")?;
    put_answers(out, laws, scene, table.guards(), row.guards.as_slice())?;
    out.extend_from_slice(b"\n")
}

/// Whether a kind of events has that name in the book.
fn is_kind_of(laws: &LawBook, kind: u8, name: &[u8]) -> bool
    ensures { result ≡ is_kind_of laws.now kind name.now }
{
    match laws.kinds().as_slice().get(usize::from(kind)) {
        Some(entry) => entry.name.as_slice() == name,
        None => false,
    }
}

/// Whether a row has the machine's state and the event's kind.
fn is_of(table: &Table, laws: &LawBook, machine: &MachineState, event: &Event, row: &Row) -> bool
    requires { IsRowOf table.now row.now }
    ensures { result ≡ is_of table.now laws.now machine.now event.now row.now }
{
    row.state == machine.state
        && is_kind_of(
            laws,
            event.kind,
            table.kinds().as_slice()[row.kind as usize].as_slice(),
        )
}

/// Puts what the guards of a row say, where it has the machine's state and the event's kind.
fn put_row(
    out: &mut Vec<u8>,
    table: &Table,
    laws: &LawBook,
    machine: &MachineState,
    event: &Event,
    number: usize,
) -> Result<(), AllocError>
    requires { number < length table.now.rows }
    ensures { OnOk result ((row : TableRow) → slice_get table.now.rows number ≡ Some row
        → out.new.items ≡ out.old.items ++ told_row table.now laws.now machine.now event.now (number, row)) }
{
    let row = &table.rows()[number];
    if !is_of(table, laws, machine, event, row) {
        return Ok(());
    }
    let scene = Scene {
        regs: machine.regs,
        facts: event.facts,
    };
    put_row_answers(out, table, laws, &scene, number, row)
}

/// How many rows stand up to the one that took an event.
fn count_to(taken: Option<u16>, rows: usize) -> usize
    ensures { result ≡ count_to taken rows }
{
    match taken {
        Some(number) => (number as usize + 1).min(rows),
        None => rows,
    }
}

/// Puts what the guards say of the rows of the machine's state and the event's kind, up to the one that took it.
fn put_guards(
    out: &mut Vec<u8>,
    table: &Table,
    laws: &LawBook,
    machine: &MachineState,
    event: &Event,
    taken: Option<u16>,
) -> Result<(), AllocError>
    ensures { OnOk result (out.new.items
        ≡ out.old.items ++ guards_text table.now laws.now machine.now event.now (rows_to table.now taken)) }
{
    let end = count_to(taken, table.rows().len());
    'each: for number in 0..end {
        put_row(out, table, laws, machine, event, number)?;
    }
    Ok(())
}

/// Puts the row that took an event.
fn put_taken_row(
    alloc: Global,
    out: &mut Vec<u8>,
    table: &Table,
    taken: Option<u16>,
) -> Result<(), AllocError>
    ensures { OnOk result (out.new.items ≡ out.old.items ++ taken_row table.now taken) }
{
    let Some(number) = taken else {
        return Ok(());
    };
    match print_row(alloc, table, number as usize)? {
        Some(line) => out.extend_from_slice(line.as_slice()),
        None => Ok(()),
    }
}

/// Puts a move of a machine behind what `out` holds: the entry of that number in which it stands, the event, the row
/// that took it, and of that row and those before it that have its state and kind what each guard said.
pub fn put_why(
    alloc: Global,
    out: &mut Vec<u8>,
    core: &Core,
    key: &Key,
    number: u64,
    entry: &Entry,
) -> Result<(), AllocError>
    ensures { OnOk result ((moved : OneMove) → move_in key.now entry.now ≡ Some moved
        → out.new.items ≡ out.old.items ++ why_text core.now key.now (number, entry.now) moved) }
{
    let Some(moved) = move_in(key, entry) else {
        return Ok(());
    };
    let table = core.table(key.role);
    let laws = core.laws();
    put_numbered(alloc, out, core, number, entry)?;
    put_event(alloc, out, laws, &moved.event)?;
    put_taken_row(alloc, out, table, moved.row)?;
    put_guards(out, table, laws, &moved.before, &moved.event, moved.row)
}
