//! A machine stepped by the rows of a table or by a loaded image, and what its steps print.
ghost use Rattle.std.specs.Prelude.{◌≡◌, ◌++◌, OnOk};
ghost use Rattle.std.specs.List.{slice_get};
ghost use Rattle.std.specs.Option.{option_map};
ghost use Rattle.tab_walk.specs.Walks.{IsReady, StepBy, kind_text, names_of, row_text, rows_of};
ghost use Rattle.tab_walk.specs.Walks.{state_text, step_text, told_of};

use crate::why::{put_changes, put_rows};
use base_list::Octets;
use base_text::put_number;
use event_text::{put_deeds, put_name};
use std::alloc::AllocError;
use tab_call::Registry;
use tab_image::run_event_into;
use tab_law::LawBook;
use tab_load::Program;
use tab_step::{Bound, Event, MachineState, Stepped, step_into};

/// What a machine is stepped by.
#[derive(Clone, Copy)]
pub(crate) enum Rules<'a> {
    /// The rows of a bound table.
    Rows(&'a Bound),
    /// A loaded image.
    Image(&'a Program),
}

/// One step of a machine, written into room that the caller keeps.
pub(crate) fn step_by(
    rules: Rules<'_>,
    registry: &Registry,
    machine: &MachineState,
    event: &Event,
    room: &mut Stepped,
)
    requires { IsReady registry.now.book rules }
    ensures { StepBy registry.now.book rules.entry machine.now event.now room.new }
{
    match rules {
        Rules::Rows(bound) => step_into(bound, registry, machine, event, room),
        Rules::Image(program) => run_event_into(program, registry, machine, event, room),
    }
}

/// The names of a machine's states.
pub(crate) fn names_of<'a>(rules: Rules<'a>) -> &'a [Octets]
    ensures { result.now ≡ names_of rules.entry }
{
    match rules {
        Rules::Rows(bound) => bound.table().states().as_slice(),
        Rules::Image(program) => program.names().states.names.as_slice(),
    }
}

/// The name of a state, if it has one.
fn state_name(names: &[Octets], state: u8) -> Option<&[u8]>
    ensures { option_map (λ name. name.now) result ≡ slice_get names.now state }
{
    let place = state as usize;
    if place < names.len() {
        Some(names[place].as_slice())
    } else {
        None
    }
}

fn put_state(out: &mut Vec<u8>, names: &[Octets], state: u8) -> Result<(), AllocError>
    ensures { OnOk result (out.new.items ≡ out.old.items ++ state_text names.now state) }
{
    put_name(out, b" ", state_name(names, state), u64::from(state))
}

fn put_row(out: &mut Vec<u8>, row: Option<u16>) -> Result<(), AllocError>
    ensures { OnOk result (out.new.items ≡ out.old.items ++ row_text row) }
{
    match row {
        Some(row) => put_number(out, b" row ", u64::from(row)),
        None => out.extend_from_slice(b" row -"),
    }
}

/// The name of a kind of events in the book.
fn kind_name(book: &LawBook, kind: u8) -> &[u8]
    ensures { result.now ≡ kind_text book.now kind }
{
    let place = kind as usize;
    if place < book.kinds().len() {
        book.kinds().at(place).name.as_slice()
    } else {
        b""
    }
}

/// A step: the kind, the states before and after it, the row; and a line for each deed.
fn put_step(
    out: &mut Vec<u8>,
    names: &[Octets],
    book: &LawBook,
    before: u8,
    event: &Event,
    step: &Stepped,
) -> Result<(), AllocError>
    ensures { OnOk result (out.new.items ≡ out.old.items ++ step_text names.now book.now before event.now step.now) }
{
    out.extend_from_slice(kind_name(book, event.kind))?;
    put_state(out, names, before)?;
    put_state(out, names, step.after.state)?;
    put_row(out, step.row)?;
    out.extend_from_slice(b"\n")?;
    put_deeds(out, step.deeds.as_slice())
}

/// Why rows of a table didn't take an event; an image tells none.
fn put_rows_of(
    out: &mut Vec<u8>,
    rules: Rules<'_>,
    book: &LawBook,
    machine: &MachineState,
    event: &Event,
    step: &Stepped,
) -> Result<(), AllocError>
    requires { IsReady book.now rules }
    ensures { OnOk result (out.new.items
        ≡ out.old.items ++ rows_of book.now rules.entry machine.now event.now step.now) }
{
    match rules {
        Rules::Rows(bound) => put_rows(out, bound, book, machine, event, step.row),
        Rules::Image(_) => Ok(()),
    }
}

/// What is printed of a step; where it is asked why, also the registers that changed,
/// and why rows didn't take the event.
pub(crate) fn put_told(
    out: &mut Vec<u8>,
    rules: Rules<'_>,
    book: &LawBook,
    why: bool,
    machine: &MachineState,
    event: &Event,
    step: &Stepped,
) -> Result<(), AllocError>
    requires { IsReady book.now rules }
    ensures { OnOk result (out.new.items
        ≡ out.old.items ++ told_of why book.now rules.entry machine.now event.now step.now) }
{
    put_step(out, names_of(rules), book, machine.state, event, step)?;
    if !why {
        return Ok(());
    }
    put_changes(out, &machine.regs, &step.after.regs)?;
    put_rows_of(out, rules, book, machine, event, step)
}
