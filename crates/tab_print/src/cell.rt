//! The cells of a row.
ghost use Rattle.std.specs.Prelude.{◌≡◌, ◌++◌, ◌<◌, length, map, All, OnOk};
ghost use Rattle.tab_text.specs.Contents.{IsRowOf};
ghost use Rattle.tab_print.specs.Cells.{name_at, behind_each, condition, actions_text, cell_text};

use crate::column::Column;
use std::alloc::AllocError;
use tab_text::{NameList, Row, Table};

/// Puts the name of a number behind some octets.
fn put_name(
    out: &mut Vec<u8>,
    before: &[u8],
    names: &NameList,
    number: u8,
) -> Result<(), AllocError>
    requires { number < length names.now }
    ensures { OnOk result (out.new.items ≡ out.old.items ++ before.now ++ name_at names.now number) }
{
    out.extend_from_slice(before)?;
    out.extend_from_slice(names.as_slice()[number as usize].as_slice())
}

/// Puts each name behind the same octets.
fn put_each(
    out: &mut Vec<u8>,
    before: &[u8],
    names: &NameList,
    numbers: &[u8],
) -> Result<(), AllocError>
    requires { All (λ number. number < length names.now) numbers.now }
    ensures { OnOk result (out.new.items ≡ out.old.items
        ++ behind_each before.now (map (name_at names.now) numbers.now)) }
{
    for number in numbers {
        put_name(out, before, names, *number)?;
    }
    Ok(())
}

/// Puts the guards behind a kind.
fn put_condition(out: &mut Vec<u8>, names: &NameList, guards: &[u8]) -> Result<(), AllocError>
    requires { All (λ number. number < length names.now) guards.now }
    ensures { OnOk result (out.new.items ≡ out.old.items ++ condition (map (name_at names.now) guards.now)) }
{
    match guards {
        [] => Ok(()),
        [first, rest @ ..] => {
            put_name(out, b" when ", names, *first)?;
            put_each(out, b" and ", names, rest)
        }
    }
}

/// Puts the cell of a row's actions.
fn put_actions(out: &mut Vec<u8>, names: &NameList, actions: &[u8]) -> Result<(), AllocError>
    requires { All (λ number. number < length names.now) actions.now }
    ensures { OnOk result (out.new.items ≡ out.old.items ++ actions_text (map (name_at names.now) actions.now)) }
{
    match actions {
        [] => out.extend_from_slice(b"-"),
        [first, rest @ ..] => {
            put_name(out, b"", names, *first)?;
            put_each(out, b", ", names, rest)
        }
    }
}

/// Puts a row's cell of a column.
#[tactic(auto, unfolding(crate::specs::Cells::cell_text))]
pub(crate) fn put_cell(
    out: &mut Vec<u8>,
    table: &Table,
    row: &Row,
    column: Column,
) -> Result<(), AllocError>
    requires { IsRowOf table.now row.now }
    ensures { OnOk result (out.new.items ≡ out.old.items ++ cell_text table.now column row.now) }
{
    match column {
        Column::State => put_name(out, b"", table.states(), row.state),
        Column::Event => {
            put_name(out, b"", table.kinds(), row.kind)?;
            put_condition(out, table.guards(), row.guards.as_slice())
        }
        Column::Action => put_actions(out, table.actions(), row.actions.as_slice()),
        Column::Next => put_name(out, b"", table.states(), row.next),
    }
}
