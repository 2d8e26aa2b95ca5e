//! The text of a table.
ghost use Rattle.std.specs.Prelude.{◌≡◌, ◌++◌, ◌-◌, ◌≤◌, length, option_map, replicate, slice_get, IfOk, OnOk};
ghost use Rattle.std.specs.List.{flat_map};
ghost use Rattle.tab_text.specs.Contents.{IsRowOf};
ghost use Rattle.tab_text.specs.Rows.{IsNumberedTable};
ghost use Rattle.tab_print.specs.Cells.{heading, cell_text};
ghost use Rattle.tab_print.specs.ReadBack.{IsReadAs};
ghost use Rattle.tab_text.specs.declared.limits.TheConstants.{MAX_TEXT};
ghost use Rattle.tab_print.specs.Printed.{width, widths_of, padded, header_line, row_line, printed};

use crate::cell::put_cell;
use crate::column::{Column, heading};
use std::alloc::{AllocError, Global};
use tab_text::{Row, Table};

/// How wide a column is: two blanks more than its longest cell or its heading.
#[tactic(auto, unfolding(crate::specs::Printed::width))]
fn width(alloc: Global, table: &Table, column: Column) -> Result<usize, AllocError>
    ensures { IfOk result (λ wide. wide ≡ width table.now column) }
{
    let mut widest = heading(column).len() + 2;
    let mut cell = Vec::new(alloc);
    for row in table.rows() {
        cell.clear();
        put_cell(&mut cell, table, row, column)?;
        widest = widest.max(cell.len() + 2);
    }
    Ok(widest)
}

/// The widths of the columns but the last.
#[derive(Clone, Copy)]
pub(crate) struct Widths {
    pub(crate) state: usize,
    pub(crate) event: usize,
    pub(crate) action: usize,
}

/// Puts blanks up to a column's width behind the cell that begins at `start`.
fn put_blanks(out: &mut Vec<u8>, count: usize) -> Result<(), AllocError>
    ensures { OnOk result (out.new.items ≡ out.old.items ++ replicate count 32) }
{
    for _blank in 0..count {
        out.push(b' ')?;
    }
    Ok(())
}

/// Puts the word over a column, padded.
fn put_heading(out: &mut Vec<u8>, column: Column, wide: usize) -> Result<(), AllocError>
    ensures { OnOk result (out.new.items ≡ out.old.items ++ padded wide (heading column)) }
{
    let word = heading(column);
    out.extend_from_slice(word)?;
    put_blanks(out, wide.saturating_sub(word.len()))
}

/// Puts a row's cell of a column, padded.
fn put_padded(
    out: &mut Vec<u8>,
    table: &Table,
    row: &Row,
    column: Column,
    wide: usize,
) -> Result<(), AllocError>
    requires { IsRowOf table.now row.now }
    ensures { OnOk result (out.new.items ≡ out.old.items ++ padded wide (cell_text table.now column row.now)) }
{
    let start = out.len();
    put_cell(out, table, row, column)?;
    put_blanks(out, wide.saturating_sub(out.len() - start))
}

/// Puts the header.
#[tactic(auto, unfolding(crate::specs::Printed::header_line))]
fn put_header(out: &mut Vec<u8>, widths: Widths) -> Result<(), AllocError>
    ensures { OnOk result (out.new.items ≡ out.old.items ++ header_line widths) }
{
    out.extend_from_slice(b"  ")?;
    put_heading(out, Column::State, widths.state)?;
    put_heading(out, Column::Event, widths.event)?;
    put_heading(out, Column::Action, widths.action)?;
    out.extend_from_slice(b"Next\n")
}

/// Puts a row's line.
#[tactic(auto, unfolding(crate::specs::Printed::row_line))]
fn put_row(out: &mut Vec<u8>, table: &Table, row: &Row, widths: Widths) -> Result<(), AllocError>
    requires { IsRowOf table.now row.now }
    ensures { OnOk result (out.new.items ≡ out.old.items ++ row_line table.now widths row.now) }
{
    out.extend_from_slice(b"  ")?;
    put_padded(out, table, row, Column::State, widths.state)?;
    put_padded(out, table, row, Column::Event, widths.event)?;
    put_padded(out, table, row, Column::Action, widths.action)?;
    put_cell(out, table, row, Column::Next)?;
    out.extend_from_slice(b"\n")
}

/// Puts each row's line.
fn put_rows(out: &mut Vec<u8>, table: &Table, widths: Widths) -> Result<(), AllocError>
    ensures lines { OnOk result (out.new.items ≡ out.old.items ++ flat_map (row_line table.now widths) table.now.rows) }
    ensures numbered { IsNumberedTable table.now }
{
    for row in table.rows() {
        put_row(out, table, row, widths)?;
    }
    Ok(())
}

/// The widths of the columns.
fn widths_of(alloc: Global, table: &Table) -> Result<Widths, AllocError>
    ensures { IfOk result (λ widths. widths ≡ widths_of table.now) }
{
    let state = width(alloc, table, Column::State)?;
    let event = width(alloc, table, Column::Event)?;
    let action = width(alloc, table, Column::Action)?;
    Ok(Widths {
        state,
        event,
        action,
    })
}

/// The line of a row, numbered from 0, as `print` puts it; none where the table has no such row.
pub fn print_row(alloc: Global, table: &Table, row: usize) -> Result<Option<Vec<u8>>, AllocError>
    ensures { IfOk result (λ line. option_map (λ octets. octets.items) line
        ≡ option_map (row_line table.now (widths_of table.now)) (slice_get table.now.rows row)) }
{
    let Some(row) = table.rows().get(row) else {
        return Ok(None);
    };
    let widths = widths_of(alloc, table)?;
    let mut out = Vec::new(alloc);
    put_row(&mut out, table, row, widths)?;
    Ok(Some(out))
}

/// The text of a table: the header and a line for each row, all cells filled and without blanks at the end.
///
/// A column is two blanks wider than its longest cell or its heading. The first begins at byte 2. Names stand as in the
/// table's lists, guards behind ` when ` with ` and ` between, actions with `, ` between or `-` where there is none.
/// Where the text is no longer than a text may be, it is read as the same table.
#[tactic(auto, unfolding(crate::specs::Printed::printed))]
pub fn print(alloc: Global, table: &Table) -> Result<Vec<u8>, AllocError>
    ensures text { IfOk result (λ text. text.items ≡ printed table.now) }
    ensures read_back { IfOk result (λ text. length text.items ≤ MAX_TEXT → IsReadAs table.now text.items) }
{
    let widths = widths_of(alloc, table)?;
    let mut out = Vec::new(alloc);
    put_header(&mut out, widths)?;
    put_rows(&mut out, table, widths)?;
    Ok(out)
}
