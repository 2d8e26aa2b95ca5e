//! The graph of a table.
ghost use Rattle.std.specs.Prelude.{◌≡◌, ◌++◌, IfOk, OnOk};
ghost use Rattle.std.specs.List.{enumerate_from, flat_map, list_any};
ghost use Rattle.tab_text.specs.Contents.{IsRowOf};
ghost use Rattle.tab_draw.specs.Drawing.{arrow, arrow_label, arrows_from, box_text, drawing, goes, row_line};

use crate::label::put_label;
use std::alloc::{AllocError, Global};
use tab_text::{Row, Table};

/// What stands before the states.
const HEAD: &str = "\
digraph table {
  graph [ranksep=0.8, nodesep=0.4];
  node [shape=box, style=rounded, fontname=\"Helvetica\", fontsize=12];
  edge [fontname=\"Helvetica\", fontsize=10];
";

/// Whether a row goes from a state to a state.
fn goes(row: &Row, from: usize, to: usize) -> bool
    ensures { result ≡ goes from to row.now }
{
    row.state as usize == from && row.next as usize == to
}

/// Puts a line for the row of that number, where it goes from a state to a state.
#[tactic(auto, unfolding(crate::specs::Drawing::row_line))]
fn put_row_line(
    out: &mut Vec<u8>,
    table: &Table,
    from: usize,
    to: usize,
    number: usize,
    row: &Row,
) -> Result<(), AllocError>
    requires { IsRowOf table.now row.now }
    ensures { OnOk result (out.new.items ≡ out.old.items ++ row_line table.now from to (number, row.now)) }
{
    if !goes(row, from, to) {
        return Ok(());
    }
    out.extend_from_slice(b" ")?;
    put_label(out, table, number, row)?;
    out.extend_from_slice(b"\\l")
}

/// Puts a line for each row that goes from a state to a state.
fn put_row_lines(out: &mut Vec<u8>, table: &Table, from: usize, to: usize) -> Result<(), AllocError>
    ensures { OnOk result (out.new.items ≡ out.old.items
        ++ flat_map (row_line table.now from to) (enumerate_from 0 table.now.rows)) }
{
    for (number, row) in table.rows().iter().enumerate() {
        put_row_line(out, table, from, to, number, row)?;
    }
    Ok(())
}

/// Puts the box of a state: its name, and a line for each row that stays in it.
#[tactic(auto, unfolding(crate::specs::Drawing::box_text))]
fn put_box(out: &mut Vec<u8>, table: &Table, state: usize, name: &[u8]) -> Result<(), AllocError>
    ensures { OnOk result (out.new.items ≡ out.old.items ++ box_text table.now (state, name.now)) }
{
    out.extend_from_slice(b"  \"")?;
    out.extend_from_slice(name)?;
    out.extend_from_slice(b"\" [label=\"")?;
    out.extend_from_slice(name)?;
    out.extend_from_slice(b"\\n")?;
    put_row_lines(out, table, state, state)?;
    out.extend_from_slice(b"\"];\n")
}

/// Puts the box of each state.
fn put_boxes(out: &mut Vec<u8>, table: &Table) -> Result<(), AllocError>
    ensures { OnOk result (out.new.items ≡ out.old.items
        ++ flat_map (box_text table.now) (enumerate_from 0 table.now.states)) }
{
    for (state, name) in table.states().as_slice().iter().enumerate() {
        put_box(out, table, state, name.as_slice())?;
    }
    Ok(())
}

/// Whether any row goes from a state to a state.
fn has_row(table: &Table, from: usize, to: usize) -> bool
    ensures { result ≡ list_any (goes from to) table.now.rows }
{
    table.rows().iter().any(|row| goes(row, from, to))
}

/// Puts the label of an arrow: a line for each of its rows, but at an arrow from a state to itself,
/// whose rows stand in the box.
#[tactic(auto, unfolding(crate::specs::Drawing::arrow_label))]
fn put_arrow_label(
    out: &mut Vec<u8>,
    table: &Table,
    from: usize,
    to: usize,
) -> Result<(), AllocError>
    ensures { OnOk result (out.new.items ≡ out.old.items ++ arrow_label table.now from to) }
{
    if from == to {
        return Ok(());
    }
    out.extend_from_slice(b" [label=\"")?;
    put_row_lines(out, table, from, to)?;
    out.extend_from_slice(b"\"]")
}

/// Puts the arrow from a state to a state, where rows go so.
#[tactic(auto, unfolding(crate::specs::Drawing::arrow))]
fn put_arrow(
    out: &mut Vec<u8>,
    table: &Table,
    from: usize,
    from_name: &[u8],
    to: usize,
    to_name: &[u8],
) -> Result<(), AllocError>
    ensures { OnOk result (out.new.items ≡ out.old.items ++ arrow table.now (from, from_name.now) (to, to_name.now)) }
{
    if !has_row(table, from, to) {
        return Ok(());
    }
    out.extend_from_slice(b"  \"")?;
    out.extend_from_slice(from_name)?;
    out.extend_from_slice(b"\" -> \"")?;
    out.extend_from_slice(to_name)?;
    out.extend_from_slice(b"\"")?;
    put_arrow_label(out, table, from, to)?;
    out.extend_from_slice(b";\n")
}

/// Puts the arrows that begin at a state.
#[tactic(auto, unfolding(crate::specs::Drawing::arrows_from))]
fn put_arrows_from(
    out: &mut Vec<u8>,
    table: &Table,
    from: usize,
    name: &[u8],
) -> Result<(), AllocError>
    ensures { OnOk result (out.new.items ≡ out.old.items ++ arrows_from table.now (from, name.now)) }
{
    for (to, to_name) in table.states().as_slice().iter().enumerate() {
        put_arrow(out, table, from, name, to, to_name.as_slice())?;
    }
    Ok(())
}

/// Puts the arrows that begin at each state.
fn put_arrows(out: &mut Vec<u8>, table: &Table) -> Result<(), AllocError>
    ensures { OnOk result (out.new.items ≡ out.old.items
        ++ flat_map (arrows_from table.now) (enumerate_from 0 table.now.states)) }
{
    for (from, name) in table.states().as_slice().iter().enumerate() {
        put_arrows_from(out, table, from, name.as_slice())?;
    }
    Ok(())
}

/// The graph of a table: a box for each state, in order, in which each row stands that stays in the state; and from a
/// state to a state to which rows go one arrow, with a line for each of those rows: its number, kind and guards. Rows
/// stand in order, and so do arrows, by where they begin and then by where they end. A state in which rows stay has an
/// arrow to itself, without lines.
///
/// Names have no character that would need an escape.
#[tactic(auto, unfolding(crate::specs::Drawing::drawing))]
pub fn draw(alloc: Global, table: &Table) -> Result<Vec<u8>, AllocError>
    ensures { IfOk result (λ text. text.items ≡ drawing table.now) }
{
    let mut out = Vec::new(alloc);
    out.extend_from_slice(HEAD.as_bytes())?;
    put_boxes(&mut out, table)?;
    put_arrows(&mut out, table)?;
    out.extend_from_slice(b"}\n")?;
    Ok(out)
}
