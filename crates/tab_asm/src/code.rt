//! The code of an image: the instructions of rows, entry by entry.

ghost use Rattle.std.specs.Prelude.{◌≡◌, ◌+◌, ◌*◌, ◌<◌, ◌≤◌, ◌++◌, length, map, OnOk, IfOk};
ghost use Rattle.tab_asm.specs.Formats.{format_2, TestGuard, RunAction, code_of};
ghost use Rattle.tab_asm.specs.Assembled.{is_in, rows_in, row_size, row_instructions, entry_instructions, offset_of};

use std::alloc::AllocError;
use tab_text::{Row, Table};

/// Puts a test of each guard of a row, in order: where one says no, its row is left for that offset.
fn put_guards(code: &mut Vec<u8>, guards: &[u8], otherwise: u32) -> Result<(), AllocError>
    ensures { OnOk result (code.new.items
        ≡ code.old.items ++ code_of format_2 (map (λ guard. TestGuard guard otherwise) guards.now)) }
{
    for guard in guards {
        code.push(2)?;
        code.push(*guard)?;
        code.extend_from_slice(&otherwise.to_be_bytes())?;
    }
    Ok(())
}

/// Puts the actions of a row, in order.
fn put_actions(code: &mut Vec<u8>, actions: &[u8]) -> Result<(), AllocError>
    ensures { OnOk result (code.new.items ≡ code.old.items ++ code_of format_2 (map RunAction actions.now)) }
{
    for action in actions {
        code.push(3)?;
        code.push(*action)?;
    }
    Ok(())
}

/// How many octets the instructions of a row take.
fn row_size(row: &Row) -> usize
    ensures value { result ≡ row_size row.now }
    ensures few { row_size row.now ≤ 69 }
{
    5 + 6 * row.guards.len() + 2 * row.actions.len()
}

/// Puts the instructions of a row.
fn put_row(code: &mut Vec<u8>, number: u16, row: &Row) -> Result<(), AllocError>
    requires { length code.old.items + 69 < 4294967296 }
    ensures ok { OnOk result (code.new.items
        ≡ code.old.items ++ code_of format_2
        (row_instructions (length code.old.items + row_size row.now) (number, row.now))) }
    ensures few { row_size row.now ≤ 69 }
{
    let otherwise = (code.len() + row_size(row)) as u32;
    code.push(1)?;
    code.extend_from_slice(&number.to_be_bytes())?;
    put_guards(code, row.guards.as_slice(), otherwise)?;
    put_actions(code, row.actions.as_slice())?;
    code.push(4)?;
    code.push(row.next)?;
    Ok(())
}

/// Whether a row is one of an entry.
fn is_in(table: &Table, entry: usize, row: &Row) -> bool
    ensures { result ≡ is_in table.now entry row.now }
{
    let kinds = table.kinds().as_slice().len();
    row.state as usize * kinds + row.kind as usize == entry
}

/// Puts the instructions of an entry, those of its rows in text order and the end without a row, and answers
/// where they begin. An entry without rows has none.
pub(crate) fn put_entry(
    code: &mut Vec<u8>,
    table: &Table,
    entry: usize,
) -> Result<Option<u32>, AllocError>
    requires { length code.old.items + 282625 < 4294967296 }
    ensures ok { OnOk result (code.new.items
        ≡ code.old.items ++ code_of format_2 (entry_instructions (length code.old.items) (rows_in table.now entry))) }
    ensures offset { IfOk result (λ offset. offset ≡ offset_of (length code.old.items) (rows_in table.now entry)) }
    ensures few { OnOk result (length code.new.items ≤ length code.old.items + 282625) }
{
    let start = code.len();
    for number in 0..table.rows().len() {
        let row = &table.rows()[number];
        if is_in(table, entry, row) {
            put_row(code, number as u16, row)?;
        }
    }
    if start == code.len() {
        return Ok(None);
    }
    code.push(5)?;
    Ok(Some(start as u32))
}
