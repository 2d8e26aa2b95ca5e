//! The table of a text.
ghost use Rattle.std.specs.Prelude.{◌≡◌, true, None, Some, length, map, IfOk, IfErr, OnOk};
ghost use Rattle.tab_text.specs.Rows.{rows_of, row_lines, names_of, numbered, table_of};
ghost use Rattle.tab_text.specs.Faults.{first_fault, has_room};
ghost use Rattle.tab_text.specs.Rooms.{rooms_names};
ghost use Rattle.tab_text.specs.Reader.{IsShort, IsRefusal};
ghost use Rattle.tab_text.specs.declared.fault.ParseError.TheVariants.{NoMemory};

use crate::fault::{ParseError, TextCode, TextFault};
use crate::reader::Reader;
use crate::room::Rooms;
use crate::row::Row;
use crate::table::Table;
use std::alloc::Global;

/// The names of a text, where it has no fault.
fn check(text: &[u8]) -> Result<Rooms, TextFault>
    ensures sound { OnOk result (first_fault text.now ≡ None) }
    ensures names { IfOk result (λ rooms. rooms_names rooms ≡ names_of (rows_of text.now)) }
    ensures room { OnOk result (has_room (names_of (rows_of text.now)) ≡ true) }
    ensures fault { IfErr result (λ fault. first_fault text.now ≡ Some fault) }
{
    let mut reader = Reader::open(text)?;
    let mut names = Rooms::new();
    while let Some(row) = reader.next_row()? {
        if !names.add(&row) {
            return Err(TextFault {
                line: row.line,
                code: TextCode::TooManyNames,
            });
        }
    }
    Ok(names)
}

/// The rows of a text that has these names, and the line on which each begins.
fn fill(alloc: Global, text: &[u8], names: &Rooms) -> Result<(Vec<Row>, Vec<usize>), ParseError>
    requires { first_fault text.now ≡ None }
    ensures rows { IfOk result (λ filled. filled.0.items ≡ map (numbered (rooms_names names.now)) (rows_of text.now)) }
    ensures lines { IfOk result (λ filled. filled.1.items ≡ row_lines text.now) }
    ensures each { OnOk result (length (row_lines text.now) ≡ length (rows_of text.now)) }
    ensures short { OnOk result (IsShort (rows_of text.now)) }
    ensures err { IfErr result (λ error. error ≡ NoMemory) }
{
    let mut rows = Vec::new(alloc);
    let mut lines = Vec::new(alloc);
    let mut reader = Reader::open(text)?;
    while let Some(row) = reader.next_row()? {
        rows.push(names.numbered(&row))?;
        lines.push(row.line)?;
    }
    Ok((rows, lines))
}

/// The table of a text.
///
/// A text is lines of the bytes 0x20 to 0x7E; the last may lack its newline. Blank lines, and lines
/// with `#` in byte 0, are skipped. The first other line is the header, the words State, Event,
/// Action and Next, the first at byte 2; each cell begins where its column's word does. A line with
/// `+` in byte 0 continues the row before it: its parts of Event and Action are joined to the row's
/// with one blank, those of State and Next with none. An empty State cell means the state of the row
/// before. An Event cell is `Kind` or `Kind when guard and guard`; actions have commas between, and
/// `-` alone is none. A row's fault is told at its first line.
pub fn parse(alloc: Global, text: &[u8]) -> Result<Table, ParseError>
    ensures table { IfOk result (λ table. table ≡ table_of text.now) }
    ensures sound { OnOk result (first_fault text.now ≡ None) }
    ensures refused { IfErr result (λ error. IsRefusal (first_fault text.now) error) }
{
    let names = check(text)?;
    let states = names.states.copied(alloc)?;
    let kinds = names.kinds.copied(alloc)?;
    let guards = names.guards.copied(alloc)?;
    let actions = names.actions.copied(alloc)?;
    let (rows, lines) = fill(alloc, text, &names)?;
    Ok(Table::new(states, kinds, guards, actions, rows, lines))
}
