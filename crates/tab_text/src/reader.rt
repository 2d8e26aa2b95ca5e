//! The rows of a text, taken off one after another.
ghost use Rattle.std.specs.Prelude.{◌≡◌, ◌<◌, true, false, Ok, Err, Some, List, OnOk};
ghost use Rattle.tab_text.specs.Rows.{state_behind};
ghost use Rattle.tab_text.specs.Passing.{IsCase, line_case};
ghost use Rattle.tab_text.specs.Reading.{octets_in, first_kept, IsFound};
ghost use Rattle.text_parts.specs.Left.{lines_left};

use crate::cells::{Name, RowLines, RowNames, read_row};
use crate::fault::{TextCode, TextFault};
use crate::header::{Columns, header_of};
use crate::limits::{MAX_ROWS, MAX_TEXT};
use text_parts::{Lines, TextLine, is_more, is_plain, is_row_line, is_skipped};

/// The state of a row: an empty State cell means the state of the row before.
fn state_behind(before: Name, state: Name) -> Name
    ensures { octets_in result ≡ state_behind (octets_in before) (octets_in state) }
{
    if state.as_slice().is_empty() {
        before
    } else {
        state
    }
}

/// Whether a row begins on a line behind the header, which else is passed over, or its fault.
fn begins_row(line: &[u8], some_row: bool) -> Result<bool, TextCode>
    ensures { IsCase (line_case some_row line.now) result }
{
    if !is_plain(line) {
        return Err(TextCode::BadByte);
    }
    if is_skipped(line) {
        return Ok(false);
    }
    if !is_row_line(line) {
        return Err(TextCode::BadByte);
    }
    if !is_more(line) {
        return Ok(true);
    }
    if !some_row {
        return Err(TextCode::NoRowToContinue);
    }
    Ok(false)
}

/// The next line that isn't skipped, behind skipped lines without a fault.
fn next_kept<'a>(lines: &mut Lines<'a>) -> Result<Option<TextLine<'a>>, TextFault>
    ensures { IsFound (first_kept (lines_left lines.old)) result (lines_left lines.new) }
{
    while let Some(line) = lines.next() {
        if !is_plain(line.octets) {
            let (line, code) = (line.number, TextCode::BadByte);
            return Err(TextFault { line, code });
        }
        if !is_skipped(line.octets) {
            return Ok(Some(line));
        }
    }
    Ok(None)
}

/// Takes off the rows of a text, one after another.
#[derive(Drop)]
pub(crate) struct Reader<'a> {
    lines: Lines<'a>,
    /// The header's line.
    header: usize,
    columns: Columns,
    /// How many rows were taken off.
    pub(crate) count: usize,
    /// The state of the last of them.
    state: Name,
}

impl<'a> Reader<'a> {
    ghost use Rattle.text_parts.specs.Lines.{Line};
    ghost use Rattle.std.specs.Prelude.{not, ◌==◌};
    ghost use Rattle.tab_text.specs.Cells.{Cells};
    ghost use Rattle.tab_text.specs.Reading.{first_row, IsFound, cells_at};
    ghost use Rattle.text_parts.specs.Left.{lines_left};
    ghost use Rattle.tab_text.specs.Reader.{IsAt, IsOpening, IsRowRead, IsRowTaken, IsNextRow};

    /// Reads a text's header.
    pub(crate) fn open(text: &'a [u8]) -> Result<Reader<'a>, TextFault>
        ensures { IsOpening text.now result }
    {
        if text.len() > MAX_TEXT {
            let (line, code) = (0, TextCode::TooLong);
            return Err(TextFault { line, code });
        }
        let mut lines = Lines::new(text);
        let Some(line) = next_kept(&mut lines)? else {
            let (line, code) = (0, TextCode::NoHeader);
            return Err(TextFault { line, code });
        };
        let Some(columns) = header_of(line.octets) else {
            let (line, code) = (line.number, TextCode::NoHeader);
            return Err(TextFault { line, code });
        };
        Ok(Reader {
            lines,
            header: line.number,
            columns,
            count: 0,
            state: Name::new(),
        })
    }

    /// The next line on which a row begins.
    fn next_line(&mut self) -> Result<Option<TextLine<'a>>, TextFault>
        ensures found { IsFound (first_row (not (self.old.count == 0)) (lines_left self.old.lines)) result
            (lines_left self.new.lines) }
        ensures kept { (header : Line) (rows : List Cells) → IsAt header rows self.old → IsAt header rows self.new }
    {
        while let Some(line) = self.lines.next() {
            match begins_row(line.octets, self.count != 0) {
                Ok(true) => return Ok(Some(line)),
                Ok(false) => {}
                Err(code) => {
                    let line = line.number;
                    return Err(TextFault { line, code });
                }
            }
        }
        Ok(None)
    }

    /// The next row, with its state filled in.
    pub(crate) fn next_row(&mut self) -> Result<Option<RowNames>, TextFault>
        ensures { (header : Line) (rows : List Cells) → IsAt header rows self.old
            → IsNextRow header rows (lines_left self.old.lines) result self.new }
    {
        match self.next_line()? {
            Some(line) => {
                let cells = RowLines {
                    columns: self.columns,
                    line,
                    behind: self.lines,
                };
                match self.read(cells) {
                    Ok(row) => Ok(Some(row)),
                    Err(code) => Err(TextFault {
                        line: line.number,
                        code,
                    }),
                }
            }
            None => {
                if self.count == 0 {
                    let (line, code) = (self.header, TextCode::EmptyCell);
                    return Err(TextFault { line, code });
                }
                Ok(None)
            }
        }
    }

    /// The row of cells as it is written, or its first fault; whether there is room for its names
    /// is left open.
    fn row_at(&self, cells: RowLines) -> Result<RowNames, TextCode>
        ensures room { OnOk result (self.now.count < MAX_ROWS) }
        ensures row { (header : Line) (rows : List Cells) → IsAt header rows self.now
            → IsRowRead rows (cells_at cells.entry) result }
    {
        let row = read_row(cells, self.count == 0)?;
        if self.count >= MAX_ROWS {
            return Err(TextCode::TooManyRows);
        }
        Ok(row)
    }

    /// Takes off a row, with its state filled in.
    fn read(&mut self, cells: RowLines) -> Result<RowNames, TextCode>
        ensures row { (header : Line) (rows : List Cells) → IsAt header rows self.old
            → IsRowTaken header rows (cells_at cells.entry) self.new result }
        ensures lines { lines_left self.new.lines ≡ lines_left self.old.lines }
    {
        let row = self.row_at(cells)?;
        let state = state_behind(self.state, row.state);
        self.state = state;
        self.count += 1;
        Ok(RowNames { state, ..row })
    }
}
