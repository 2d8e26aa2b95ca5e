//! The cells of a row, and the row that they spell.
ghost use Rattle.std.specs.Prelude.{◌≡◌, ◌∷◌, [], ◌==◌, ◌&&◌, position, List, ℕ, None, Some, MatchOption, IfSome};
ghost use Rattle.std.specs.List.{flat_map};
ghost use Rattle.text_parts.specs.Words.{tokens, is_token_end};
ghost use Rattle.tab_text.specs.Names.{is_name};
ghost use Rattle.text_parts.specs.Fronts.{IsFront};
ghost use Rattle.tab_text.specs.Cells.{cell, parts, names_apart, condition_of, is_dash};
ghost use Rattle.tab_text.specs.Cells.{actions_of, is_state, row_of, NamedRow};
ghost use Rattle.tab_text.specs.Faults.{is_empty, lacks_cell, has_many};
ghost use Rattle.tab_text.specs.Passing.{own_fault};
ghost use Rattle.tab_text.specs.Reading.{cell_words, cell_octets, cells_at, IsFewIn, IsNextOf};
ghost use Rattle.tab_text.specs.Reading.{row_parts, concat, IsRowFront, IsRowIn, IsOwnRead};

use crate::fault::TextCode;
use crate::header::Columns;
use crate::limits::{MAX_NAME, MAX_ROW_ACTIONS, MAX_ROW_GUARDS};
use crate::spelling::is_name;
use text_parts::{Front, Lines, TextLine, trimmed, trimmed_front};

/// The bytes of a name or a cell, of which no more are kept than a name has.
pub(crate) type Name = Front<u8, MAX_NAME>;

/// Names of a row's guards or actions.
pub(crate) type Few = Front<Name, MAX_ROW_ACTIONS>;

/// Where a column begins, and where the next one does.
#[derive(Clone, Copy)]
pub(crate) struct Span {
    from: usize,
    to: Option<usize>,
}

/// What stands in a column of a line, trimmed.
fn cell(span: Span, line: &[u8]) -> &[u8]
    ensures { result.now ≡ cell span line.now }
{
    let front = match span.to {
        None => line,
        Some(to) => &line[..to.min(line.len())],
    };
    trimmed(&front[span.from.min(front.len())..])
}

/// Where the word in front ends: at a blank or a comma.
fn token_end(text: &[u8]) -> Option<usize>
    ensures { result ≡ position is_token_end text.now }
{
    text.iter().position(|b| *b == b' ' || *b == b',')
}

/// The first word of a part of a cell, and what stands behind it; a comma is a word by itself.
fn first_word(part: &[u8]) -> Option<(&[u8], &[u8])>
    ensures { MatchOption result (tokens part.now ≡ []) (λ found. tokens part.now ≡ found.0.now ∷ tokens found.1.now) }
{
    let rest = trimmed_front(part);
    if rest.is_empty() {
        return None;
    }
    if rest[0] == b',' {
        return Some((&rest[..1], &rest[1..]));
    }
    let len = token_end(rest).unwrap_or(rest.len());
    Some((&rest[..len], &rest[len..]))
}

/// What is left of a cell: of its part on one line, and its parts on the lines that continue it.
#[derive(Clone, Copy)]
struct RowCell<'a> {
    rest: &'a [u8],
    span: Span,
    behind: Lines<'a>,
}

impl<'a> RowCell<'a> {
    /// The next word.
    fn next(&mut self) -> Option<&'a [u8]>
        ensures { IsNextOf (cell_words self.old) (cell_words self.new) result }
    {
        loop {
            if let Some((word, rest)) = first_word(self.rest) {
                self.rest = rest;
                return Some(word);
            }
            let line = self.behind.next_more()?;
            self.rest = cell(self.span, line.octets);
        }
    }

    /// The bytes, with nothing between the parts.
    fn joined(mut self) -> Name
        ensures { IsFront (cell_octets self.entry) result }
    {
        let mut name = Name::new();
        name.extend(self.rest);
        while let Some(line) = self.behind.next_more() {
            name.extend(cell(self.span, line.octets));
        }
        name
    }
}

/// A line on which a row begins, and the lines behind it, the first of which may continue it.
#[derive(Clone, Copy)]
pub(crate) struct RowLines<'a> {
    pub(crate) columns: Columns,
    pub(crate) line: TextLine<'a>,
    pub(crate) behind: Lines<'a>,
}

impl<'a> RowLines<'a> {
    /// A cell of the row.
    fn cell(self, from: usize, to: Option<usize>) -> RowCell<'a>
        ensures words { cell_words result
            ≡ flat_map tokens (parts (record { from = from; to = to }) (row_parts self.entry)) }
        ensures octets { cell_octets result ≡ concat (parts (record { from = from; to = to }) (row_parts self.entry)) }
    {
        let span = Span { from, to };
        RowCell {
            rest: cell(span, self.line.octets),
            span,
            behind: self.behind,
        }
    }

    fn state(self) -> Name
        ensures { IsFront (cells_at self.entry).state result }
    {
        self.cell(2, Some(self.columns.event)).joined()
    }

    fn event(self) -> RowCell<'a>
        ensures { cell_words result ≡ tokens (cells_at self.entry).event }
    {
        self.cell(self.columns.event, Some(self.columns.action))
    }

    fn action(self) -> RowCell<'a>
        ensures { cell_words result ≡ tokens (cells_at self.entry).action }
    {
        self.cell(self.columns.action, Some(self.columns.next))
    }

    fn next(self) -> Name
        ensures { IsFront (cells_at self.entry).next result }
    {
        self.cell(self.columns.next, None).joined()
    }
}

/// A row by its names.
#[derive(Clone, Copy)]
pub(crate) struct RowNames {
    pub(crate) line: usize,
    pub(crate) state: Name,
    pub(crate) kind: Name,
    pub(crate) guards: Few,
    pub(crate) actions: Few,
    pub(crate) next: Name,
}

/// The name that a word is.
fn name_of(word: &[u8]) -> Name
    ensures { IsFront word.now result }
{
    let mut name = Name::new();
    name.extend(word);
    name
}

/// The names with this word between.
fn names_apart(words: &mut RowCell, between: &[u8]) -> Option<Few>
    ensures { IsFewIn (names_apart between.now (cell_words words.old)) result }
{
    let mut names = Few::new();
    loop {
        let name = words.next()?;
        if !is_name(name) {
            return None;
        }
        names.push(name_of(name));
        match words.next() {
            None => return Some(names),
            Some(word) => {
                if word != between {
                    return None;
                }
            }
        }
    }
}

/// The guards behind a kind: none, or `when guard and guard`.
#[tactic(auto, unfolding(crate::specs::Cells::condition_of))]
fn condition_of(words: &mut RowCell) -> Option<Few>
    ensures { IsFewIn (condition_of (cell_words words.old)) result }
{
    match words.next() {
        None => Some(Few::new()),
        Some(word) => {
            if word == b"when".as_slice() {
                names_apart(words, b"and")
            } else {
                None
            }
        }
    }
}

/// Whether a cell is `-` alone.
fn is_dash(mut words: RowCell) -> bool
    ensures { result ≡ is_dash (cell_words words.entry) }
{
    match words.next() {
        None => false,
        Some(word) => word == b"-".as_slice() && words.next().is_none(),
    }
}

/// The actions of a cell.
#[tactic(auto, unfolding(crate::specs::Cells::actions_of))]
fn actions_of(mut words: RowCell) -> Option<Few>
    ensures { IsFewIn (actions_of (cell_words words.entry)) result }
{
    if is_dash(words) {
        Some(Few::new())
    } else {
        names_apart(&mut words, b",")
    }
}

/// Whether the bytes of a cell are a name.
fn is_named(cell: &Name) -> bool
    ensures { (octets : List ℕ) → IsFront octets cell.now → result ≡ is_name octets }
{
    !cell.is_over(MAX_NAME) && is_name(cell.as_slice())
}

/// Whether a State or Next cell is empty.
fn is_bare(cell: &Name) -> bool
    ensures { (octets : List ℕ) → IsFront octets cell.now → result ≡ is_empty octets }
{
    cell.as_slice().is_empty()
}

/// Whether an Event or Action cell is empty.
fn is_wordless(mut cell: RowCell) -> bool
    ensures { result ≡ is_empty (cell_words cell.entry) }
{
    cell.next().is_none()
}

/// Whether a State cell is empty or has a name.
fn is_state(cell: &Name) -> bool
    ensures { (octets : List ℕ) → IsFront octets cell.now → result ≡ is_state octets }
{
    is_bare(cell) || is_named(cell)
}

/// Whether the cells of a row that are one name each are made of names.
fn are_names(state: &Name, kind: &[u8], next: &Name) -> bool
    ensures { (before after : List ℕ) → IsFront before state.now → IsFront after next.now
        → result ≡ (is_state before && is_name kind.now && is_name after) }
{
    is_state(state) && is_name(kind) && is_named(next)
}

/// The row that cells spell.
#[tactic(auto, unfolding(crate::specs::Cells::row_of))]
fn row_of(cells: RowLines) -> Option<RowNames>
    ensures row { IsRowIn (row_of (cells_at cells.entry)) result }
    ensures line { IfSome result (λ row. row.line ≡ cells.entry.line.number) }
{
    let mut words = cells.event();
    let Some(kind) = words.next() else {
        return None;
    };
    let state = cells.state();
    let next = cells.next();
    if !are_names(&state, kind, &next) {
        return None;
    }
    let Some(guards) = condition_of(&mut words) else {
        return None;
    };
    let Some(actions) = actions_of(cells.action()) else {
        return None;
    };
    Some(RowNames {
        line: cells.line.number,
        state,
        kind: name_of(kind),
        guards,
        actions,
        next,
    })
}

/// Whether a row lacks a cell that it must have.
fn lacks_cell(cells: RowLines, is_first: bool) -> bool
    ensures { result ≡ lacks_cell is_first (cells_at cells.entry) }
{
    is_wordless(cells.event())
        || is_wordless(cells.action())
        || is_bare(&cells.next())
        || (is_first && is_bare(&cells.state()))
}

/// Whether a row has over 4 guards or over 8 actions.
fn has_many(row: &RowNames) -> bool
    ensures { (found : NamedRow) → IsRowFront found row.now → result ≡ has_many (Some found) }
{
    row.guards.is_over(MAX_ROW_GUARDS) || row.actions.is_over(MAX_ROW_ACTIONS)
}

/// The row of cells, or the first fault that it has by itself.
#[tactic(auto, unfolding(crate::specs::Passing::own_fault))]
pub(crate) fn read_row(cells: RowLines, is_first: bool) -> Result<RowNames, TextCode>
    ensures { IsOwnRead is_first (cells_at cells.entry) result }
{
    if lacks_cell(cells, is_first) {
        return Err(TextCode::EmptyCell);
    }
    let Some(row) = row_of(cells) else {
        return Err(TextCode::BadName);
    };
    if has_many(&row) {
        return Err(TextCode::TooManyInRow);
    }
    Ok(row)
}
