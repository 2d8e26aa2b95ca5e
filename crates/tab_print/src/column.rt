//! The columns of a table.
ghost use Rattle.std.specs.Prelude.{◌≡◌};
ghost use Rattle.tab_print.specs.Cells.{heading};

/// A column of a table's text.
#[derive(Clone, Copy)]
pub(crate) enum Column {
    State,
    Event,
    Action,
    Next,
}

/// The word over a column.
pub(crate) fn heading(column: Column) -> &'static [u8]
    ensures { result.now ≡ heading column }
{
    match column {
        Column::State => b"State",
        Column::Event => b"Event",
        Column::Action => b"Action",
        Column::Next => b"Next",
    }
}
