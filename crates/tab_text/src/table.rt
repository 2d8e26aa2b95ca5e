//! A table as it is held.
ghost use Rattle.std.specs.Prelude.{◌≡◌};
ghost use Rattle.std.specs.List.{slice_get};

use crate::name::NameList;
use crate::row::Row;
use std::marker::Model;

/// A state machine's table: names, numbered by first appearance, and rows in text order.
/// State 0 is the state in which a machine starts.
pub struct Table {
    states: NameList,
    kinds: NameList,
    guards: NameList,
    actions: NameList,
    rows: Vec<Row>,
    /// The line of the text on which each row begins.
    lines: Vec<usize>,
}

// A derived `drop` is proved anew at each way out of each function that holds a table; this one is a call.
impl Drop for Table {
    fn drop(self) {
        let Table {
            states,
            kinds,
            guards,
            actions,
            rows,
            lines,
        } = self;
    }
}

impl Model for Table {
    ghost use Rattle.tab_text.specs.Contents.{Contents, made_of};
    ghost use Rattle.tab_text.specs.Rows.{IsNumberedTable};

    ghost Value = { Contents };

    ghost view = { λ t. made_of t.states t.kinds t.guards t.actions t.rows.items t.lines.items };

    ghost invariant = { λ t. IsNumberedTable (made_of t.states t.kinds t.guards t.actions t.rows.items t.lines.items) };
}

impl Table {
    ghost use Rattle.tab_text.specs.Contents.{IsTable, made_of};
    ghost use Rattle.tab_text.specs.Rows.{IsNumberedTable};

    pub(crate) fn new(
        states: NameList,
        kinds: NameList,
        guards: NameList,
        actions: NameList,
        rows: Vec<Row>,
        lines: Vec<usize>,
    ) -> Table
        requires { IsNumberedTable (made_of states kinds guards actions rows.items lines.items) }
        ensures { result ≡ made_of states kinds guards actions rows.items lines.items }
    {
        Table {
            states,
            kinds,
            guards,
            actions,
            rows,
            lines,
        }
    }

    /// The rows in text order.
    pub fn rows(&self) -> &[Row]
        ensures rows { result.now ≡ self.now.rows }
        ensures table { IsTable self.now }
        ensures numbered { IsNumberedTable self.now }
    {
        self.rows.as_slice()
    }

    /// The line of the text on which a row begins, from 1; rows are numbered from 0.
    pub fn line_of(&self, row: usize) -> Option<usize>
        ensures { result ≡ slice_get self.now.lines row }
    {
        self.lines.get(row).copied()
    }

    /// The names of the states, by number.
    pub fn states(&self) -> &NameList
        ensures names { result.now ≡ self.now.states }
        ensures table { IsTable self.now }
    {
        &self.states
    }

    /// The names of the kinds of events, by number.
    pub fn kinds(&self) -> &NameList
        ensures names { result.now ≡ self.now.kinds }
        ensures table { IsTable self.now }
    {
        &self.kinds
    }

    /// The names of the guards, by number.
    pub fn guards(&self) -> &NameList
        ensures names { result.now ≡ self.now.guards }
        ensures table { IsTable self.now }
    {
        &self.guards
    }

    /// The names of the actions, by number.
    pub fn actions(&self) -> &NameList
        ensures names { result.now ≡ self.now.actions }
        ensures table { IsTable self.now }
    {
        &self.actions
    }
}
