//! A row of a table.
use crate::limits::MAX_ROW_ACTIONS;
use base_list::FixedList;

/// Numbers of a row's guards or actions, in order.
pub type Places = FixedList<u8, MAX_ROW_ACTIONS>;

/// A row of a table. Its names are given by their numbers in the table's lists.
#[derive(Drop)]
pub struct Row {
    pub state: u8,
    pub kind: u8,
    pub guards: Places,
    pub actions: Places,
    pub next: u8,
}
