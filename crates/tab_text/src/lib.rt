//! The text of a state machine's table: rows of State, Event, Action and Next.
#![tactic(auto)]

mod cells;
mod fault;
mod header;
mod limits;
mod name;
mod parsing;
mod reader;
mod room;
mod row;
mod spelling;
mod table;

pub use fault::{ParseError, TextCode, TextFault};
pub use limits::{
    MAX_ACTIONS, MAX_GUARDS, MAX_KINDS, MAX_NAME, MAX_ROW_ACTIONS, MAX_ROW_GUARDS, MAX_ROWS,
    MAX_STATES, MAX_TEXT,
};
pub use name::NameList;
pub use parsing::parse;
pub use row::{Places, Row};
pub use spelling::is_name;
pub use table::Table;
