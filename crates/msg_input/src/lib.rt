//! An input of hexadecimal digits, whole or line by line: its messages in order, printed by a printer as they come.
#![tactic(auto)]

mod by_line;
mod ends;
mod line_read;
mod printer;
mod read;
mod reading;
mod report;
mod style;

pub use ends::{End, EndWords, Place, Refusal, placed, unplaced};
pub use line_read::read_lines_in;
pub use printer::Printer;
pub use read::read_in;
pub use report::Report;
pub use style::Style;
