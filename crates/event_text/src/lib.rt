//! Events and deeds as text: a line each, a name and then numbers.
#![tactic(auto)]

mod deeds;
mod events;
mod wrong;

pub use deeds::{put_deed, put_deed_words, put_deeds, put_name};
pub use events::{Events, LinesError, fact_of, facts_of, first_bad, is_skipped, registers_of};
pub use wrong::{WrongWord, wrong_word};
