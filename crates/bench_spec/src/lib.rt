//! What the running bench means: definitions over its log, and the laws on which the crates above rest.
//!
//! | File of `specs/` | What it has |
//! |---|---|
//! | `Settings`, `Rules`, `Opening` | what a bench is opened with, what octets mean to it, why it is not opened |
//! | `Lines`, `Machines`, `Items`, `Booked`, `Sent`, `Own` | views of a log: each is what one entry gives, joined |
//! | `Refusal` | why a step is refused |
//! | `Legal` | which logs are right |
//! | `World`, `Merged` | the bench at a place of its log, and breakpoints; parts merged to one log |
//! | `Taken`, `Debug`, `Desks` | what the calls of a world, a debugger and a bench in threads promise |
//!
//! `docs/WHOLE.md` has each of them in plain words.
#![tactic(auto)]

mod example;
mod law;
mod opening;

pub use example::{
    busy_log_is_legal, charge_log_is_gathered, charge_log_is_legal, charge_log_is_merged,
    example_is_legal, refused_log_is_legal, session_log_is_legal,
};
pub use law::{
    fronts_are_legal, legal_book_is_answered, legal_goes_back, legal_goes_on, legal_is_own_run,
    legal_is_run, legal_never_over, numbers_agree, pause_only_refuses, replay_then_back, same_laws,
    step_then_back,
};
pub use opening::OpeningError;
