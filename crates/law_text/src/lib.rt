//! Laws in words: what a guard tests, what an action changes and hands out, a line each under its name.
//!
//! `rN` is a register before the action, `rN after` one after it, `fN` a fact of the event.
#![tactic(auto)]

mod book;
mod sentence;
mod unmet;
mod words;

pub use book::put_book;
pub use unmet::{first_unmet, put_unmet};
