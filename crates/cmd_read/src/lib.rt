//! A run of `read`: messages of a file or of standard input, by the dictionary of another file or without one.
#![tactic(auto)]

mod reading;

pub use reading::read;
