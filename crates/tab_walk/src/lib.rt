//! A walk: a table of a state machine, or its image, stepped over a list of events, and what that prints.
#![tactic(auto)]

mod pour;
mod start;
mod steps;
mod walk;
mod why;

pub use start::WalkOptions;
pub use walk::walk_on;
