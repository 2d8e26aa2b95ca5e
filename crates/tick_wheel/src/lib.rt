//! Timers in ticks: at most one for each owner, and what is due at a moment.
#![tactic(auto)]

mod places;
mod timer;
mod wheel;

pub use timer::{Armed, Firing};
pub use wheel::Wheel;
