//! One step of a state table over stored callbacks of guards and actions, and runs of steps.
//!
//! A table's names are looked up once ([`bind`]); then [`step`] finds the first row that takes an
//! event, has its actions done in order, and says what is left; [`step_into`] writes that into room that
//! its caller keeps. [`is_step`] judges a step that was taken before, over the laws alone. [`run`] steps
//! over a list of events.
#![tactic(auto)]

mod binding;
mod bound;
mod judging;
mod machine;
mod running;
mod stepping;
mod taking;

pub use binding::{Unbound, bind};
pub use bound::{Bound, RowPlaces};
pub use judging::is_step;
pub use machine::{Event, MachineState, Stepped};
pub use running::run;
pub use stepping::{act_all, stay, step, step_into};
