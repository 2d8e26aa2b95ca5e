//! Images of state tables loaded to programs.
//!
//! [`load`] takes both formats, by the octets that an image begins with. What an image is stands in `tab_asm/specs`.
#![tactic(auto)]

mod body;
mod checks;
mod counts;
mod fault;
mod instruction;
mod loading;
mod names;
mod program;
mod scan;

pub use checks::size_of_step;
pub use counts::{Format, width_of};
pub use fault::{ImageFault, LoadError, LoadFault};
pub use instruction::{CodeInstruction, step_in};
pub use loading::load;
pub use names::{ImageNames, Names};
pub use program::Program;
