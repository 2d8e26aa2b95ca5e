//! Scripts run on a bench, and what that prints.
//!
//! | File | What it has |
//! |---|---|
//! | `entry` | the text of an entry that was taken, and of a step that was refused |
//! | `next` | the next step that carries or handles what waits |
//! | `steps` | a step tried; all that waits settled |
//! | `script` | the lines of a script |
//! | `ends` | what lines sent, and what stands on accounts |
#![tactic(auto)]

mod ends;
mod entry;
mod next;
mod script;
mod steps;

pub use bench_core::Core;
pub use ends::{put_lines, put_stands, put_totals};
pub use entry::put_taken;
pub use next::line_count;
pub use script::run_script;
