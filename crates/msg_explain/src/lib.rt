//! What a message says, in names: its header, each AVP where it lies, and its fault.
#![tactic(auto)]

mod explaining;
mod faulty;
mod lines;
mod messages;
mod parts;

pub use explaining::explain;
pub use faulty::{failed_place, reason};
pub use lines::{broken_words, flag_letter};
pub use messages::session_in;
pub use parts::{Part, length_at, parts_of};
