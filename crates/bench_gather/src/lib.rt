//! The parts of a bench that ran in threads are gathered to one world:
//! their entries, in the order of their stamps, are replayed on a world that was opened as the bench was.
//!
//! | File | What it has |
//! |---|---|
//! | `gathering` | parts are gathered, or why not is told |
//! | `gives` | whether parts give the log of an order |
//! | `stand`, `tells`, `fed` | of that: looks stand with desks, desks tell, what was fed is there once |
//! | `pages`, `booked` | and that each page has what was booked on it |
//! | `order` | the entries of parts are replayed in an order |
//! | `law` | the log filtered by a part is that part; what is gathered, and what it is where parts are merged |
//! | `replayed` | a log is replayed from the opening on, or where it is not legal is told |
//! | `unwind` | all steps are taken back |
//! | `fault` | why no world is gathered |
#![tactic(auto)]

mod booked;
mod fault;
mod fed;
mod gathering;
mod gives;
mod law;
mod order;
mod pages;
mod replayed;
mod stand;
mod tells;
mod unwind;

pub use fault::GatherFault;
pub use gathering::gather;
pub use law::{by_parts, gathered_is_merged, merged_disagrees, merged_is_gathered};
pub use replayed::replay_log;
