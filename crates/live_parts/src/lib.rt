//! The connections and the timers of a bench that runs in threads,
//! each with the stamped entries of their part of the log; no lock is taken here.
//!
//! | File | What it has |
//! |---|---|
//! | `stamped` | entries with the stamps that were drawn for them |
//! | `lines` | the connections' part: what happens to them, what is lifted from them |
//! | `deliver` | what is dropped to connections |
//! | `clock` | the timers' part: armed, disarmed, fired, what fired lifted |
//! | `due` | which timers are due, and time passes |
//! | `entries` | entries of steps that handle nothing |
#![tactic(auto)]

mod clock;
mod deliver;
mod due;
mod entries;
mod lines;
mod stamped;

pub use bench_desk::CarryFault;
pub use clock::ClockPart;
pub use lines::LinesPart;
pub use stamped::StampedLog;
