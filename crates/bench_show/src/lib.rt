//! What a bench shows at its place, as text.
//!
//! | File | What it has |
//! |---|---|
//! | `history` | the moves of a machine |
//! | `why` | the event, the row and the guards of a move |
//! | `lines` | where connections stand |
//! | `timers` | the timers that are armed |
//! | `queues` | what waits in outboxes, hands and inboxes |
//! | `accounts` | what stands on accounts |
#![tactic(auto)]

mod accounts;
mod history;
mod lines;
mod queues;
mod timers;
mod why;

pub use accounts::put_accounts;
pub use history::{last_move, put_history};
pub use lines::put_line_states;
pub use queues::put_queues;
pub use timers::put_timers;
pub use why::put_why;
