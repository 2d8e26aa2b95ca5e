//! A desk, and the shard that it tells events and looks at, in a bench that runs in threads; no lock is taken here.
//!
//! | File | What it has |
//! |---|---|
//! | `part` | a shard with the stamped entries of what was done to it |
//! | `work` | its oldest item is handled, and what it put out is lifted |
//! | `desk` | what a desk kept, and its counts |
//! | `tell`, `look` | a desk tells a shard an event, and looks at it |
//! | `note` | what a desk keeps, as it is stored |
//! | `fault` | why a tell or a look is refused |
#![tactic(auto)]

mod desk;
mod fault;
mod look;
mod note;
mod part;
mod tell;
mod work;

pub use desk::Desk;
pub use fault::{CarryFault, DeskFault};
pub use look::Look;
pub use part::ShardPart;
