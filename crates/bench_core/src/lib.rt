//! The whole bench in one value, but its callbacks.
//!
//! | File | What it has |
//! |---|---|
//! | `keeping` | all of a world but its callbacks |
//! | `looks`, `names`, `queues`, `waiting` | what a world shows |
//! | `refusal`, `told`, `carry_faults` | why a step is refused |
//! | `room`, `entries` | room for one more entry and its record; entries that carry nothing and move nothing |
//! | `opening`, `parts` | a world is opened, and each of its parts |
//! | `tell` | a desk tells a machine an event |
//! | `lines` | what happens to connections |
//! | `fire` | a timer fires |
//! | `carry` | an item is lifted from a source, or dropped where it is for |
//! | `work` | a shard handles its oldest item |
//! | `back` | the last step is taken back |
//! | `pause` | a shard is paused, and goes on |
//! | `step` | a step is taken, or refused |
//! | `replay`, `replay_carried`, `replay_work` | an entry is added as it is: of any step, without work, of work |
#![tactic(auto)]

mod back;
mod carry;
mod carry_faults;
mod entries;
mod fire;
mod keeping;
mod lines;
mod looks;
mod names;
mod opening;
mod parts;
mod pause;
mod queues;
mod refusal;
mod replay;
mod replay_carried;
mod replay_work;
mod room;
mod step;
mod tell;
mod told;
mod waiting;
mod work;

pub use keeping::Core;
pub use names::LentNames;
pub use replay::ReplayError;
