//! The whole bench in one value.
//!
//! | File | What it has |
//! |---|---|
//! | `world` | a world: opened, its steps, taken back |
//! | `law` | what holds of every world |
//! | `takes_steps` | what takes steps as a world does, for what is generic over it |
#![tactic(auto)]

mod law;
mod takes_steps;
mod world;

pub use bench_core::ReplayError;
pub use takes_steps::TakesSteps;
pub use world::World;
