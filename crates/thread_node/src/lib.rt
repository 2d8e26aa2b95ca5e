//! A node whose shards run in threads, as its sockets see it.
//!
//! | File | What it has |
//! |---|---|
//! | `node` | a node: its bench, its desks, what its connections sent |
//! | `start` | its bench is started |
//! | `feed` | a step is fed to its bench |
//! | `port` | what its sockets ask of it |
//! | `carry` | what connections put out is carried |
//! | `texts` | what connections sent |
//! | `draw` | and how it is drawn |
//! | `board` | where machines stood when they were looked at, as a desk sees it |
//! | `tell` | desks tell |
//! | `turn` | all that it does of itself |
//! | `wakes` | a worker wakes the sockets |
//! | `end` | the bench ends, and its parts are gathered |
#![tactic(auto)]

mod board;
mod carry;
mod draw;
mod end;
mod feed;
mod node;
mod port;
mod start;
mod tell;
mod texts;
mod turn;
mod wakes;

pub use node::ThreadNode;
pub use wakes::Wakes;
