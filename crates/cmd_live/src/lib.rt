//! `live`: the nodes of a CONFIG over TCP, side by side.
//!
//! | File | What it has |
//! |---|---|
//! | `words` | what the words ask for |
//! | `opening` | a node of a CONFIG as a live node |
//! | `places` | where nodes listen, and where peers are dialled |
//! | `nodes` | the nodes of a CONFIG that are to live, opened, and their sockets |
//! | `twice` | nodes that are to live and have one host |
//! | `stop` | what stands in their way |
//! | `told` | what is told of all nodes, and their files |
//! | `run` | all of that, to a status |
#![tactic(auto)]

mod nodes;
mod opening;
mod places;
mod run;
mod stop;
mod told;
mod twice;
mod words;

pub use run::live;
pub use words::LiveWords;
