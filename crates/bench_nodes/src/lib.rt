//! Several nodes, each a bench of its own, and the octets that are carried between them.
//!
//! | File | What it has |
//! |---|---|
//! | `node` | a node; an end of a connection, and a connection between two |
//! | `marked` | what a node prints, each of its lines behind its host |
//! | `acts` | a line of a script done at a node |
//! | `links` | what comes at the other end of a connection |
//! | `dials` | connections that are being dialled are accepted by a node, or lost |
//! | `settled` | all of that until nothing is left |
//! | `script` | the lines of a script of several nodes, read and done |
//! | `ends` | what is printed at the end |
#![tactic(auto)]

mod acts;
mod dials;
mod ends;
mod links;
mod marked;
mod node;
mod script;
mod settled;

pub use bench_script::{Core, put_taken};
pub use ends::{put_node_lines, put_node_totals};
pub use node::{Crossing, End, Link, Linked, Node, Way};
pub use script::{NodeLine, read_nodes_script, run_nodes};
