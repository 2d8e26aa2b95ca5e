//! A state machine's table as a graph, in the language of Graphviz.
#![tactic(auto)]

mod graph;
mod label;
mod run;

pub use graph::draw;
pub use run::draw_on;
