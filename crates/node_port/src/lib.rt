//! A live node behind its sockets: what `net_sockets` asks of a bench, by the node's calls.
#![tactic(auto)]

mod port;

pub use port::{NodePort, number_of, refusal_of};
