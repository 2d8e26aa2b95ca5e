//! Tests of the event loop over loopback.
#![tactic(auto)]

#[cfg(test)]
mod flow;
#[cfg(test)]
mod loopback;
