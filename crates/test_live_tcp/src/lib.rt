//! Tests of live nodes over loopback.
#![tactic(auto)]

#[cfg(test)]
mod loopback;
