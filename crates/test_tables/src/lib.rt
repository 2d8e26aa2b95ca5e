//! The tests of the tables, over the public calls of their crates: laws, stored callbacks and steps.
#![tactic(auto)]

#[cfg(test)]
mod laws;
#[cfg(test)]
mod registry;
#[cfg(test)]
mod steps;
