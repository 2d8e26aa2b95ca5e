//! Tests of what threads share, over public calls alone.
#![tactic(auto)]

#[cfg(test)]
mod desks;
#[cfg(test)]
mod pages;
#[cfg(test)]
mod stamps;
