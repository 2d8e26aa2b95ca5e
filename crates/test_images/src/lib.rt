//! The tests of images, over the public calls of their crates.
#![tactic(auto)]

#[cfg(test)]
mod assembled;
#[cfg(test)]
mod loaded;
#[cfg(test)]
mod run;
