//! A bound table assembled to an image: octets that a machine runs from.
//!
//! [`assemble`] writes format 2. The definitions of both formats, and of what an image leads to, stand in `specs/`.
#![tactic(auto)]

mod assembling;
mod code;

pub use assembling::assemble;
