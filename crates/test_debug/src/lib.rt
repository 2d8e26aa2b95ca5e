//! Tests of the debugger, over public calls alone.
#![tactic(auto)]

#[cfg(test)]
mod looks;
#[cfg(test)]
mod sessions;
