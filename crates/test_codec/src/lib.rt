//! Tests of AVPs, frames and the dictionary, over their public calls alone.
#![tactic(auto)]

#[cfg(test)]
mod avp;
#[cfg(test)]
mod dict;
#[cfg(test)]
mod frame;
