//! Tests of messages, over their public calls alone.
#![tactic(auto)]

#[cfg(test)]
mod message;
#[cfg(test)]
mod octets;
#[cfg(test)]
mod services;
#[cfg(test)]
mod worked;
