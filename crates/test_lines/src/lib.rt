//! Tests of connections, of the log and of their texts, over public calls alone.
#![tactic(auto)]

#[cfg(test)]
mod answers;
#[cfg(test)]
mod cuts;
#[cfg(test)]
mod dials;
#[cfg(test)]
mod logs;
#[cfg(test)]
mod node;
#[cfg(test)]
mod posts;
#[cfg(test)]
mod reads;
