//! Tests of live nodes without sockets: what one sent is carried to the other by the test, or comes of devices of
//! memory; and of a node as text.
#![tactic(auto)]

#[cfg(test)]
mod pair;
#[cfg(test)]
mod pumped;
#[cfg(test)]
mod rows;
#[cfg(test)]
mod tests;
#[cfg(test)]
mod texts;
