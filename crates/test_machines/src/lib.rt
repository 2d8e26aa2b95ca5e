//! The tests of the shipped machines, over public calls: their tables, and what they do on lists of events.
#![tactic(auto)]

#[cfg(test)]
mod peer_steps;
#[cfg(test)]
mod role_table;
#[cfg(test)]
mod server_needs;
#[cfg(test)]
mod session_steps;
#[cfg(test)]
mod shipped_tables;
