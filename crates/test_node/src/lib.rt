//! The tests of a server's node, over public calls: requests of credit control charged, from octets to octets.
#![tactic(auto)]

#[cfg(test)]
mod charging;
#[cfg(test)]
mod charging_octets;
#[cfg(test)]
mod charging_step;
#[cfg(test)]
mod roles;
