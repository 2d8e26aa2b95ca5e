//! The tests of the roles, over their public calls:
//! callbacks, events and messages of peers, what messages of credit control say, and those that deeds send.
#![tactic(auto)]

#[cfg(test)]
mod charge_messages;
#[cfg(test)]
mod facts;
#[cfg(test)]
mod octets;
#[cfg(test)]
mod peer_events;
#[cfg(test)]
mod peer_messages;
#[cfg(test)]
mod registering;
