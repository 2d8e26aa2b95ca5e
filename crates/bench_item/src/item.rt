//! What is on its way, and where to.

use crate::key::Key;
use base_list::Octets;
use tab_kept::{KeptDeed, KeptEvent};

/// What a register of a machine must hold for an item to be handled; else the item is stale.
#[derive(Clone, Copy)]
pub struct Condition {
    /// Below 64.
    pub register: u8,
    pub value: u64,
}

/// An event on its way to a machine. Its kind is a place in the book of laws.
pub struct MachineItem {
    pub key: Key,
    pub event: KeptEvent,
    pub condition: Option<Condition>,
    /// The Session-Id that the event hands on, without octets where it has none.
    pub session: Octets,
}

// A derived `drop` is proved anew in each crate that holds such a value; one by hand is a call.
impl Drop for MachineItem {
    fn drop(self) {
        let MachineItem {
            key,
            event,
            condition: _,
            session,
        } = self;
    }
}

/// A deed on its way to a connection: Close, or one that sends a message.
pub struct LineItem {
    /// The number of the connection, from 1; there need not be such a one.
    pub line: u64,
    pub deed: KeptDeed,
    /// The Session-Id of the message, without octets where it has none.
    pub session: Octets,
}

impl Drop for LineItem {
    fn drop(self) {
        let LineItem {
            line: _,
            deed,
            session,
        } = self;
    }
}

/// What is on its way from a source, and where to.
#[derive(Drop)]
pub enum Item {
    /// To a machine, by the inbox of its shard.
    ToMachine(MachineItem),
    /// To a connection.
    ToLine(LineItem),
    /// To the connections: opens one to the peer whose machine has that number.
    Dial {
        peer: u64,
        generation: u64,
    },
    /// To the connections: closes the one that this dial opened.
    Undial {
        peer: u64,
        generation: u64,
    },
    /// To the timers: arms that of a machine, in place of what it had.
    Arm {
        machine: u64,
        generation: u64,
        ticks: u64,
    },
    /// To the timers: disarms that of a machine.
    Disarm {
        machine: u64,
    },
}
