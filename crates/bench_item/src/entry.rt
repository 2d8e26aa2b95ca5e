//! What a log has of each step.

use crate::item::Item;
use crate::series::Series;
use crate::step::Step;
use acct_totals::Outcome;
use tab_law::{Deed, PLACES};
use tab_step::{Event, MachineState};

/// One move of a machine.
pub struct Moved {
    /// The number of the machine.
    pub machine: u64,
    /// With what the account book said to it among its facts.
    pub event: Event,
    pub before: MachineState,
    pub after: MachineState,
    /// The row of the table that took the event, from 0; none where it has none.
    pub row: Option<u16>,
    /// The registers after each action of that row.
    pub chain: Series<[u64; PLACES]>,
    pub deeds: Series<Deed>,
    /// What became of each deed of the account book.
    pub outcomes: Series<Outcome>,
}

// A derived `drop` is proved anew in each crate that holds such a value; one by hand is a call.
impl Drop for Moved {
    fn drop(self) {
        let Moved {
            machine: _,
            event: _,
            before: _,
            after: _,
            row: _,
            chain,
            deeds,
            outcomes,
        } = self;
    }
}

/// What became of an item that a shard handled.
#[derive(Drop)]
pub enum Handled {
    /// There was no room for its session.
    TooBusy,
    /// Its condition failed, in a machine that stands in this state.
    Stale(u8),
    /// Its machine moved.
    Move(Moved),
}

/// A step that was taken: an entry of the log.
pub struct Entry {
    pub step: Step,
    /// What it put out (`Fired`), carried (`Lift`, `Drop`) or handled (`Work`).
    pub item: Option<Item>,
    /// What became of an item that was handled.
    pub handled: Option<Handled>,
}

impl Drop for Entry {
    fn drop(self) {
        let Entry {
            step,
            item,
            handled,
        } = self;
    }
}
