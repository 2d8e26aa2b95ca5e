//! What guards and actions see, and deeds.
ghost use Rattle.tab_law.specs.Scenes.{IsScene, IsDeed};

use crate::limits::{MAX_DEEDS, MAX_EMITS, MAX_ROW_ACTIONS, PLACES};
use base_list::FixedList;

/// What a guard or an action sees: the machine's registers and the event's facts.
#[derive(Clone, Copy, PartialEq, Eq)]
pub struct Scene {
    pub regs: [u64; PLACES],
    pub facts: [u64; PLACES],
}

/// What an action has done outside its machine: a code, and arguments `a`.
#[derive(Clone, Copy, PartialEq, Eq)]
pub struct Deed {
    pub code: u16,
    pub a: [u64; PLACES],
}

/// The deeds of one action, in order.
pub type ActDeeds = FixedList<Deed, MAX_EMITS>;

/// The deeds of a step, in order. The room lies in the value, 16 kilobytes of it, so keep it out of deep chains of
/// calls.
pub type Deeds = FixedList<Deed, MAX_DEEDS>;

/// The registers after each action of a row, in order.
pub type Chain = FixedList<[u64; PLACES], MAX_ROW_ACTIONS>;

impl Default for Deed {
    /// What stands in unused room.
    fn default() -> Deed {
        Deed {
            code: 0,
            a: [0; PLACES],
        }
    }
}

impl Scene {
    /// Tells a proof in another crate that a scene has all its places.
    pub fn known(&self)
        ensures { IsScene self.now }
    {}
}

impl Deed {
    /// Tells a proof in another crate that a deed has all its places.
    pub fn known(&self)
        ensures { IsDeed self.now }
    {}
}
