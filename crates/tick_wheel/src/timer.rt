//! What is armed, and what fires.

/// An armed timer. An owner counts its generations up, and so tells a firing of an earlier arm from one of the last.
#[derive(Clone, Copy, PartialEq, Eq, Drop)]
pub struct Armed {
    /// Given by the owner when it armed the timer.
    pub generation: u64,
    /// The moment, in ticks, from which it is due.
    pub due: u64,
}

/// A timer that was due. Firings compare by due moment, then owner.
#[derive(Clone, Copy, PartialEq, Eq, PartialOrd, Ord, Drop)]
pub struct Firing {
    /// The moment, in ticks, from which it was due.
    pub due: u64,
    /// Whose timer it was.
    pub owner: u64,
    /// The generation under which it was armed.
    pub generation: u64,
}
