//! Machines, events and steps.
ghost use Rattle.std.specs.Prelude.{◌≡◌, [], None, replicate};
ghost use Rattle.tab_law.specs.declared.limits.TheConstants.{PLACES};

use tab_law::{Acted, Chain, Deeds, PLACES};

/// Where a machine stands: the number of its state in its table, and its registers.
#[derive(Clone, Copy, PartialEq, Eq)]
pub struct MachineState {
    pub state: u8,
    pub regs: [u64; PLACES],
}

/// Something that happens to a machine: the place of its kind in the book of laws, and facts.
#[derive(Clone, Copy, PartialEq, Eq)]
pub struct Event {
    pub kind: u8,
    pub facts: [u64; PLACES],
}

/// What one step leaves. It holds room for all its deeds, 24 kilobytes: keep it out of deep chains of
/// calls. A caller that steps often keeps one, and has `step_into` write into it.
#[derive(Drop)]
pub struct Stepped {
    pub after: MachineState,
    /// The number of the row that took the event, from 0; none where the table has none.
    pub row: Option<u16>,
    pub deeds: Deeds,
    /// The registers after each of the row's actions.
    pub chain: Chain,
    /// Where an action writes its answer.
    pub(crate) acted: Acted,
}

impl Stepped {
    /// Room for a step: state 0, registers 0, no row, no deeds, no chain.
    pub fn new() -> Stepped
        ensures after { result.after ≡ record { state = 0; regs = replicate PLACES 0 } }
        ensures row { result.row ≡ None }
        ensures deeds { result.deeds ≡ [] }
        ensures chain { result.chain ≡ [] }
    {
        let after = MachineState {
            state: 0,
            regs: [0; PLACES],
        };
        Stepped {
            after,
            row: None,
            deeds: Deeds::new(),
            chain: Chain::new(),
            acted: Acted::new(),
        }
    }
}
