//! Moves of machines as the log keeps them.
ghost use Rattle.std.specs.Prelude.{◌≡◌, IfOk};

use crate::state::KeptState;
use acct_totals::Outcome;
use bench_item::{Moved, Series};
use std::alloc::{AllocError, Global};
use std::marker::Model;
use tab_kept::{KeptDeed, KeptEvent, Places};
use tab_law::{Deed, PLACES};
use tab_step::Stepped;

/// One move of a machine, kept small. A contract sees the plain move.
pub struct KeptMoved {
    machine: u64,
    event: KeptEvent,
    before: KeptState,
    after: KeptState,
    row: Option<u16>,
    chain: Vec<Places>,
    deeds: Vec<KeptDeed>,
    outcomes: Vec<Outcome>,
}

// A derived `drop` takes far longer to prove.
impl Drop for KeptMoved {
    fn drop(self) {
        let KeptMoved {
            machine: _,
            event,
            before,
            after,
            row: _,
            chain,
            deeds,
            outcomes,
        } = self;
    }
}

impl Model for KeptMoved {
    ghost use Rattle.bench_item.specs.declared.entry.Moved.{Moved};

    ghost Value = { Moved };

    ghost view = { λ k. record {
      machine = k.machine;
      event = k.event;
      before = k.before;
      after = k.after;
      row = k.row;
      chain = k.chain.items;
      deeds = k.deeds.items;
      outcomes = k.outcomes.items;
    } };
}

/// Keeps the registers after each action.
fn keep_chain(alloc: Global, plain: &[[u64; PLACES]]) -> Result<Vec<Places>, AllocError>
    ensures { IfOk result (λ kept. kept.items ≡ plain.now) }
{
    let mut kept = Vec::with_capacity(alloc, plain.len())?;
    for regs in plain {
        kept.push(Places::keep(alloc, regs)?)?;
    }
    Ok(kept)
}

/// The registers after each action.
fn show_chain(alloc: Global, kept: &[Places]) -> Result<Vec<[u64; PLACES]>, AllocError>
    ensures { IfOk result (λ plain. plain.items ≡ kept.now) }
{
    let mut plain = Vec::with_capacity(alloc, kept.len())?;
    for regs in kept {
        plain.push(regs.show())?;
    }
    Ok(plain)
}

/// Keeps deeds.
fn keep_deeds(alloc: Global, plain: &[Deed]) -> Result<Vec<KeptDeed>, AllocError>
    ensures { IfOk result (λ kept. kept.items ≡ plain.now) }
{
    let mut kept = Vec::with_capacity(alloc, plain.len())?;
    for deed in plain {
        kept.push(KeptDeed::keep(alloc, deed)?)?;
    }
    Ok(kept)
}

/// The deeds.
fn show_deeds(alloc: Global, kept: &[KeptDeed]) -> Result<Vec<Deed>, AllocError>
    ensures { IfOk result (λ plain. plain.items ≡ kept.now) }
{
    let mut plain = Vec::with_capacity(alloc, kept.len())?;
    for deed in kept {
        plain.push(deed.show())?;
    }
    Ok(plain)
}

impl KeptMoved {
    /// The move of the machine of that number from what a step left.
    pub fn of_step(
        alloc: Global,
        machine: u64,
        event: KeptEvent,
        before: &KeptState,
        stepped: &Stepped,
        outcomes: Vec<Outcome>,
    ) -> Result<KeptMoved, AllocError>
        ensures { IfOk result (λ moved. moved ≡ record {
          machine = machine;
          event = event;
          before = before.now;
          after = stepped.now.after;
          row = stepped.now.row;
          chain = stepped.now.chain;
          deeds = stepped.now.deeds;
          outcomes = outcomes.items;
        }) }
    {
        let before = before.copy()?;
        let after = KeptState::keep(alloc, &stepped.after)?;
        let chain = keep_chain(alloc, stepped.chain.as_slice())?;
        let deeds = keep_deeds(alloc, stepped.deeds.as_slice())?;
        Ok(KeptMoved {
            machine,
            event,
            before,
            after,
            row: stepped.row,
            chain,
            deeds,
            outcomes,
        })
    }

    /// Keeps a move.
    pub fn keep(alloc: Global, plain: &Moved) -> Result<KeptMoved, AllocError>
        ensures { IfOk result (λ kept. kept ≡ plain.now) }
    {
        let event = KeptEvent::keep(alloc, &plain.event)?;
        let before = KeptState::keep(alloc, &plain.before)?;
        let after = KeptState::keep(alloc, &plain.after)?;
        let chain = keep_chain(alloc, plain.chain.as_slice())?;
        let deeds = keep_deeds(alloc, plain.deeds.as_slice())?;
        let outcomes = Vec::from_slice(alloc, plain.outcomes.as_slice())?;
        Ok(KeptMoved {
            machine: plain.machine,
            event,
            before,
            after,
            row: plain.row,
            chain,
            deeds,
            outcomes,
        })
    }

    /// The move.
    pub(crate) fn show(&self, alloc: Global) -> Result<Moved, AllocError>
        ensures { IfOk result (λ plain. plain ≡ self.now) }
    {
        let chain = show_chain(alloc, &self.chain)?;
        let deeds = show_deeds(alloc, &self.deeds)?;
        let outcomes = Vec::from_slice(alloc, &self.outcomes)?;
        Ok(Moved {
            machine: self.machine,
            event: self.event.show(),
            before: self.before.show(),
            after: self.after.show(),
            row: self.row,
            chain: Series::new(chain),
            deeds: Series::new(deeds),
            outcomes: Series::new(outcomes),
        })
    }

    /// Where the machine came to stand.
    pub fn after(&self) -> &KeptState
        ensures { result.now ≡ self.now.after }
    {
        &self.after
    }

    /// The number of the machine.
    pub(crate) fn machine(&self) -> u64
        ensures { result ≡ self.now.machine }
    {
        self.machine
    }
}
