//! Entries as the log keeps them.
ghost use Rattle.std.specs.Prelude.{◌≡◌, IfOk, None, Some, option_copied};
ghost use Rattle.bench_item.specs.declared.entry.Handled.TheVariants.{Move, Stale, TooBusy};
ghost use Rattle.bench_item.specs.declared.item.Item.TheVariants.{ToMachine};
ghost use Rattle.bench_item.specs.declared.step.Step.TheVariants as steps;
ghost use Rattle.bench_log.specs.Twins.{step_of};
ghost use Rattle.bench_log.specs.Moves.{entry_with, is_stale, machine_in, move_in, moves};

use crate::item::{KeptItem, KeptMachineItem};
use crate::moved::KeptMoved;
use crate::step::KeptStep;
use base_list::Octets;
use bench_item::{Entry, Handled, Item, MachineItem, Source, Step};
use std::alloc::{AllocError, Global};
use std::marker::Model;

/// What became of an item that a shard handled.
#[derive(Drop)]
pub(crate) enum HandledForm {
    TooBusy,
    Stale(u8),
    Move(Box<KeptMoved>),
}

/// What became of an item that a shard handled, kept small. A contract sees the plain one.
pub struct KeptHandled {
    form: HandledForm,
}

impl Drop for KeptHandled {
    fn drop(self) {
        let KeptHandled { form } = self;
    }
}

impl Model for KeptHandled {
    ghost use Rattle.bench_item.specs.declared.entry.Handled.{Handled};

    ghost Value = { Handled };

    ghost use Rattle.bench_log.specs.Twins.{handled_of};

    ghost view = { λ k. handled_of k.form };
}

/// An entry in the room that the log keeps it in. A contract sees the plain entry.
pub struct KeptEntry {
    step: KeptStep,
    item: Option<KeptItem>,
    handled: Option<KeptHandled>,
}

// A derived `drop` is proved anew in each crate that holds entries; this one is a call.
impl Drop for KeptEntry {
    fn drop(self) {
        let KeptEntry {
            step,
            item,
            handled,
        } = self;
    }
}

impl Model for KeptEntry {
    ghost use Rattle.bench_item.specs.declared.entry.Entry.{Entry};

    ghost Value = { Entry };

    ghost use Rattle.bench_log.specs.Twins.{step_of};

    ghost view = { λ k. record { step = step_of k.step; item = k.item; handled = k.handled } };
}

impl KeptHandled {
    /// There was no room for its session. Takes no memory.
    pub fn too_busy() -> KeptHandled
        ensures { result ≡ TooBusy }
    {
        KeptHandled {
            form: HandledForm::TooBusy,
        }
    }

    /// Its condition failed, in a machine that stands in this state. Takes no memory.
    pub fn stale(state: u8) -> KeptHandled
        ensures { result ≡ Stale state }
    {
        KeptHandled {
            form: HandledForm::Stale(state),
        }
    }

    /// Its machine moved so.
    pub fn of_move(alloc: Global, moved: KeptMoved) -> Result<KeptHandled, AllocError>
        ensures { IfOk result (λ kept. kept ≡ Move moved) }
    {
        Ok(KeptHandled {
            form: HandledForm::Move(Box::new(alloc, moved)?),
        })
    }

    /// Keeps what became of an item.
    pub fn keep(alloc: Global, plain: &Handled) -> Result<KeptHandled, AllocError>
        ensures { IfOk result (λ kept. kept ≡ plain.now) }
    {
        match plain {
            Handled::TooBusy => Ok(KeptHandled::too_busy()),
            Handled::Stale(state) => Ok(KeptHandled::stale(*state)),
            Handled::Move(moved) => {
                let kept = KeptMoved::keep(alloc, moved)?;
                KeptHandled::of_move(alloc, kept)
            }
        }
    }

    fn show(&self, alloc: Global) -> Result<Handled, AllocError>
        ensures { IfOk result (λ plain. plain ≡ self.now) }
    {
        Ok(match &self.form {
            HandledForm::TooBusy => Handled::TooBusy,
            HandledForm::Stale(state) => Handled::Stale(*state),
            HandledForm::Move(moved) => Handled::Move(moved.show(alloc)?),
        })
    }

    /// Its machine's move, if that is what became of it. Takes no memory.
    pub fn moved(&self) -> Option<&KeptMoved>
        ensures { option_copied result ≡ move_in self.now }
    {
        match &self.form {
            HandledForm::Move(moved) => Some(moved),
            _ => None,
        }
    }

    /// Whether its condition failed. Takes no memory.
    pub fn is_stale(&self) -> bool
        ensures { result ≡ is_stale self.now }
    {
        match &self.form {
            HandledForm::Stale(_) => true,
            _ => false,
        }
    }
}

fn keep_item(alloc: Global, plain: &Option<Item>) -> Result<Option<KeptItem>, AllocError>
    ensures { IfOk result (λ kept. kept ≡ plain.now) }
{
    match plain {
        None => Ok(None),
        Some(item) => Ok(Some(KeptItem::keep(alloc, item)?)),
    }
}

fn show_item(alloc: Global, kept: &Option<KeptItem>) -> Result<Option<Item>, AllocError>
    ensures { IfOk result (λ plain. plain ≡ kept.now) }
{
    match kept {
        None => Ok(None),
        Some(item) => Ok(Some(item.show(alloc)?)),
    }
}

fn keep_handled(alloc: Global, plain: &Option<Handled>) -> Result<Option<KeptHandled>, AllocError>
    ensures { IfOk result (λ kept. kept ≡ plain.now) }
{
    match plain {
        None => Ok(None),
        Some(handled) => Ok(Some(KeptHandled::keep(alloc, handled)?)),
    }
}

fn show_handled(alloc: Global, kept: &Option<KeptHandled>) -> Result<Option<Handled>, AllocError>
    ensures { IfOk result (λ plain. plain ≡ kept.now) }
{
    match kept {
        None => Ok(None),
        Some(handled) => Ok(Some(handled.show(alloc)?)),
    }
}

impl KeptEntry {
    /// Keeps an entry, for a log to put at its end later.
    pub fn keep(alloc: Global, plain: &Entry) -> Result<KeptEntry, AllocError>
        ensures { IfOk result (λ kept. kept ≡ plain.now) }
    {
        // The step comes last: it would take longest to prove that it is dropped at a way out.
        let handled = keep_handled(alloc, &plain.handled)?;
        let item = keep_item(alloc, &plain.item)?;
        let step = KeptStep::keep(alloc, &plain.step)?;
        Ok(KeptEntry {
            step,
            item,
            handled,
        })
    }

    /// The entry of octets that came on a connection. Takes no memory.
    pub fn of_came(line: u32, piece: Octets) -> KeptEntry
        ensures { result ≡ entry_with (steps.Came line piece) None None }
    {
        KeptEntry {
            step: KeptStep::Came { line, piece },
            item: None,
            handled: None,
        }
    }

    /// The entry of a step that lifts an item from a source. Takes no memory.
    pub fn of_lift(source: Source, item: Option<KeptItem>) -> KeptEntry
        ensures { result ≡ entry_with (steps.Lift source) item None }
    {
        KeptEntry {
            step: KeptStep::Lift(source),
            item,
            handled: None,
        }
    }

    /// The entry of a step that drops the item in a source's hand. Takes no memory.
    pub fn of_drop(source: Source, item: Option<KeptItem>) -> KeptEntry
        ensures { result ≡ entry_with (steps.Drop source) item None }
    {
        KeptEntry {
            step: KeptStep::Drop(source),
            item,
            handled: None,
        }
    }

    /// The entry in which a shard handles an item, which the entry shares. Takes no memory.
    pub fn of_work(shard: u32, item: KeptMachineItem, handled: KeptHandled) -> KeptEntry
        ensures { result ≡ entry_with (steps.Work shard) (Some (ToMachine item)) (Some handled) }
    {
        KeptEntry {
            step: KeptStep::Work(shard),
            item: Some(KeptItem::of_event(item)),
            handled: Some(handled),
        }
    }

    /// The plain entry.
    pub fn show(&self, alloc: Global) -> Result<Entry, AllocError>
        ensures { IfOk result (λ plain. plain ≡ self.now) }
    {
        let handled = show_handled(alloc, &self.handled)?;
        let item = show_item(alloc, &self.item)?;
        let step = self.step.show(alloc)?;
        Ok(Entry {
            step,
            item,
            handled,
        })
    }

    /// The step alone.
    pub fn step(&self, alloc: Global) -> Result<Step, AllocError>
        ensures { IfOk result (λ step. step ≡ self.now.step) }
    {
        self.step.show(alloc)
    }

    /// The item alone, if there is one.
    pub fn item(&self, alloc: Global) -> Result<Option<Item>, AllocError>
        ensures { IfOk result (λ item. item ≡ self.now.item) }
    {
        show_item(alloc, &self.item)
    }

    /// The number of the machine that moved, if one did. Takes no memory.
    pub fn machine(&self) -> Option<u64>
        ensures { result ≡ machine_in self.now }
    {
        match &self.handled {
            Some(handled) => Some(handled.moved()?.machine()),
            None => None,
        }
    }

    /// Whether that machine moved. Takes no memory.
    pub fn moves(&self, machine: u64) -> bool
        ensures { result ≡ moves machine self.now }
    {
        match self.machine() {
            Some(own) => own == machine,
            None => false,
        }
    }
}
