//! The entries of a text's lines, one line after another.
ghost use Rattle.std.specs.Prelude.{◌≡◌, ◌∷◌, ◌++◌, [], false, None, IfOk, OnOk, map, replicate};
ghost use Rattle.step_text.specs.Shown.{step_shown};
ghost use Rattle.log_text.specs.Following.{begun_of, entries_of, entry_of, so_far, told_to};
ghost use Rattle.log_text.specs.Following.{with_deed, with_item, with_step};
ghost use Rattle.log_text.specs.Following.{item_of, move_of, nobody, outcomes_of};
ghost use Rattle.log_text.specs.Shown.{item_shown};
ghost use Rattle.tab_law.specs.declared.limits.TheConstants.{PLACES};

use crate::deed_line::DeedLine;
use crate::deeds::is_booking;
use crate::end::LogLine;
use crate::item::{ItemLine, ShownItem, Who};
use crate::pending::{Pending, Reader};
use acct_totals::Outcome;
use base_list::Octets;
use bench_item::{Entry, Handled, Item, KeptEvent, Key, MachineItem, Moved, Role, Series, Step};
use bench_log::{KeptEntry, Log};
use std::alloc::{AllocError, Global};
use step_text::ShownStep;
use tab_law::{Deed, PLACES};
use tab_step::{Event, MachineState};

/// The deeds of lines.
fn deeds_of(alloc: Global, lines: &[DeedLine]) -> Result<Vec<Deed>, AllocError>
    ensures { IfOk result (λ deeds. deeds.items ≡ map (λ line. line.deed) lines.now) }
{
    let mut deeds = Vec::new(alloc);
    for line in lines {
        deeds.push(line.deed)?;
    }
    Ok(deeds)
}

/// What the account book made of the deeds of lines that are its own.
fn outcomes_of(alloc: Global, lines: &[DeedLine]) -> Result<Vec<Outcome>, AllocError>
    ensures { IfOk result (λ outcomes. outcomes.items ≡ outcomes_of lines.now) }
{
    let mut outcomes = Vec::new(alloc);
    for line in lines {
        if is_booking(line.deed.code) {
            outcomes.push(line.outcome)?;
        }
    }
    Ok(outcomes)
}

/// An event of that kind without facts.
fn event_of(kind: u8) -> Event
    ensures { result ≡ record { kind = kind; facts = replicate PLACES 0 } }
{
    Event {
        kind,
        facts: [0; PLACES],
    }
}

/// A machine in that state with registers 0.
fn state_of(state: u8) -> MachineState
    ensures { result ≡ record { state = state; regs = replicate PLACES 0 } }
{
    MachineState {
        state,
        regs: [0; PLACES],
    }
}

/// The item for that machine.
fn item_of(alloc: Global, who: Who) -> Item
    ensures { result ≡ item_of who }
{
    let Who { key, kind } = who;
    Item::ToMachine(MachineItem {
        key,
        event: KeptEvent::bare(alloc, kind),
        condition: None,
        session: Octets::new(Vec::new(alloc)),
    })
}

/// A move between these states.
fn move_of(
    alloc: Global,
    kind: u8,
    before: u8,
    after: u8,
    row: Option<u16>,
    lines: &[DeedLine],
) -> Result<Moved, AllocError>
    ensures { IfOk result (λ moved. moved ≡ move_of kind before after row lines.now) }
{
    let deeds = Series::new(deeds_of(alloc, lines)?);
    let outcomes = Series::new(outcomes_of(alloc, lines)?);
    Ok(Moved {
        machine: 0,
        event: event_of(kind),
        before: state_of(before),
        after: state_of(after),
        row,
        chain: Series::empty(alloc),
        deeds,
        outcomes,
    })
}

/// No machine's.
fn nobody(alloc: Global) -> Who
    ensures { result ≡ nobody }
{
    Who {
        key: Key {
            role: Role::Peer,
            name: Octets::new(Vec::new(alloc)),
        },
        kind: 0,
    }
}

impl Pending {
    /// An entry with the line of its step.
    fn new(alloc: Global, step: Step) -> Pending
        ensures { begun_of result ≡ record { step = step; item = None; deeds = [] } }
    {
        Pending {
            step,
            item: None,
            deeds: Vec::new(alloc),
        }
    }

    /// With the line of one more deed.
    fn put_deed(&mut self, deed: &DeedLine) -> Result<(), AllocError>
        ensures { OnOk result (begun_of self.new
            ≡ record { step = self.old.step; item = self.old.item; deeds = self.old.deeds.items ++ deed.now ∷ [] }) }
    {
        match self.deeds.push(*deed) {
            Ok(()) => Ok(()),
            Err(_) => Err(AllocError),
        }
    }

    /// The entry of all its lines.
    fn close(self, alloc: Global) -> Result<Entry, AllocError>
        ensures { IfOk result (λ entry. entry ≡ entry_of (begun_of self)) }
    {
        let (step, item, deeds) = self.apart();
        let (who, handled) = match item {
            None => {
                return Ok(Entry {
                    step,
                    item: None,
                    handled: None,
                });
            }
            Some(ItemLine::TooBusy) => (nobody(alloc), Handled::TooBusy),
            Some(ItemLine::Stale { who, state }) => (who, Handled::Stale(state)),
            Some(
                ItemLine::Moved {
                    who,
                    before,
                    after,
                    row,
                },
            ) => {
                let moved = move_of(alloc, who.kind, before, after, row, &deeds)?;
                (who, Handled::Move(moved))
            }
        };
        Ok(Entry {
            step,
            item: Some(item_of(alloc, who)),
            handled: Some(handled),
        })
    }

    /// The entry of all its lines, as a log keeps it.
    fn keep(self, alloc: Global) -> Result<KeptEntry, AllocError>
        ensures { IfOk result (λ entry. entry ≡ entry_of (begun_of self)) }
    {
        let entry = self.close(alloc)?;
        KeptEntry::keep(alloc, &entry)
    }
}

impl Reader {
    /// Before any line.
    pub(crate) fn new(alloc: Global) -> Reader
        ensures { so_far result ≡ record { log = []; begun = None } }
    {
        Reader {
            log: Log::new(alloc),
            pending: None,
        }
    }

    /// Ends the last entry.
    fn close(&mut self, alloc: Global) -> Result<(), AllocError>
        ensures { OnOk result (so_far self.new ≡ record { log = entries_of (so_far self.old); begun = None }) }
    {
        let Some(pending) = self.pending.take() else {
            return Ok(());
        };
        // The log is not full: where it would be, the line was no step's.
        match self.log.add(pending.keep(alloc)?) {
            Ok(()) => Ok(()),
            Err(_) => Err(AllocError),
        }
    }

    /// Ends the last entry, and begins the next with this step.
    fn put_step(&mut self, alloc: Global, step: &ShownStep<'_>) -> Result<(), AllocError>
        ensures { OnOk result (so_far self.new ≡ with_step (so_far self.old) (step_shown step.now)) }
    {
        self.close(alloc)?;
        let step = step.copy(alloc)?;
        self.pending = Some(Pending::new(alloc, step));
        Ok(())
    }

    /// Puts an item into the last entry.
    fn put_item(&mut self, alloc: Global, item: &ShownItem<'_>) -> Result<(), AllocError>
        ensures { OnOk result (so_far self.new ≡ with_item (so_far self.old) (item_shown item.now)) }
    {
        if let Some(pending) = &mut self.pending {
            pending.item = Some(item.copy(alloc)?);
        }
        Ok(())
    }

    /// Puts a deed into the last entry.
    fn put_deed(&mut self, deed: &DeedLine) -> Result<(), AllocError>
        ensures { OnOk result (so_far self.new ≡ with_deed (so_far self.old) deed.now) }
    {
        match &mut self.pending {
            Some(pending) => pending.put_deed(deed),
            None => Ok(()),
        }
    }

    /// Takes what one more line tells.
    fn put(&mut self, alloc: Global, told: &LogLine<'_>) -> Result<(), AllocError>
        ensures { OnOk result (so_far self.new ≡ told_to (so_far self.old) told.now) }
    {
        match told {
            LogLine::Step(step) => self.put_step(alloc, step),
            LogLine::Item(item) => self.put_item(alloc, item),
            LogLine::Deed(deed) => self.put_deed(deed),
        }
    }

    /// Takes what one more line tells, where memory did not run out. Answers whether it did by now.
    pub(crate) fn take(&mut self, alloc: Global, told: &LogLine<'_>, short: bool) -> bool
        ensures before { result ≡ false → short ≡ false }
        ensures taken { result ≡ false → so_far self.new ≡ told_to (so_far self.old) told.now }
    {
        if short {
            return true;
        }
        match self.put(alloc, told) {
            Ok(()) => false,
            Err(AllocError) => true,
        }
    }

    /// The log of all lines.
    pub(crate) fn finish(self, alloc: Global) -> Result<Log, AllocError>
        ensures { IfOk result (λ log. log.entries ≡ entries_of (so_far self)) }
    {
        let mut reader = self;
        reader.close(alloc)?;
        Ok(reader.into_log())
    }
}
