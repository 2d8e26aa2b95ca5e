//! Whether a given move is one, by the laws and the account book alone: no callback is asked.

ghost use Rattle.std.specs.Prelude.{◌≡◌, ◌↔◌, ◌≤◌, length, IfOk, IsTrue};
ghost use Rattle.acct_book.specs.Book.{with_book};
ghost use Rattle.bench_spec.specs.Booked.{outcomes_for};
ghost use Rattle.bench_spec.specs.Legal.{IsMove};
ghost use Rattle.bench_move.specs.Moves.{IsMoveOf};
ghost use Rattle.bench_move.specs.Tables.{table_of};

use crate::booking::{ops_of, outcomes_for};
use crate::quoting::event_with_quote;
use crate::roles::Roles;
use acct_book::Page;
use bench_item::{MachineItem, Moved, Role};
use charge_session::Want;
use std::alloc::{AllocError, Global};
use tab_law::{MAX_DEEDS, MAX_ROW_ACTIONS};
use tab_step::{Event, MachineState, Stepped, is_step};

/// Whether two machines stand alike.
fn are_states_same(one: &MachineState, other: &MachineState) -> bool
    ensures { IsTrue result ↔ (one.now ≡ other.now) }
{
    one.state == other.state && one.regs == other.regs
}

/// Whether two events are one.
fn are_events_same(one: &Event, other: &Event) -> bool
    ensures { IsTrue result ↔ (one.now ≡ other.now) }
{
    one.kind == other.kind && one.facts == other.facts
}

/// Whether a move is of that machine, which stands there, at that event.
fn is_at(moved: &Moved, number: u64, before: &MachineState, event: &Event) -> bool
    ensures { IsTrue result
        ↔ ((moved.now.machine ≡ number) × (moved.now.before ≡ before.now) × (moved.now.event ≡ event.now)) }
{
    moved.machine == number
        && are_states_same(&moved.before, before)
        && are_events_same(&moved.event, event)
}

/// Whether a step has room for what a move left.
fn fits(moved: &Moved) -> bool
    ensures { IsTrue result ↔ ((length moved.now.chain ≤ MAX_ROW_ACTIONS) × (length moved.now.deeds ≤ MAX_DEEDS)) }
{
    moved.chain.len() <= MAX_ROW_ACTIONS && moved.deeds.len() <= MAX_DEEDS
}

/// Writes what a move left into room for a step.
fn put_into(moved: &Moved, room: &mut Stepped)
    requires chain { length moved.now.chain ≤ MAX_ROW_ACTIONS }
    requires deeds { length moved.now.deeds ≤ MAX_DEEDS }
    ensures after { room.new.after ≡ moved.now.after }
    ensures row { room.new.row ≡ moved.now.row }
    ensures chain { room.new.chain ≡ moved.now.chain }
    ensures deeds { room.new.deeds ≡ moved.now.deeds }
{
    room.after = moved.after;
    room.row = moved.row;
    room.chain.clear();
    room.chain.extend_from_slice(moved.chain.as_slice());
    room.deeds.clear();
    room.deeds.extend_from_slice(moved.deeds.as_slice());
}

/// Whether the outcomes of a move are those that the page allows to its deeds.
fn has_outcomes(
    alloc: Global,
    page: &mut Page,
    want: &Option<Want>,
    moved: &Moved,
) -> Result<bool, AllocError>
    ensures exact { IfOk result (λ yes. IsTrue yes
        ↔ (moved.now.outcomes ≡ outcomes_for page.old.book want.now moved.now.deeds)) }
    ensures page { page.new ≡ with_book page.old page.old.book page.new.room }
{
    let deeds = moved.deeds.as_slice();
    let ops = ops_of(alloc, want, deeds)?;
    let outcomes = outcomes_for(alloc, page, want, deeds, ops.as_slice())?;
    Ok(moved.outcomes.as_slice() == outcomes.as_slice())
}

impl Roles {
    /// Whether a move is a step by a role's table.
    fn has_step(&self, role: Role, moved: &Moved, room: &mut Stepped) -> bool
        ensures { IsTrue result ↔ IsMove self.now.laws (table_of self.now role) moved.now }
    {
        let ready = self.ready(role);
        if !fits(moved) {
            return false;
        }
        put_into(moved, room);
        is_step(&ready.bound, self.laws(), &moved.before, &moved.event, room)
    }

    /// Whether a given move is one of the machine of that number, which stands there, at an item for it: what
    /// `decide` may answer, whatever the callbacks choose. Asks no callback. The page is that of the account which
    /// the item asks for, any other where it asks for none; its book stays as it is. `room` is what the move is laid
    /// out in, for the caller to keep.
    pub fn is_move(
        &self,
        alloc: Global,
        page: &mut Page,
        number: u64,
        before: &MachineState,
        item: &MachineItem,
        moved: &Moved,
        room: &mut Stepped,
    ) -> Result<bool, AllocError>
        ensures exact { IfOk result (λ yes. IsTrue yes ↔ IsMoveOf self.now.laws (table_of self.now item.now.key.role)
            page.old.book number before.now item.now moved.now) }
        ensures page { page.new ≡ with_book page.old page.old.book page.new.room }
    {
        let want = self.want(item, before);
        let event = event_with_quote(page, &want, item.event.show());
        if !is_at(moved, number, before, &event) || !self.has_step(item.key.role, moved, room) {
            return Ok(false);
        }
        has_outcomes(alloc, page, &want, moved)
    }
}
