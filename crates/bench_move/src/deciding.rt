//! One move of a machine, decided by the callbacks.

ghost use Rattle.std.specs.Prelude.{◌≡◌, None, IfOk};
ghost use Rattle.acct_book.specs.Book.{with_book};
ghost use Rattle.bench_spec.specs.Booked.{want_of};
ghost use Rattle.tab_law.specs.Books.{NamedPermits};
ghost use Rattle.tab_step.specs.Moves.{IsStep};
ghost use Rattle.bench_move.specs.Moves.{IsDecided};
ghost use Rattle.bench_move.specs.Tables.{table_of};

use crate::booking::{ops_of, outcomes_for};
use crate::posting::posts_of_all;
use crate::quoting::event_with_quote;
use crate::roles::Roles;
use acct_book::Page;
use acct_totals::Op;
use bench_item::{KeptEvent, MachineItem, Peers, Role, Series};
use bench_log::{KeptItem, KeptMoved, KeptState};
use charge_session::Want;
use std::alloc::{AllocError, Global};
use tab_call::Registry;
use tab_image::run_event_into;
use tab_step::{Event, MachineState, Stepped};

/// A move of a machine, with what its deeds post and ask of the account book.
#[derive(Drop)]
pub struct Decided {
    pub moved: KeptMoved,
    /// What the deeds post, in order.
    pub posts: Vec<KeptItem>,
    /// The operations of the account book that the deeds ask for, in order.
    pub ops: Series<Op>,
}

/// Keeps an event with the book's quote; where none is asked for it is the item's own, whose octets are copied.
fn kept_event(
    alloc: Global,
    want: &Option<Want>,
    own: &KeptEvent,
    quoted: &Event,
) -> Result<KeptEvent, AllocError>
    requires { want.now ≡ None → quoted.now ≡ own.now }
    ensures { IfOk result (λ kept. kept ≡ quoted.now) }
{
    match want {
        None => own.copy(alloc),
        Some(_) => KeptEvent::keep(alloc, quoted),
    }
}

impl Roles {
    /// Has a machine of a role step by its program.
    fn step(
        &self,
        registry: &Registry,
        role: Role,
        before: &MachineState,
        event: &Event,
        room: &mut Stepped,
    )
        requires { registry.now.book ≡ self.now.laws }
        ensures { IsStep (NamedPermits self.now.laws) (table_of self.now role) self.now.laws
            before.now event.now room.new }
    {
        let ready = self.ready(role);
        run_event_into(&ready.program, registry, before, event, room);
    }

    /// Decides the move of the machine of that number, which stands there, at an item for it that asks this: what the
    /// account book says to it becomes facts of the event, the role's program is run with the registry's
    /// callbacks, and the book tells what it allows to the deeds. The page is that of the account which the item
    /// asks for, any other where it asks for none; its book stays as it is. `room` is what the step is written
    /// into, for the caller to keep.
    pub fn decide(
        &self,
        alloc: Global,
        registry: &Registry,
        peers: &Peers,
        page: &mut Page,
        number: u64,
        before: &KeptState,
        item: &MachineItem,
        want: &Option<Want>,
        room: &mut Stepped,
    ) -> Result<Decided, AllocError>
        requires laws { registry.now.book ≡ self.now.laws }
        requires want { want.now ≡ want_of self.now.laws item.now before.now }
        ensures decided { IfOk result (IsDecided self.now peers.now page.old.book number before.now item.now) }
        ensures page { page.new ≡ with_book page.old page.old.book page.new.room }
    {
        let event = event_with_quote(page, want, item.event.show());
        self.step(registry, item.key.role, &before.show(), &event, room);
        let deeds = room.deeds.as_slice();
        let posts = posts_of_all(alloc, self.laws(), peers, number, item, deeds)?;
        let ops = ops_of(alloc, want, deeds)?;
        let outcomes = outcomes_for(alloc, page, want, deeds, ops.as_slice())?;
        let event = kept_event(alloc, want, &item.event, &event)?;
        let moved = KeptMoved::of_step(alloc, number, event, before, room, outcomes)?;
        Ok(Decided {
            moved,
            posts,
            ops: Series::new(ops),
        })
    }
}
