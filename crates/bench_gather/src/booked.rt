//! What an entry booked.
ghost use Rattle.std.specs.Prelude.{◌≡◌, ◌<◌, IfOk, filter_map, map, option_and_then, zip};
ghost use Rattle.charge_session.specs.Deeds.{op_of};
ghost use Rattle.charge_session.specs.Wants.{needs};
ghost use Rattle.server_rules.specs.Kinds.{kinds};
ghost use Rattle.bench_spec.specs.Booked.{as_server_event, booked_by, booked_in, want_of};
ghost use Rattle.bench_gather.specs.Checks.{pair_of};

use acct_totals::{Booked, Op, Outcome};
use bench_item::{Entry, Handled, Item, MachineItem, Moved, Role};
use charge_session::{Want, needs, op_of};
use server_rules::server_place;
use std::alloc::{AllocError, Global};
use tab_law::{Deed, LawBook};
use tab_step::{Event, MachineState};

/// The same event with its kind's place in the laws of a server, if it is one of a server's kinds.
fn server_event(laws: &LawBook, event: &Event) -> Option<Event>
    ensures { result ≡ as_server_event laws.now event.now }
{
    match laws.kinds().as_slice().get(event.kind as usize) {
        None => None,
        Some(entry) => {
            let kind = server_place(entry.name.as_slice())?;
            let facts = event.facts;
            Some(Event { kind, facts })
        }
    }
}

/// What an event asks of the account book in a server's session that stands there.
fn session_want(laws: &LawBook, event: &Event, state: &MachineState) -> Option<Want>
    ensures { result
        ≡ option_and_then (λ event. needs event state.now) (as_server_event laws.now event.now) }
{
    let event = server_event(laws, event)?;
    needs(&event, state)
}

/// What an item asks of the account book in a machine that stands there.
fn want_of(laws: &LawBook, item: &MachineItem, state: &MachineState) -> Option<Want>
    ensures { result ≡ want_of laws.now item.now state.now }
{
    match item.key.role {
        Role::Server => session_want(laws, &item.event.show(), state),
        Role::Peer | Role::Client => None,
    }
}

/// The operations that deeds ask of the book.
fn ops_of(alloc: Global, want: &Want, deeds: &[Deed]) -> Result<Vec<Op>, AllocError>
    ensures { IfOk result (λ ops. ops.items ≡ filter_map (op_of want.now) deeds.now) }
{
    let mut ops = Vec::new(alloc);
    for deed in deeds {
        if let Some(op) = op_of(deed, want) {
            ops.push(op)?;
        }
    }
    Ok(ops)
}

/// Operations with their outcomes.
fn pairs(alloc: Global, ops: &[Op], outcomes: &[Outcome]) -> Result<Vec<Booked>, AllocError>
    ensures { IfOk result (λ booked. booked.items ≡ map pair_of (zip ops.now outcomes.now)) }
{
    ops.iter()
        .zip(outcomes.iter())
        .map(|pair| Booked {
            op: *pair.0,
            outcome: *pair.1,
        })
        .collect(alloc)
}

/// What a move that an item led to booked.
fn booked_by(
    alloc: Global,
    laws: &LawBook,
    item: &MachineItem,
    moved: &Moved,
) -> Result<Vec<Booked>, AllocError>
    ensures { IfOk result (λ booked. booked.items ≡ booked_by laws.now item.now moved.now) }
{
    match want_of(laws, item, &moved.before) {
        None => Ok(Vec::new(alloc)),
        Some(want) => {
            let ops = ops_of(alloc, &want, moved.deeds.as_slice())?;
            pairs(alloc, &ops, moved.outcomes.as_slice())
        }
    }
}

/// What an entry booked: the operations of the move that it has, with their outcomes.
pub(crate) fn booked_in(
    alloc: Global,
    laws: &LawBook,
    entry: &Entry,
) -> Result<Vec<Booked>, AllocError>
    ensures { IfOk result (λ booked. booked.items ≡ booked_in laws.now entry.now) }
{
    match (&entry.item, &entry.handled) {
        (Some(Item::ToMachine(item)), Some(Handled::Move(moved))) => {
            booked_by(alloc, laws, item, moved)
        }
        _ => Ok(Vec::new(alloc)),
    }
}
