//! Events for machines.

ghost use Rattle.std.specs.Prelude.{◌≡◌, option_map};
ghost use Rattle.base_list.specs.Named.{place_of};
ghost use Rattle.tab_step.specs.Moves.{is_kind_of};
ghost use Rattle.bench_item.specs.Keys.{key_of};
ghost use Rattle.bench_post.specs.Made.{Makes, carried};

use base_list::Octets;
use bench_item::{Condition, Item, KeptEvent, Key, MachineItem, Role};
use std::alloc::{AllocError, Global};
use tab_law::{LawBook, PLACES};
use tab_step::Event;

/// Whether a kind of events has that name in the book. Takes no memory.
pub(crate) fn is_kind_of(laws: &LawBook, kind: u8, name: &[u8]) -> bool
    ensures { result ≡ is_kind_of laws.now kind name.now }
{
    match laws.kinds().as_slice().get(usize::from(kind)) {
        Some(entry) => entry.name.as_slice() == name,
        None => false,
    }
}

/// The event of that name with these facts; none where the book has no such kind. Takes no memory.
pub(crate) fn event_of(laws: &LawBook, name: &[u8], facts: &[u64; PLACES]) -> Option<Event>
    ensures { result
        ≡ option_map (λ kind. record { kind = kind; facts = facts.now }) (place_of name.now laws.now.kinds) }
{
    laws.known();
    let kind = laws.kinds().find(name)?;
    Some(Event {
        kind: kind as u8,
        facts: *facts,
    })
}

/// The item that carries an event, if there is one, to the machine of that role and name.
pub(crate) fn carry(
    alloc: Global,
    role: Role,
    name: &[u8],
    event: Option<Event>,
    condition: Option<Condition>,
    session: &[u8],
) -> Result<Option<Item>, AllocError>
    ensures { Makes result (carried (key_of role name.now) event condition session.now) }
{
    let Some(event) = event else {
        return Ok(None);
    };
    let event = KeptEvent::keep(alloc, &event)?;
    let name = Octets::from_slice(alloc, name)?;
    let session = Octets::from_slice(alloc, session)?;
    Ok(Some(Item::ToMachine(MachineItem {
        key: Key { role, name },
        event,
        condition,
        session,
    })))
}
