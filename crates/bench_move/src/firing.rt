//! What a timer fires.
ghost use Rattle.std.specs.Prelude.{◌≡◌, IfOk, option_map, option_to_list};
ghost use Rattle.base_list.specs.Named.{place_of};
ghost use Rattle.bench_item.specs.Keys.{Configured, node_of};
ghost use Rattle.bench_item.specs.Posts.{no_facts};
ghost use Rattle.bench_spec.specs.Items.{firing, timer_kind};

use base_codes::session_register;
use base_list::Octets;
use bench_item::{Condition, Item, KeptEvent, Key, MachineItem, Role};
use std::alloc::{AllocError, Global};
use tab_law::{LawBook, PLACES};
use tab_step::Event;

/// The name of the event of a timer, by its machine's role (RFC 6733 section 5.6, RFC 8506 section 13).
fn timer_kind(role: Role) -> &'static [u8]
    ensures { result.now ≡ timer_kind role }
{
    match role {
        Role::Peer => b"Timeout",
        Role::Client => b"Tx",
        Role::Server => b"Tcc",
    }
}

/// The event of a timer of a machine of that role; none where the laws have no such kind. Takes no memory.
fn timer_event(laws: &LawBook, role: Role) -> Option<Event>
    ensures { result
        ≡ option_map (λ kind. record { kind = kind; facts = no_facts }) (place_of (timer_kind role) laws.now.kinds) }
{
    laws.known();
    let kind = laws.kinds().find(timer_kind(role))?;
    Some(Event {
        kind: kind as u8,
        facts: [0; PLACES],
    })
}

/// What a timer that was armed with a generation fires at a machine, as long as the machine has that generation.
pub fn firing_item(
    alloc: Global,
    laws: &LawBook,
    key: Key,
    generation: u64,
) -> Result<Option<Item>, AllocError>
    ensures { IfOk result (λ item. (peers : Configured)
        → option_to_list item ≡ firing (node_of laws.now peers) generation key) }
{
    let Some(event) = timer_event(laws, key.role) else {
        return Ok(None);
    };
    let event = KeptEvent::keep(alloc, &event)?;
    let session = Octets::from_slice(alloc, b"")?;
    let condition = Condition {
        register: session_register::TIMER as u8,
        value: generation,
    };
    Ok(Some(Item::ToMachine(MachineItem {
        key,
        event,
        condition: Some(condition),
        session,
    })))
}
