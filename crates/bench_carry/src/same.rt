//! Whether two items are one.
ghost use Rattle.std.specs.Prelude.{◌≡◌, ◌↔◌, IsTrue};

use base_list::Octets;
use bench_item::{Condition, Item, Key, LineItem, MachineItem, Role};
use tab_law::Deed;
use tab_step::Event;

/// Whether two octet strings are one.
fn are_octets_same(one: &Octets, other: &Octets) -> bool
    ensures { IsTrue result ↔ (one.now ≡ other.now) }
{
    one.as_slice() == other.as_slice()
}

/// Whether two roles are one.
fn are_roles_same(one: Role, other: Role) -> bool
    ensures { IsTrue result ↔ (one ≡ other) }
{
    match one {
        Role::Peer => matches!(other, Role::Peer),
        Role::Client => matches!(other, Role::Client),
        Role::Server => matches!(other, Role::Server),
    }
}

/// Whether two keys are one.
fn are_keys_same(one: &Key, other: &Key) -> bool
    ensures { IsTrue result ↔ (one.now ≡ other.now) }
{
    are_roles_same(one.role, other.role) && are_octets_same(&one.name, &other.name)
}

/// Whether two conditions are one.
fn are_conditions_same(one: Option<Condition>, other: Option<Condition>) -> bool
    ensures { IsTrue result ↔ (one ≡ other) }
{
    match one {
        None => other.is_none(),
        Some(a) => match other {
            None => false,
            Some(b) => a.register == b.register && a.value == b.value,
        },
    }
}

/// Whether two events are one.
fn are_events_same(one: &Event, other: &Event) -> bool
    ensures { IsTrue result ↔ (one.now ≡ other.now) }
{
    one.kind == other.kind && one.facts == other.facts
}

/// Whether two deeds are one.
fn are_deeds_same(one: &Deed, other: &Deed) -> bool
    ensures { IsTrue result ↔ (one.now ≡ other.now) }
{
    one.code == other.code && one.a == other.a
}

/// Whether two events on their way to a machine are one.
pub fn are_machine_items_same(one: &MachineItem, other: &MachineItem) -> bool
    ensures { IsTrue result ↔ (one.now ≡ other.now) }
{
    are_keys_same(&one.key, &other.key)
        && are_events_same(&one.event.show(), &other.event.show())
        && are_conditions_same(one.condition, other.condition)
        && are_octets_same(&one.session, &other.session)
}

/// Whether two deeds on their way to a connection are one.
fn are_line_items_same(one: &LineItem, other: &LineItem) -> bool
    ensures { IsTrue result ↔ (one.now ≡ other.now) }
{
    one.line == other.line
        && are_deeds_same(&one.deed.show(), &other.deed.show())
        && are_octets_same(&one.session, &other.session)
}

/// Whether two pairs of numbers are one.
fn are_pairs_same(a: u64, b: u64, c: u64, d: u64) -> bool
    ensures { IsTrue result ↔ ((a ≡ c) × (b ≡ d)) }
{
    a == c && b == d
}

/// Whether two items are one.
pub fn are_items_same(one: &Item, other: &Item) -> bool
    ensures { IsTrue result ↔ (one.now ≡ other.now) }
{
    match one {
        Item::ToMachine(a) => match other {
            Item::ToMachine(b) => are_machine_items_same(a, b),
            _ => false,
        },
        Item::ToLine(a) => match other {
            Item::ToLine(b) => are_line_items_same(a, b),
            _ => false,
        },
        Item::Dial { peer, generation } => match other {
            Item::Dial {
                peer: p,
                generation: g,
            } => are_pairs_same(*peer, *generation, *p, *g),
            _ => false,
        },
        Item::Undial { peer, generation } => match other {
            Item::Undial {
                peer: p,
                generation: g,
            } => are_pairs_same(*peer, *generation, *p, *g),
            _ => false,
        },
        Item::Arm {
            machine,
            generation,
            ticks,
        } => match other {
            Item::Arm {
                machine: m,
                generation: g,
                ticks: t,
            } => are_pairs_same(*machine, *generation, *m, *g) && *ticks == *t,
            _ => false,
        },
        Item::Disarm { machine } => match other {
            Item::Disarm { machine: m } => *machine == *m,
            _ => false,
        },
    }
}
