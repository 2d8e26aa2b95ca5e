//! A desk: what it kept, and its counts.
ghost use Rattle.std.specs.Prelude.{◌≡◌, ◌<◌, ◌≤◌, ◌+◌, ◌^◌, ◌==◌, ◌&&◌, ℕ, [], length, nat_le};
ghost use Rattle.bench_item.specs.Keys.{home};
ghost use Rattle.bench_item.specs.declared.limit.TheConstants.{MAX_SHARDS};
ghost use Rattle.bench_spec.specs.Desks.{agrees, seen_count, told_count};
ghost use Rattle.bench_spec.specs.Settings.{Settings};
ghost use Rattle.bench_desk.specs.Desks.{is_desk_full};
ghost use Rattle.bench_parts.specs.Views.{kept_in};
ghost use Rattle.tab_step.specs.declared.machine.MachineState.{MachineState};

use bench_item::{Key, MAX_ENTRIES, MAX_SHARDS, home};
use bench_parts::{Lent, Note};
use std::alloc::Global;
use std::marker::Model;

/// Whether all that was told waits or was handled, and no less was handled than was seen.
fn is_agreed(told: u64, seen: u64, waiting: u64, handled: u64) -> bool
    requires { waiting + handled < 2 ^ 64 }
    ensures { result ≡ ((waiting + handled == told) && nat_le seen handled) }
{
    waiting + handled == told && seen <= handled
}

/// Who tells machines events, and looks at them: it keeps the entries of what it told and all that it saw, in order,
/// each with its stamp. A contract sees these. Beside them it keeps counts: of each shard how much it told it, and how
/// much of that had been handled there when it last looked.
///
/// In: `tell_in`, `look_in`. Looks: `number`, `shards`, `len`, `lent`.
pub struct Desk {
    pub(crate) alloc: Global,
    pub(crate) number: u32,
    pub(crate) shards: usize,
    pub(crate) notes: Vec<Note>,
    // How many of these are entries.
    pub(crate) entries: usize,
    pub(crate) told: [u64; MAX_SHARDS],
    pub(crate) seen: [u64; MAX_SHARDS],
}

// A derived `drop` is proved anew in each crate that holds a desk; this one is a call.
impl Drop for Desk {
    fn drop(self) {
        let Desk {
            alloc: _,
            number: _,
            shards: _,
            notes,
            entries: _,
            told: _,
            seen: _,
        } = self;
    }
}

impl Model for Desk {
    ghost use Rattle.std.specs.Prelude.{map};
    ghost use Rattle.bench_desk.specs.Desks.{DeskView, IsDesk};
    ghost use Rattle.bench_parts.specs.Views.{kept_of};

    ghost Value = { DeskView };

    ghost view = { λ d. record { number = d.number; shards = d.shards; kept = map kept_of d.notes.items } };

    ghost invariant = { λ d. IsDesk d.number d.shards (map kept_of d.notes.items) d.entries d.told d.seen };
}

impl Desk {
    /// The desk of that number, from 0, of a bench of so many shards. It told nothing yet. Takes no memory.
    pub fn new(alloc: Global, number: u32, shards: usize) -> Desk
        requires some { 0 < shards }
        requires few { shards ≤ MAX_SHARDS }
        ensures { result ≡ record { number = number; shards = shards; kept = [] } }
    {
        Desk {
            alloc,
            number,
            shards,
            notes: Vec::new(alloc),
            entries: 0,
            told: [0; MAX_SHARDS],
            seen: [0; MAX_SHARDS],
        }
    }

    /// Its number, from 0.
    pub fn number(&self) -> u32
        ensures { result ≡ self.now.number }
    {
        self.number
    }

    /// How many shards there are.
    pub fn shards(&self) -> usize
        ensures count { result ≡ self.now.shards }
        ensures some { 0 < result }
        ensures few { result ≤ MAX_SHARDS }
    {
        self.shards
    }

    /// How many entries and looks it kept.
    pub fn len(&self) -> usize
        ensures { result ≡ length self.now.kept }
    {
        self.notes.len()
    }

    /// What it kept, lent to who gathers it.
    pub fn lent(&self) -> Lent<'_>
        ensures { kept_in result ≡ self.now.kept }
    {
        Lent::Notes(&self.notes)
    }

    // Whether its part has no room for a Told and its Lift.
    pub(crate) fn is_full(&self) -> bool
        ensures { result ≡ is_desk_full self.now.kept }
    {
        MAX_ENTRIES - self.entries < 2
    }

    // How much it told the shard of a machine.
    fn told_there(&self, key: &Key) -> u64
        ensures { (settings : Settings) → settings.node.shards ≡ self.now.shards
            → result ≡ told_count settings self.now.number self.now.kept (home settings.node.shards key.now.name) }
    {
        self.told[home(self.shards, key)]
    }

    // How much of it had been handled when it last looked there.
    fn seen_there(&self, key: &Key) -> u64
        ensures { (settings : Settings) → settings.node.shards ≡ self.now.shards
            → result ≡ seen_count settings self.now.kept (home settings.node.shards key.now.name) }
    {
        self.seen[home(self.shards, key)]
    }

    // Whether the counts of a machine's shard agree with its own:
    // all that it told the shard waits there or was handled, and no less was handled than before.
    pub(crate) fn agrees(&self, key: &Key, waiting: u64, handled: u64) -> bool
        requires { waiting + handled < 2 ^ 64 }
        ensures { (settings : Settings) (stamp : ℕ) (stands : MachineState) → settings.node.shards ≡ self.now.shards
            → result ≡ agrees settings self.now.number self.now.kept
            (record { stamp = stamp; key = key.now; stands = stands; waiting = waiting; handled = handled }) }
    {
        is_agreed(self.told_there(key), self.seen_there(key), waiting, handled)
    }
}
