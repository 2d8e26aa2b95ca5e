//! The names that a world shows.
ghost use Rattle.std.specs.Prelude.{◌≡◌, map, option_map};
ghost use Rattle.bench_item.specs.declared.key.Role.{Role as OfRole};
ghost use Rattle.bench_shard.specs.Lent.{key_lent};
ghost use Rattle.bench_spec.specs.World.{names_of};
ghost use Rattle.bench_core.specs.Firings.{numbered};
ghost use Rattle.bench_core.specs.Naming.{kinds_lent, machines_lent, states_lent};

use crate::keeping::Core;
use base_list::{Named, Octets};
use bench_item::{MAX_MACHINES, Role};
use bench_move::Roles;
use bench_shard::{LentKey, ShardState};

/// The names that a world shows, as it lends them: those of the kinds of events and of the states of each role's table,
/// by their places, and the keys of the machines, by their numbers. Nothing is copied.
///
/// Looks: `kinds`, `states`, `machine`.
#[derive(Clone, Copy)]
pub struct LentNames<'a> {
    roles: &'a Roles,
    shards: &'a [ShardState],
}

impl<'a> LentNames<'a> {
    /// The kinds of events, by their places. Takes no memory.
    pub fn kinds(&self) -> &'a [Named<()>]
        ensures { map (λ kind. kind.name) result.now ≡ kinds_lent self.now }
    {
        self.roles.laws().kinds().as_slice()
    }

    /// The states of a role's table, by their numbers. Takes no memory.
    pub fn states(&self, role: Role) -> &'a [Octets]
        ensures { result.now ≡ states_lent self.now role }
    {
        self.roles.table(role).states().as_slice()
    }

    /// The machine of a number, if it is there. Takes no memory.
    pub fn machine(&self, number: u64) -> Option<LentKey<'a>>
        ensures { option_map key_lent result ≡ numbered self.now.shards.now number }
    {
        let place = number % MAX_MACHINES as u64;
        match self.shards.get((number / MAX_MACHINES as u64) as usize) {
            None => None,
            Some(shard) => shard.lent_key(place as usize),
        }
    }
}

impl Core {
    /// The names that the world shows: those of its kinds of events,
    /// of the states of its tables and of its machines. Takes no memory.
    pub fn names(&self) -> LentNames<'_>
        ensures kinds { kinds_lent result ≡ (names_of self.now.settings self.now.log).kinds }
        ensures states { (role : OfRole)
            → states_lent result role ≡ (names_of self.now.settings self.now.log).states role }
        ensures machines { machines_lent result ≡ (names_of self.now.settings self.now.log).machines }
    {
        LentNames {
            roles: &self.roles,
            shards: &self.shards,
        }
    }
}
