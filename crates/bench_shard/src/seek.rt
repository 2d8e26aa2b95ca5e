//! A machine is looked for.
ghost use Rattle.std.specs.Prelude.{◌≡◌, ◌<◌, IfOk, false, length, slice_get};
ghost use Rattle.std.specs.Option.{option_map_or};
ghost use Rattle.std.specs.Str.{bytes_eq};
ghost use Rattle.bench_shard.specs.Names.{key_octets};
ghost use Rattle.bench_shard.specs.View.{place_in};
ghost use Rattle.bench_shard.specs.declared.seek.TheConstants.{SHORT};
ghost use Rattle.sess_dir.specs.Names.{place_of};

use crate::name::{key_octets, role_octet};
use crate::state::ShardState;
use base_list::FixedList;
use bench_item::Key;
use sess_dir::Directory;
use std::alloc::{AllocError, Global};

/// A name of fewer octets lies beside its role in room of fixed size.
const SHORT: usize = 256;

/// Whether the name at a place is a machine's.
fn is_at(names: &Directory, place: usize, key: &Key) -> bool
    ensures { result ≡ option_map_or (bytes_eq (key_octets key.now)) (slice_get names.now place) false }
{
    match names.name(place) {
        None => false,
        Some(octets) => match octets.split_first() {
            None => false,
            Some((first, name)) => role_octet(key.role) == *first && key.name.as_slice() == name,
        },
    }
}

/// The place of a machine whose name is short, by a hash of its octets.
fn find_short(names: &Directory, key: &Key) -> Option<usize>
    requires { length key.now.name < SHORT }
    ensures { result ≡ place_of names.now (key_octets key.now) }
{
    let mut octets = FixedList::<u8, SHORT>::new();
    octets.push(role_octet(key.role));
    octets.extend_from_slice(key.name.as_slice());
    names.find(octets.as_slice())
}

/// The place of a machine: looks at each name in turn.
fn find_each(names: &Directory, key: &Key) -> Option<usize>
    ensures { result ≡ place_of names.now (key_octets key.now) }
{
    for place in 0..names.len() {
        if is_at(names, place, key) {
            return Some(place);
        }
    }
    None
}

/// The place of a machine, by a hash of its octets: memory is taken for a name that is not short.
pub(crate) fn find(alloc: Global, names: &Directory, key: &Key) -> Result<Option<usize>, AllocError>
    ensures { IfOk result (λ place. place ≡ place_of names.now (key_octets key.now)) }
{
    if key.name.as_slice().len() < SHORT {
        return Ok(find_short(names, key));
    }
    let octets = key_octets(alloc, key)?;
    Ok(names.find(&octets))
}

impl ShardState {
    /// The place of a machine, if it is there. Takes no memory. Its time does not grow with the directory where its
    /// name has at most 255 octets; else each name is looked at in turn.
    pub fn seek(&self, key: &Key) -> Option<usize>
        ensures { result ≡ place_in self.now key.now }
    {
        if key.name.as_slice().len() < SHORT {
            find_short(&self.names, key)
        } else {
            find_each(&self.names, key)
        }
    }
}
