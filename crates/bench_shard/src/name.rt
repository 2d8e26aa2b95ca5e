//! The octets by which a directory knows a machine.
ghost use Rattle.std.specs.Prelude.{◌≡◌, IfOk};
ghost use Rattle.bench_shard.specs.Lent.{key_lent};
ghost use Rattle.bench_shard.specs.Names.{key_in, key_octets, octet_role, role_octet};

use base_list::Octets;
use bench_item::{Key, Role};
use std::alloc::{AllocError, Global};

/// The octet of a role.
pub(crate) fn role_octet(role: Role) -> u8
    ensures { result ≡ role_octet role }
{
    match role {
        Role::Peer => 0,
        Role::Client => 1,
        Role::Server => 2,
    }
}

/// The role of an octet.
fn octet_role(octet: u8) -> Role
    ensures { result ≡ octet_role octet }
{
    match octet {
        1 => Role::Client,
        2 => Role::Server,
        _ => Role::Peer,
    }
}

/// The octet of the role, and the octets of the name.
pub(crate) fn octets_of(alloc: Global, role: Role, name: &[u8]) -> Result<Vec<u8>, AllocError>
    ensures { IfOk result (λ octets. octets.items ≡ key_octets (record { role = role; name = name.now })) }
{
    let mut octets = Vec::with_capacity(alloc, name.len().saturating_add(1))?;
    octets.push(role_octet(role))?;
    octets.extend_from_slice(name)?;
    Ok(octets)
}

/// The octets of a key.
pub(crate) fn key_octets(alloc: Global, key: &Key) -> Result<Vec<u8>, AllocError>
    ensures { IfOk result (λ octets. octets.items ≡ key_octets key.now) }
{
    octets_of(alloc, key.role, key.name.as_slice())
}

/// The key of a machine, lent by its shard: its name is not copied.
#[derive(Clone, Copy)]
pub struct LentKey<'a> {
    pub role: Role,
    pub name: &'a [u8],
}

/// The machine that has these octets, its name as it stands there.
pub(crate) fn lent_key(octets: &[u8]) -> LentKey<'_>
    ensures { key_lent result ≡ key_in octets.now }
{
    match octets.split_first() {
        None => LentKey {
            role: Role::Peer,
            name: &[],
        },
        Some((first, name)) => LentKey {
            role: octet_role(*first),
            name,
        },
    }
}

/// The machine that has these octets.
pub(crate) fn key_in(alloc: Global, octets: &[u8]) -> Result<Key, AllocError>
    ensures { IfOk result (λ key. key ≡ key_in octets.now) }
{
    match octets.split_first() {
        None => Ok(Key {
            role: Role::Peer,
            name: Octets::from_slice(alloc, &[])?,
        }),
        Some((first, name)) => Ok(Key {
            role: octet_role(*first),
            name: Octets::from_slice(alloc, name)?,
        }),
    }
}
