//! Which machine: its role and its name.
ghost use Rattle.std.specs.Prelude.{◌≡◌};
ghost use Rattle.bench_item.specs.Keys.{is_same_key, is_same_role};

use base_list::Octets;

/// Which table and which laws a machine has.
#[derive(Clone, Copy)]
pub enum Role {
    /// A peer's connection state machine (RFC 6733 section 5.6); `p:` where it is printed.
    Peer,
    /// A session of a credit-control client (RFC 8506 section 7); `c:`.
    Client,
    /// A session of a credit-control server (RFC 8506 section 7); `s:`.
    Server,
}

/// Which machine: its role, and its name.
#[derive(Drop)]
pub struct Key {
    pub role: Role,
    /// A peer's host as configured, or a session's Session-Id.
    pub name: Octets,
}

/// Whether two roles are one.
pub fn is_same_role(one: Role, other: Role) -> bool
    ensures { result ≡ is_same_role one other }
{
    matches!(
        (one, other),
        (Role::Peer, Role::Peer) | (Role::Client, Role::Client) | (Role::Server, Role::Server)
    )
}

/// Whether two keys are of one machine: of one role and one name, octet by octet.
pub fn is_same_key(one: &Key, other: &Key) -> bool
    ensures { result ≡ is_same_key one.now other.now }
{
    is_same_role(one.role, other.role) && one.name.as_slice() == other.name.as_slice()
}
