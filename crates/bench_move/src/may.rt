//! Which machines can be told, and what.
ghost use Rattle.std.specs.Prelude.{◌≡◌, ◌∷◌, ◌&&◌, [], codes, length, nat_le, nat_lt};
ghost use Rattle.std.specs.List.{list_any};
ghost use Rattle.std.specs.Str.{bytes_eq, is_utf8};
ghost use Rattle.tab_step.specs.Moves.{is_kind_of};
ghost use Rattle.bench_item.specs.Keys.{node_of};
ghost use Rattle.bench_spec.specs.Refusal.{may_tell};
ghost use Rattle.bench_spec.specs.Settings.{Settings};
ghost use Rattle.bench_move.specs.May.{may_look};

use bench_item::{Key, Peers, Role};
use tab_law::LawBook;

/// The most octets of a session's name.
const MAX_SESSION: usize = 255;

/// Whether a kind of events has that name in the book.
fn is_kind_of(laws: &LawBook, kind: u8, name: &[u8]) -> bool
    ensures { result ≡ is_kind_of laws.now kind name.now }
{
    match laws.kinds().as_slice().get(usize::from(kind)) {
        Some(entry) => entry.name.as_slice() == name,
        None => false,
    }
}

/// Whether a desk may tell a peer an event of that kind.
fn is_for_peer(laws: &LawBook, kind: u8) -> bool
    ensures { result ≡ list_any (is_kind_of laws.now kind) (codes "Start" ∷ codes "Stop" ∷ []) }
{
    is_kind_of(laws, kind, b"Start") || is_kind_of(laws, kind, b"Stop")
}

/// Whether a desk may tell a client's session an event of that kind.
fn is_for_client(laws: &LawBook, kind: u8) -> bool
    ensures { result
        ≡ list_any (is_kind_of laws.now kind) (codes "Begin" ∷ codes "More" ∷ codes "End" ∷ codes "One" ∷ []) }
{
    is_kind_of(laws, kind, b"Begin")
        || is_kind_of(laws, kind, b"More")
        || is_kind_of(laws, kind, b"End")
        || is_kind_of(laws, kind, b"One")
}

/// Whether a configured peer has that name, octet by octet.
fn is_peer(peers: &Peers, name: &[u8]) -> bool
    ensures { result ≡ list_any (bytes_eq name.now) peers.now.hosts }
{
    peers.hosts().iter().any(|host| name == host.as_slice())
}

/// Whether octets are UTF-8.
fn is_utf8(octets: &[u8]) -> bool
    ensures { result ≡ is_utf8 octets.now }
{
    match str::from_utf8(octets) {
        Ok(_) => true,
        Err(_) => false,
    }
}

/// Whether a session can have that name: 1 to 255 octets of UTF-8.
fn is_session(name: &[u8]) -> bool
    ensures { result ≡ (nat_lt 0 (length name.now) && nat_le (length name.now) 255 && is_utf8 name.now) }
{
    !name.is_empty() && name.len() <= MAX_SESSION && is_utf8(name)
}

/// Whether there is a machine of that key that can be told: a configured peer's, or a client's session's.
pub fn may_look(peers: &Peers, key: &Key) -> bool
    ensures { result ≡ may_look peers.now.hosts key.now }
{
    let name = key.name.as_slice();
    match key.role {
        Role::Peer => is_peer(peers, name),
        Role::Client => is_session(name),
        Role::Server => false,
    }
}

/// Whether a desk may tell a machine an event of that kind.
pub fn may_tell(laws: &LawBook, peers: &Peers, key: &Key, kind: u8) -> bool
    ensures { (settings : Settings) → settings.node ≡ node_of laws.now peers.now
        → result ≡ may_tell settings key.now kind }
{
    let name = key.name.as_slice();
    match key.role {
        Role::Peer => is_peer(peers, name) && is_for_peer(laws, kind),
        Role::Client => is_session(name) && is_for_client(laws, kind),
        Role::Server => false,
    }
}
