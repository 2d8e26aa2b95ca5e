//! The election.

ghost use Rattle.std.specs.Prelude.{◌≡◌, ◌↔◌, IsTrue};
ghost use Rattle.std.specs.Char.{to_ascii_lowercase};
ghost use Rattle.peer_rules.specs.Election.{IsGreater, lowered};

/// An octet, lowered where it is an ASCII letter.
fn lowered(octet: u8) -> u8
    ensures { result ≡ to_ascii_lowercase octet }
{
    octet.to_ascii_lowercase()
}

/// Whether the local host wins an election against the remote one (RFC 6733 section 5.6.4): its Origin-Host is the
/// greater one. Ours is that both are compared octet by octet with ASCII letters lowered, and that a host is
/// greater than a front of it.
pub fn elect(local: &[u8], remote: &[u8]) -> bool
    ensures { IsTrue result ↔ IsGreater (lowered local.now) (lowered remote.now) }
{
    for i in 0..local.len() {
        if i >= remote.len() {
            return true;
        }
        let own = lowered(local[i]);
        let other = lowered(remote[i]);
        if own != other {
            return own > other;
        }
    }
    false
}
