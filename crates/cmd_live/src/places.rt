//! Where nodes listen, and where peers are dialled.
ghost use Rattle.std.specs.Prelude.{◌≡◌, List, Some, option_map, ℕ};
ghost use Rattle.cmd_live.specs.declared.places.Listens.TheVariants.{Unknown};

use base_list::Octets;
use config_text::PeerConfig;
use std::alloc::{AllocError, Global};
use std::net::{Net, SocketAddr, ToSocketAddrs};
use std::str;

/// The address of a host and a port, as `127.0.0.1:3868` or `s.example:3868`: the first that the system gives.
pub(crate) fn address_of<R: Net>(rt: &R, text: &[u8]) -> Option<SocketAddr> {
    if let Ok(address) = SocketAddr::parse_ascii(text) {
        return Some(address);
    }
    let text = str::from_utf8(text).ok()?;
    match text.to_socket_addrs(rt) {
        Ok(mut found) => found.next(),
        Err(_) => None,
    }
}

/// Of each peer where it is dialled, if it can be.
pub(crate) fn addresses_of<R: Net>(
    rt: &R,
    alloc: Global,
    peers: &[PeerConfig],
) -> Result<Vec<Option<SocketAddr>>, AllocError> {
    let mut addresses = Vec::new(alloc);
    for peer in peers {
        addresses.push(address_of(rt, peer.address.as_slice()))?;
    }
    Ok(addresses)
}

/// Where a node listens: nowhere, at an address, or at what is none.
#[derive(Clone, Copy)]
pub(crate) enum Listens {
    Nowhere,
    At(SocketAddr),
    Unknown,
}

/// Where a node listens.
pub(crate) fn listening_at<R: Net>(rt: &R, text: Option<&Octets>) -> Listens
    ensures { result ≡ Unknown → (listen : List ℕ) × (option_map (λ text. text.now) text.entry ≡ Some listen) }
{
    let Some(text) = text else {
        return Listens::Nowhere;
    };
    match address_of(rt, text.as_slice()) {
        Some(address) => Listens::At(address),
        None => Listens::Unknown,
    }
}
