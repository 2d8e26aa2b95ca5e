//! The configured peers.
ghost use Rattle.std.specs.Prelude.{◌≡◌, ◌<◌, ◌≤◌, ◌++◌, ◌∷◌, [], None, IfOk, OnOk, false, length};
ghost use Rattle.bench_item.specs.Past.{any_after};
ghost use Rattle.bench_item.specs.Peers.{refusal};
ghost use Rattle.bench_item.specs.declared.limit.TheConstants.{MAX_PEERS, MAX_SHARDS};
ghost use Rattle.bench_spec.specs.Opening.{is_repeated};

use base_list::{AddError, Octets};
use bench_item::Peers;
use std::alloc::{AllocError, Global};

/// Adds a peer that is not there yet.
fn add_peer(peers: &mut Peers, host: &[u8]) -> Result<(), AllocError>
    requires { refusal host.now peers.old ≡ None }
    ensures { OnOk result (peers.new ≡ record peers.old { hosts = peers.old.hosts ++ host.now ∷ [] }) }
{
    match peers.add(host) {
        Ok(()) => Ok(()),
        Err(AddError::NoMemory) => Err(AllocError),
        Err(AddError::Fault(_)) => unreachable!(),
    }
}

/// The peers of a node of 1 to 16 shards, by their hosts: 64 at most, none twice, in ASCII without regard to case
/// (RFC 6733, 4.3.1).
pub fn open_peers(alloc: Global, shards: usize, hosts: &[Octets]) -> Result<Peers, AllocError>
    requires some { 0 < shards }
    requires few { shards ≤ MAX_SHARDS }
    requires few_hosts { length hosts.now ≤ MAX_PEERS }
    requires apart { any_after is_repeated [] hosts.now ≡ false }
    ensures { IfOk result (λ peers. peers ≡ record { hosts = hosts.now; shards = shards }) }
{
    let mut peers = Peers::new(alloc, shards);
    for host in hosts {
        add_peer(&mut peers, host.as_slice())?;
    }
    Ok(peers)
}
