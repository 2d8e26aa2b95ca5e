//! What a bench is opened with, of a node and its tables.
ghost use Rattle.std.specs.Prelude.{◌≡◌, IfOk, map};
ghost use Rattle.config_text.specs.Configs.{IsConfigOf, host_of};

use crate::node::{NodeConfig, PeerConfig};
use base_list::Octets;
use bench_open::Config;
use dia_dict::Dictionary;
use dia_write::Identity;
use std::alloc::{AllocError, Global};
use tab_text::Table;

/// The table of each role, read.
#[derive(Drop)]
pub struct RoleTables {
    pub peer: Table,
    pub client: Table,
    pub server: Table,
}

/// The hosts of peers, in their order.
fn hosts_of(alloc: Global, peers: &[PeerConfig]) -> Result<Vec<Octets>, AllocError>
    ensures { IfOk result (λ hosts. hosts.items ≡ map host_of peers.now) }
{
    let mut hosts = Vec::new(alloc);
    for peer in peers {
        hosts.push(peer.host.copy(alloc)?)?;
    }
    Ok(hosts)
}

fn identity_of(alloc: Global, node: &NodeConfig) -> Result<Identity, AllocError>
    ensures { IfOk result (λ identity. identity ≡ node.now.identity) }
{
    Ok(Identity {
        host: node.identity.host.copy(alloc)?,
        realm: node.identity.realm.copy(alloc)?,
        address: node.identity.address,
    })
}

/// What a bench is opened with: the node's numbers and names, copied, with tables and a dictionary that were read of
/// its files or are the shipped ones. The node keeps what a run needs of it besides.
pub fn config_of(
    alloc: Global,
    node: &NodeConfig,
    tables: RoleTables,
    dictionary: Dictionary,
) -> Result<Config, AllocError>
    ensures { IfOk result (IsConfigOf node.now tables dictionary) }
{
    let identity = identity_of(alloc, node)?;
    let peers = hosts_of(alloc, node.peers.as_slice())?;
    let accounts = Vec::from_slice(alloc, node.accounts.as_slice())?;
    Ok(Config {
        identity,
        peers,
        accounts,
        shards: node.shards,
        pages: node.pages,
        desks: node.desks.as_slice().len() as u64,
        default_units: node.default_units,
        dictionary,
        peer: tables.peer,
        client: tables.client,
        server: tables.server,
    })
}
