//! A shard is made, with the machines of its peers.
ghost use Rattle.std.specs.Prelude.{◌≡◌, ◌≤◌, ◌<◌, ◌++◌, ◌∷◌, [], IfOk, OnOk, length};
ghost use Rattle.bench_item.specs.Keys.{node_of, number_at};
ghost use Rattle.bench_item.specs.declared.key.Role.TheVariants.{Peer};
ghost use Rattle.bench_item.specs.declared.limit.TheConstants.{MAX_MACHINES, MAX_SHARDS};
ghost use Rattle.bench_spec.specs.Machines.{start};
ghost use Rattle.bench_spec.specs.Settings.{Settings};
ghost use Rattle.bench_shard.specs.Stands.{HasMachines, Stands};
ghost use Rattle.tab_law.specs.Books.{Laws};
ghost use Rattle.bench_shard.specs.Names.{key_octets};
ghost use Rattle.bench_shard.specs.View.{opened, peer_names, starts};

use crate::name::key_octets;
use crate::settle::come;
use crate::state::ShardState;
use base_codes::session_register;
use base_list::Octets;
use bench_item::{Key, MAX_MACHINES, Peers, Role, home};
use bench_log::KeptState;
use bench_queue::{Inbox, Outbox};
use sess_dir::{Directory, MAX_NAMES};
use std::alloc::{AllocError, Global};
use tab_law::PLACES;
use tab_step::MachineState;

/// The number of the machine at a place of a shard's directory.
pub(crate) fn number_at(shard: usize, place: usize) -> u64
    requires shard { shard < MAX_SHARDS }
    requires place { place ≤ MAX_MACHINES }
    ensures { result ≡ number_at shard place }
{
    (shard * MAX_MACHINES + place) as u64
}

/// A machine at its start: the first state of its table, and its number in its register.
pub(crate) fn start(machine: u64) -> MachineState
    ensures { result ≡ start machine }
{
    let mut regs = [0; PLACES];
    regs[session_register::MACHINE] = machine;
    MachineState { state: 0, regs }
}

/// Adds the machine of a peer, at its start. No peer is there twice, and there are few,
/// so nothing but memory can be wanting.
fn add_peer(
    alloc: Global,
    number: usize,
    key: &Key,
    names: &mut Directory,
    states: &mut Vec<KeptState>,
) -> Result<(), AllocError>
    requires { number < MAX_SHARDS }
    ensures names { OnOk result (names.new ≡ names.old ++ key_octets key.now ∷ []) }
    ensures states { OnOk result (states.new.items
        ≡ states.old.items ++ start (number_at number (length names.old)) ∷ []) }
{
    let place = names.len();
    let octets = key_octets(alloc, key)?;
    let kept = KeptState::keep(alloc, &start(number_at(number, place)))?;
    if place >= MAX_NAMES || names.find(&octets).is_some() {
        return Err(AllocError);
    }
    come(names, states, &octets, kept)
}

/// Adds the machine of a peer, at its start, where the host is in the shard.
fn add_host(
    alloc: Global,
    shards: usize,
    number: usize,
    host: &Octets,
    names: &mut Directory,
    states: &mut Vec<KeptState>,
) -> Result<(), AllocError>
    requires few { shards ≤ MAX_SHARDS }
    requires here { number < shards }
    requires states { states.old.items ≡ starts number (length names.old) }
    ensures names { OnOk result (names.new ≡ names.old ++ peer_names shards number (host.now ∷ [])) }
    ensures states { OnOk result (states.new.items ≡ starts number (length names.new)) }
{
    let key = Key {
        role: Role::Peer,
        name: host.copy(alloc)?,
    };
    if home(shards, &key) != number {
        return Ok(());
    }
    add_peer(alloc, number, &key, names, states)
}

/// Adds the machines of those of the peers that are in the shard, in their order.
fn add_peers(
    alloc: Global,
    number: usize,
    peers: &Peers,
    names: &mut Directory,
    states: &mut Vec<KeptState>,
) -> Result<(), AllocError>
    requires here { number < peers.now.shards }
    requires names { names.old ≡ [] }
    requires states { states.old.items ≡ [] }
    ensures names { OnOk result (names.new ≡ peer_names peers.now.shards number peers.now.hosts) }
    ensures states { OnOk result (states.new.items ≡ starts number (length names.new)) }
{
    let shards = peers.shards();
    let hosts = peers.hosts();
    for host in hosts {
        add_host(alloc, shards, number, host, names, states)?;
    }
    Ok(())
}

impl ShardState {
    /// The shard of that number, from 0, of a node with these peers.
    /// Those of them that have their place in it come first, in their order, each at its start.
    pub fn new(alloc: Global, number: usize, peers: Peers) -> Result<ShardState, AllocError>
        requires { number < peers.shards }
        ensures opened { IfOk result (λ shard. shard ≡ opened number peers) }
        // It is what a log without entries says.
        ensures stands { IfOk result (λ shard. (settings : Settings)
            → peers ≡ record { hosts = settings.node.peers; shards = settings.node.shards }
            → Stands settings [] shard) }
        ensures machines { IfOk result (λ shard. (laws : Laws) → HasMachines (node_of laws shard.peers) [] shard) }
    {
        let mut names = Directory::new(alloc);
        let mut states = Vec::new(alloc);
        add_peers(alloc, number, &peers, &mut names, &mut states)?;
        let _count = names.len();
        Ok(ShardState {
            alloc,
            number,
            peers,
            names,
            states,
            inbox: Inbox::new(alloc),
            outbox: Outbox::new(alloc),
            paused: false,
        })
    }
}
