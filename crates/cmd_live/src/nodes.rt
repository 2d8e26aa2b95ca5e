//! The nodes of a CONFIG that are to live, opened, and where they listen.
ghost use Rattle.std.specs.Prelude.{◌≡◌, ◌<◌, ◌≤◌, ◌+◌, ◌++◌, ◌∷◌, ◌&&◌, [], IfErr, IfOk};
ghost use Rattle.std.specs.Prelude.{List, OnOk, length, nat_lt, not, option_map};
ghost use Rattle.bench_setup.specs.declared.setups.Setup.{Setup};
ghost use Rattle.cmd_live.specs.Lives.{AreLivings, IsCopyWhere, IsLivingOf, IsWatchWhere};
ghost use Rattle.cmd_live.specs.Nodes.{is_wanted, nodes_of, wanted_node};
ghost use Rattle.cmd_live.specs.Refusals.{IsRefusedIfWanted, IsRefusedIn, IsRefusedNode, IsRefusedOrNone};
ghost use Rattle.cmd_live.specs.Refusals.{IsWithoutSockets, no_address_text, no_node_text, no_socket_text};

use crate::opening::{Opened, Refused, open};
use crate::places::{Listens, addresses_of, listening_at};
use crate::words::LiveWords;
use base_list::Octets;
use base_text::put_number;
use bench_copy::copy_config;
use bench_item::is_same_host;
use bench_node::LiveNode;
use bench_open::Config;
use bench_setup::{MAX_NODES, Setup};
use config_text::NodeConfig;
use live_report::put_host;
use live_turns::{Living, Watch};
use net_sockets::{Sockets, SocketsFault};
use node_port::NodePort;
use std::alloc::{AllocError, Global};
use std::net::Net;

/// What is told of a node whose sockets the system refuses.
fn no_socket(alloc: Global, host: &[u8]) -> Result<Vec<u8>, AllocError>
    ensures { IfOk result (λ out. out.items ≡ no_socket_text host.now) }
{
    let mut out = Vec::from_slice(alloc, b"node ")?;
    put_host(&mut out, host)?;
    out.extend_from_slice(b": the system refuses a socket\n")?;
    Ok(out)
}

/// What is told of a node that listens at what is no address.
fn no_address(alloc: Global, place: usize) -> Result<Vec<u8>, AllocError>
    ensures { IfOk result (λ out. out.items ≡ no_address_text place) }
{
    let mut out = Vec::new(alloc);
    put_number(&mut out, b"nodes[", place as u64)?;
    out.extend_from_slice(b"].listen: a host and a port are wanted, as 127.0.0.1:3868\n")?;
    Ok(out)
}

/// What is told where no node is to live.
fn no_node(alloc: Global, host: Option<&str>) -> Result<Vec<u8>, AllocError>
    ensures { IfOk result (λ out. out.items ≡ no_node_text (option_map (λ host. host.now) host.entry)) }
{
    let mut out = Vec::from_slice(alloc, b"CONFIG has no node ")?;
    if let Some(host) = host {
        put_host(&mut out, host.as_bytes())?;
    }
    out.extend_from_slice(b"\n")?;
    Ok(out)
}

/// The sockets of a node, which listens where it is to.
fn sockets_of<R: Net>(
    rt: &R,
    alloc: Global,
    place: usize,
    node: &NodeConfig,
    live: LiveNode,
) -> Result<Sockets<NodePort>, Refused>
    ensures node { IfOk result (λ sockets. sockets.port.node.node ≡ live) }
    ensures refused { IfErr result (IsWithoutSockets place node.now) }
{
    let address = match listening_at(rt, node.listen.as_ref()) {
        Listens::Nowhere => None,
        Listens::At(address) => Some(address),
        Listens::Unknown => return Err(Refused::Told(no_address(alloc, place)?)),
    };
    match Sockets::new(rt, alloc, NodePort { node: live }, address) {
        Ok(sockets) => Ok(sockets),
        Err(SocketsFault::NoMemory) => Err(Refused::NoMemory),
        Err(SocketsFault::Refused) => {
            Err(Refused::Failed(no_socket(alloc, node.identity.host.as_slice())?))
        }
    }
}

/// What is counted of a node's log, where a line a second is wanted.
fn watch_of(
    alloc: Global,
    node: &NodeConfig,
    live: &LiveNode,
    stats: bool,
) -> Result<Option<Watch>, AllocError>
    ensures { IfOk result (IsWatchWhere stats node.now live.now) }
{
    if !stats {
        return Ok(None);
    }
    let host = node.identity.host.as_slice();
    let peers = node.peers.as_slice().len();
    Ok(Some(Watch::new(alloc, host, live.core(), peers)?))
}

/// A copy of what a bench is opened with, where its shards run in threads. Who looks each second looks at one log.
fn copy_for_threads(
    alloc: Global,
    bench: &Config,
    stats: bool,
) -> Result<Option<Config>, AllocError>
    ensures { IfOk result (IsCopyWhere (nat_lt 1 bench.now.shards && not stats) bench.now) }
{
    if bench.shards > 1 && !stats {
        copy_config(alloc, bench)
    } else {
        Ok(None)
    }
}

/// Opens a node at its place in CONFIG, and its sockets.
#[tactic(auto, using(crate::proofs::RefusalLemmas::no_memory))]
fn living_of<R: Net>(
    rt: &R,
    alloc: Global,
    place: usize,
    node: &NodeConfig,
    bench: Config,
    seconds: u64,
    stats: bool,
) -> Result<Living, Refused>
    ensures living { IfOk result (IsLivingOf seconds stats (record { node = node.now; bench = bench })) }
    ensures refused { IfErr result (IsRefusedNode place (record { node = node.now; bench = bench })) }
{
    let dialled = addresses_of(rt, alloc, node.peers.as_slice())?;
    let shards = bench.shards;
    let config = copy_for_threads(alloc, &bench, stats)?;
    let Opened { node: live, desks } = open(alloc, place, node, bench, &dialled)?;
    let watch = watch_of(alloc, node, &live, stats)?;
    Ok(Living {
        sockets: sockets_of(rt, alloc, place, node, live)?,
        desks,
        shards,
        turns: node.turns,
        seconds,
        watch,
        config,
    })
}

/// Nodes that are to live, each opened.
#[derive(Drop)]
pub(crate) struct Nodes {
    pub(crate) nodes: Vec<NodeConfig>,
    pub(crate) livings: Vec<Living>,
}

/// Whether a node is to live.
fn is_wanted(setup: &Setup, host: Option<&str>) -> bool
    ensures { result ≡ is_wanted (option_map (λ host. host.now) host.entry) setup.now }
{
    match host {
        Some(host) => is_same_host(setup.node.identity.host.as_slice(), host.as_bytes()),
        None => true,
    }
}

/// Opens a node, if it is to live.
fn add_wanted<R: Net>(
    rt: &R,
    alloc: Global,
    nodes: &mut Nodes,
    place: usize,
    setup: Setup,
    words: LiveWords<'_>,
    seconds: u64,
) -> Result<(), Refused>
    ensures nodes { OnOk result (nodes.new.nodes.items
        ≡ nodes.old.nodes.items ++ wanted_node (option_map (λ host. host.now) words.entry.node) setup) }
    ensures few { OnOk result (length nodes.new.nodes.items ≤ length nodes.old.nodes.items + 1) }
    ensures livings { OnOk result ((setups : List Setup)
        → AreLivings (option_map (λ host. host.now) words.entry.node) seconds words.entry.stats setups
        nodes.old.livings.items
        → AreLivings (option_map (λ host. host.now) words.entry.node) seconds words.entry.stats (setups ++ setup ∷ [])
        nodes.new.livings.items) }
    ensures both { OnOk result (length nodes.old.livings.items ≡ length nodes.old.nodes.items
        → length nodes.new.livings.items ≡ length nodes.new.nodes.items) }
    ensures refused { IfErr result (IsRefusedIfWanted (option_map (λ host. host.now) words.entry.node) place setup) }
{
    if is_wanted(&setup, words.node) {
        let Setup { node, bench } = setup;
        nodes.livings.push(living_of(rt, alloc, place, &node, bench, seconds, words.stats)?)?;
        nodes.nodes.push(node)?;
    }
    Ok(())
}

/// Opens the nodes that are to live.
fn all_nodes<R: Net>(
    rt: &R,
    alloc: Global,
    setups: Vec<Setup>,
    words: LiveWords<'_>,
    seconds: u64,
) -> Result<Nodes, Refused>
    requires { length setups.items ≤ MAX_NODES }
    ensures nodes { IfOk result (λ nodes. nodes.nodes.items
        ≡ nodes_of (option_map (λ host. host.now) words.entry.node) setups.items) }
    ensures few { IfOk result (λ nodes. length nodes.nodes.items ≤ MAX_NODES) }
    ensures livings { IfOk result (λ nodes. AreLivings (option_map (λ host. host.now) words.entry.node) seconds
        words.entry.stats setups.items nodes.livings.items) }
    ensures both { IfOk result (λ nodes. length nodes.livings.items ≡ length nodes.nodes.items) }
    ensures refused { IfErr result (IsRefusedIn (option_map (λ host. host.now) words.entry.node) setups.items) }
{
    let mut nodes = Nodes {
        nodes: Vec::new(alloc),
        livings: Vec::new(alloc),
    };
    let mut left = setups.into_iter();
    let mut place = 0;
    'setups: while let Some(setup) = left.next() {
        add_wanted(rt, alloc, &mut nodes, place, setup, words, seconds)?;
        place += 1;
    }
    Ok(nodes)
}

/// The nodes that are to live, of which there has to be one.
pub(crate) fn nodes_of<R: Net>(
    rt: &R,
    alloc: Global,
    setups: Vec<Setup>,
    words: LiveWords<'_>,
    seconds: u64,
) -> Result<Nodes, Refused>
    requires { length setups.items ≤ MAX_NODES }
    ensures nodes { IfOk result (λ nodes. nodes.nodes.items
        ≡ nodes_of (option_map (λ host. host.now) words.entry.node) setups.items) }
    ensures few { IfOk result (λ nodes. length nodes.nodes.items ≤ MAX_NODES) }
    ensures livings { IfOk result (λ nodes. AreLivings (option_map (λ host. host.now) words.entry.node) seconds
        words.entry.stats setups.items nodes.livings.items) }
    ensures both { IfOk result (λ nodes. length nodes.livings.items ≡ length nodes.nodes.items) }
    ensures some { IfOk result (λ nodes. 0 < length nodes.nodes.items) }
    ensures refused { IfErr result (IsRefusedOrNone (option_map (λ host. host.now) words.entry.node) setups.items) }
{
    let nodes = all_nodes(rt, alloc, setups, words, seconds)?;
    if nodes.nodes.is_empty() {
        return Err(Refused::Told(no_node(alloc, words.node)?));
    }
    Ok(nodes)
}
