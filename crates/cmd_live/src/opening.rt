//! A node of a CONFIG as a live node.
#![tactic(auto, using(crate::proofs::LawLemmas::same_laws))]

ghost use Rattle.std.specs.Prelude.{◌≡◌, IfErr, IfOk};
ghost use Rattle.std.specs.List.{AllByRecursion as Each};
ghost use Rattle.bench_spec.specs.Taken.{opened};
ghost use Rattle.cmd_live.specs.Lives.{AreDesksFrom, IsDeskOf};
ghost use Rattle.cmd_live.specs.Nodes.{settings_at};
ghost use Rattle.cmd_live.specs.Refusals.{HasBadDeskIn, HasOpened, IsBadDesk, IsUnopened, IsUnready};
ghost use Rattle.cmd_live.specs.Refusals.{bad_text};
ghost use Rattle.cmd_live.specs.declared.opening.Refused.TheVariants.{NoMemory};
ghost use Rattle.role_tables.specs.Roles.{all_laws};

use base_text::put_number;
use bench_core::Core;
use bench_item::{Key, Role};
use bench_node::{LiveNode, PeerAddress, open_bench};
use bench_open::Config;
use bench_setup::{WithCalls, opening_text_at, unbound_at, with_calls};
use config_text::{DeskConfig, NodeConfig, PeerConfig};
use live_desk::{Desk, DeskError};
use live_turns::registry_count;
use std::alloc::{AllocError, AllocFailed, Global};
use std::net::SocketAddr;
use tab_call::Registry;

/// Why a node does not live.
#[derive(Drop)]
pub(crate) enum Refused {
    /// What was read is wrong, as this text says.
    Told(Vec<u8>),
    /// The system refuses something, as this text says.
    Failed(Vec<u8>),
    NoMemory,
}

impl From<AllocError> for Refused {
    ghost from_gives = { λ _ e. e ≡ NoMemory };

    fn from(_e: AllocError) -> Refused {
        Refused::NoMemory
    }
}

impl<T: Drop> From<AllocFailed<T>> for Refused {
    ghost from_gives = { λ _ e. e ≡ NoMemory };

    fn from(_e: AllocFailed<T>) -> Refused {
        Refused::NoMemory
    }
}

/// The text that tells of a desk's text that is none.
fn bad_text(alloc: Global, place: usize, desk: usize, text: usize) -> Result<Vec<u8>, AllocError>
    ensures { IfOk result (λ out. out.items ≡ bad_text place desk text) }
{
    let mut out = Vec::new(alloc);
    put_number(&mut out, b"nodes[", place as u64)?;
    put_number(&mut out, b"].desks[", desk as u64)?;
    put_number(&mut out, b"][", text as u64)?;
    out.extend_from_slice(
        b"]: bad text\n  wanted: a key and an event that it can be told, as p:s.example Start or c:s;1 Begin 7=100\n",
    )?;
    Ok(out)
}

/// Where the peers of a bench are dialled.
fn addresses_of(
    alloc: Global,
    core: &Core,
    peers: &[PeerConfig],
    dialled: &[Option<SocketAddr>],
) -> Result<Vec<PeerAddress>, AllocError> {
    let mut addresses = Vec::new(alloc);
    for (peer, address) in peers.iter().zip(dialled.iter()) {
        let key = Key {
            role: Role::Peer,
            name: peer.host.copy(alloc)?,
        };
        if let Some(machine) = core.number_of(&key) {
            let address = *address;
            addresses.push(PeerAddress { machine, address })?;
        }
    }
    Ok(addresses)
}

/// A desk of a bench.
fn desk_of(
    alloc: Global,
    core: &Core,
    place: usize,
    number: usize,
    config: &DeskConfig,
    turns: u64,
) -> Result<Desk, Refused>
    ensures desk { IfOk result (IsDeskOf turns number config.now) }
    ensures refused { IfErr result (IsBadDesk place number config.now core.now) }
{
    let DeskConfig { lines, repeat } = config;
    let shown = number.min(u32::MAX as usize) as u32;
    match Desk::new(alloc, core, shown, lines.as_slice(), *repeat, turns) {
        Ok(desk) => Ok(desk),
        Err(DeskError::BadText(text)) => Err(Refused::Told(bad_text(alloc, place, number, text)?)),
        Err(DeskError::NoMemory) => Err(Refused::NoMemory),
    }
}

/// The desks of a bench, in their order.
fn desks_of(
    alloc: Global,
    core: &Core,
    place: usize,
    node: &NodeConfig,
) -> Result<Vec<Desk>, Refused>
    ensures desks { IfOk result (λ desks. AreDesksFrom node.now.turns 0 node.now.desks desks.items) }
    ensures refused { IfErr result (HasBadDeskIn place node.now core.now) }
{
    let mut desks = Vec::new(alloc);
    let configs = node.desks.as_slice();
    'desks: for number in 0..configs.len() {
        desks.push(desk_of(alloc, core, place, number, &configs[number], node.turns)?)?;
    }
    Ok(desks)
}

/// A bench that is to be opened.
#[derive(Drop)]
struct Bench {
    alloc: Global,
    config: Config,
}

impl WithCalls for Bench {
    type Answer = Result<Core, Vec<u8>>;

    ghost fits = { λ _ laws. Each (λ l. l ≡ all_laws) laws };

    ghost answers = { λ bench laws answer. HasOpened bench.config laws answer };

    fn run(self, registries: Vec<Registry>) -> Result<Result<Core, Vec<u8>>, AllocError> {
        let Bench { alloc, config } = self;
        let row = unbound_at(alloc, &config, &registries);
        match open_bench(alloc, config, &registries) {
            Ok(core) => Ok(Ok(core)),
            Err(error) => Ok(Err(opening_text_at(alloc, &registries, row, &error)?)),
        }
    }
}

/// Opens the bench of a node.
#[tactic(auto, using(crate::proofs::LawLemmas::same_laws), unfolding(crate::specs::Nodes::settings_at))]
fn core_of(alloc: Global, config: Config) -> Result<Core, Refused>
    ensures laws { IfOk result (λ core. core.settings.node.laws ≡ all_laws) }
    ensures opened { IfOk result (λ core. core ≡ opened (settings_at config)) }
    ensures refused { IfErr result (IsUnopened config) }
{
    let count = registry_count(config.shards);
    match with_calls(alloc, count, Bench { alloc, config }) {
        Ok(Ok(core)) => Ok(core),
        Ok(Err(text)) => Err(Refused::Told(text)),
        Err(AllocError) => Err(Refused::NoMemory),
    }
}

/// A node that was opened, and its desks.
#[derive(Drop)]
pub(crate) struct Opened {
    pub(crate) node: LiveNode,
    pub(crate) desks: Vec<Desk>,
}

/// A live node of a bench that was opened.
fn node_of(
    alloc: Global,
    core: Core,
    place: usize,
    node: &NodeConfig,
    dialled: &[Option<SocketAddr>],
) -> Result<Opened, Refused>
    requires { core.settings.node.laws ≡ all_laws }
    ensures bench { IfOk result (λ ready. ready.node ≡ core) }
    ensures desks { IfOk result (λ ready. AreDesksFrom node.now.turns 0 node.now.desks ready.desks.items) }
    ensures refused { IfErr result (HasBadDeskIn place node.now core) }
{
    let peers = addresses_of(alloc, &core, node.peers.as_slice(), dialled)?;
    let desks = desks_of(alloc, &core, place, node)?;
    Ok(Opened {
        node: LiveNode::new(alloc, core, peers)?,
        desks,
    })
}

/// Opens a node at its place in CONFIG, whose peers are dialled there.
pub(crate) fn open(
    alloc: Global,
    place: usize,
    node: &NodeConfig,
    bench: Config,
    dialled: &[Option<SocketAddr>],
) -> Result<Opened, Refused>
    ensures bench { IfOk result (λ ready. ready.node ≡ opened (settings_at bench)) }
    ensures desks { IfOk result (λ ready. AreDesksFrom node.now.turns 0 node.now.desks ready.desks.items) }
    ensures refused { IfErr result (IsUnready place node.now bench) }
{
    let core = core_of(alloc, bench)?;
    node_of(alloc, core, place, node, dialled)
}
