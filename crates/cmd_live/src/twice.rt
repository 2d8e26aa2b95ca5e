//! Nodes that are to live and have one host.
ghost use Rattle.std.specs.Prelude.{◌≡◌, IfErr, IfOk, OnOk, is_some, option_map};
ghost use Rattle.cmd_live.specs.Nodes.{AreApartWhere, first_twice, has_host};
ghost use Rattle.cmd_live.specs.Refusals.{IsTwice, twice_text};

use crate::opening::Refused;
use bench_item::is_same_host;
use config_text::NodeConfig;
use live_report::put_host;
use std::alloc::{AllocError, Global};

/// Whether a node of that host is among nodes.
fn has_host(host: &[u8], nodes: &[NodeConfig]) -> bool
    ensures { result ≡ has_host host.now nodes.now }
{
    'nodes: for node in nodes {
        if is_same_host(node.identity.host.as_slice(), host) {
            return true;
        }
    }
    false
}

/// The first host that another node behind its own has, too.
fn first_twice(nodes: &[NodeConfig]) -> Option<&[u8]>
    ensures { option_map (λ host. host.now) result ≡ first_twice nodes.now }
{
    'nodes: for place in 0..nodes.len() {
        let host = nodes[place].identity.host.as_slice();
        if has_host(host, &nodes[place + 1..]) {
            return Some(host);
        }
    }
    None
}

/// What is told where two nodes have one host and are to be logged.
fn twice(alloc: Global, host: &[u8]) -> Result<Vec<u8>, AllocError>
    ensures { IfOk result (λ out. out.items ≡ twice_text host.now) }
{
    let mut out = Vec::from_slice(alloc, b"CONFIG has two nodes ")?;
    put_host(&mut out, host)?;
    out.extend_from_slice(b": their logs would be one file\n")?;
    Ok(out)
}

/// Where logs are wanted each node has a host of its own: its files have their names by it.
pub(crate) fn check_hosts(
    alloc: Global,
    log: Option<&str>,
    nodes: &[NodeConfig],
) -> Result<(), Refused>
    ensures apart { OnOk result (AreApartWhere (is_some (option_map (λ folder. folder.now) log.entry)) nodes.now) }
    ensures refused { IfErr result (IsTwice (option_map (λ folder. folder.now) log.entry) nodes.now) }
{
    if log.is_none() {
        return Ok(());
    }
    match first_twice(nodes) {
        None => Ok(()),
        Some(host) => Err(Refused::Told(twice(alloc, host)?)),
    }
}
