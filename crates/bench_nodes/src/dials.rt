//! Connections that are being dialled are accepted by a node, or lost.
ghost use Rattle.std.specs.Prelude.{◌≡◌, ◌<◌, ◌≤◌, IfOk};
ghost use Rattle.bench_item.specs.declared.limit.TheConstants.{MAX_ENTRIES};
ghost use Rattle.bench_script.specs.Printed.{machine_at};
ghost use Rattle.bench_nodes.specs.Crossings.{accepts, dialled_by, fails, is_caller, lines_of, listener_of, of_dial};
ghost use Rattle.bench_nodes.specs.Crossings.{of_line, of_node, of_nodes};

use crate::links::{if_free, stands_at};
use crate::node::{Crossing, End, Link, Linked, Node};
use bench_item::{Key, LineState, Step, is_same_host};
use bench_script::{Core, line_count};
use std::alloc::{AllocError, Global};

/// Whether a line has dialled a connection between nodes.
fn is_caller(links: &[Link], end: End) -> bool
    ensures { result ≡ is_caller links.now end }
{
    links.iter().any(|link| link.caller.node == end.node && link.caller.line == end.line)
}

/// The first node of a host that accepts connections.
fn listener_of(nodes: &[Node], host: &[u8]) -> Option<usize>
    ensures { result ≡ listener_of nodes.now host.now }
{
    nodes.iter().position(|node| node.listens && is_same_host(node.host.as_slice(), host))
}

/// The machine of a number, if there is one.
fn machine_at(core: &Core, machine: u64) -> Result<Option<Key>, AllocError>
    ensures { IfOk result (λ key. key ≡ machine_at core.now machine) }
{
    let key = core.key(machine)?;
    Ok(key)
}

/// The node that the machine of a peer dials.
#[tactic(auto, unfolding(crate::specs::Crossings::dialled_by))]
fn dialled_by(nodes: &[Node], at: usize, peer: u64) -> Result<Option<usize>, AllocError>
    ensures { IfOk result (λ callee. callee ≡ dialled_by nodes.now at peer) }
{
    let Some(node) = nodes.get(at) else {
        return Ok(None);
    };
    match machine_at(&node.core, peer)? {
        Some(key) => Ok(listener_of(nodes, key.name.as_slice())),
        None => Ok(None),
    }
}

/// How many lines a node has.
#[tactic(auto, unfolding(crate::specs::Crossings::lines_of))]
fn lines_of(nodes: &[Node], at: usize) -> u32
    ensures count { result ≡ lines_of nodes.now at }
    ensures within { result ≤ MAX_ENTRIES }
{
    match nodes.get(at) {
        Some(node) => line_count(&node.core),
        None => 0,
    }
}

/// A dial is accepted, where it can be.
fn accepts(nodes: &[Node], links: &[Link], caller: End, callee: usize) -> Option<Crossing>
    ensures { result ≡ accepts nodes.now links.now caller callee }
{
    let line = lines_of(nodes, callee) + 1;
    let link = Link {
        caller,
        callee: End { node: callee, line },
        there: 0,
        back: 0,
    };
    let crossing = Crossing {
        node: callee,
        step: Step::Joined,
        linked: Some(Linked {
            place: links.len(),
            link,
        }),
    };
    if_free(nodes, crossing)
}

/// A dial is lost.
fn fails(nodes: &[Node], caller: End) -> Option<Crossing>
    ensures { result ≡ fails nodes.now caller }
{
    let crossing = Crossing {
        node: caller.node,
        step: Step::Lost(caller.line),
        linked: None,
    };
    if_free(nodes, crossing)
}

/// What comes of a line that is being dialled.
fn of_dial(
    nodes: &[Node],
    links: &[Link],
    caller: End,
    peer: u64,
) -> Result<Option<Crossing>, AllocError>
    ensures { IfOk result (λ crossing. crossing ≡ of_dial nodes.now links.now caller peer) }
{
    if let Some(callee) = dialled_by(nodes, caller.node, peer)? {
        let accepted = accepts(nodes, links, caller, callee);
        if accepted.is_some() {
            return Ok(accepted);
        }
    }
    Ok(fails(nodes, caller))
}

/// What comes of a line, if it is being dialled.
fn of_line(nodes: &[Node], links: &[Link], caller: End) -> Result<Option<Crossing>, AllocError>
    ensures { IfOk result (λ crossing. crossing ≡ of_line nodes.now links.now caller) }
{
    match stands_at(nodes, caller) {
        Some(LineState::Dialling { peer }) => {
            if is_caller(links, caller) {
                Ok(None)
            } else {
                of_dial(nodes, links, caller, peer)
            }
        }
        _ => Ok(None),
    }
}

/// What comes of the lines of a node: of the first of which something comes.
fn of_node(nodes: &[Node], links: &[Link], at: usize) -> Result<Option<Crossing>, AllocError>
    ensures { IfOk result (λ crossing. crossing ≡ of_node nodes.now links.now at) }
{
    let count = lines_of(nodes, at);
    'lines: for place in 0..count {
        let caller = End {
            node: at,
            line: place + 1,
        };
        let crossing = of_line(nodes, links, caller)?;
        if crossing.is_some() {
            return Ok(crossing);
        }
    }
    Ok(None)
}

/// What comes of the lines of all nodes.
pub(crate) fn of_nodes(nodes: &[Node], links: &[Link]) -> Result<Option<Crossing>, AllocError>
    ensures { IfOk result (λ crossing. crossing ≡ of_nodes nodes.now links.now) }
{
    'nodes: for at in 0..nodes.len() {
        let crossing = of_node(nodes, links, at)?;
        if crossing.is_some() {
            return Ok(crossing);
        }
    }
    Ok(None)
}
