//! Nodes that settle, each by itself and then what crosses between them, until nothing is left.
ghost use Rattle.std.specs.Prelude.{◌≡◌, ◌≤◌, IfOk, List, OnOk, Some, length, map};
ghost use Rattle.std.specs.List.{AllByRecursion as Each};
ghost use Rattle.bench_item.specs.declared.limit.TheConstants.{MAX_ENTRIES};
ghost use Rattle.bench_nodes.specs.Acts.{AreBooksOf, settings_of};
ghost use Rattle.bench_nodes.specs.Crossings.{links_after, next_crossing};
ghost use Rattle.bench_nodes.specs.declared.node.Link.{Link};
ghost use Rattle.bench_nodes.specs.Settled.{AllSettle, Crosses, EachSettled, net};

use crate::acts::do_at;
use crate::dials::of_nodes;
use crate::links::over_links;
use crate::node::{Crossing, Link, Linked, Node};
use script_text::{RunLine, ScriptStep};
use std::alloc::{AllocError, Global};
use tab_call::Registry;
use tab_step::Stepped;

/// Each node settles by itself, in their order.
fn settle_each(
    alloc: Global,
    nodes: &mut [Node],
    registries: &[Registry],
    room: &mut Stepped,
    out: &mut Vec<u8>,
) -> Result<(), AllocError>
    requires { AreBooksOf (map (λ r. r.book) registries.now) (settings_of nodes.old) }
    ensures { OnOk result ((links : List Link)
        → EachSettled (net nodes.old links out.old.items) (net nodes.new links out.new.items)) }
{
    'nodes: for at in 0..nodes.len() {
        do_at(alloc, nodes, at, registries, room, RunLine::Settle, out)?;
    }
    Ok(())
}

/// The next that crosses.
#[tactic(auto, unfolding(crate::specs::Crossings::next_crossing))]
fn next_crossing(
    alloc: Global,
    cut: usize,
    nodes: &[Node],
    links: &[Link],
) -> Result<Option<Crossing>, AllocError>
    ensures { IfOk result (λ crossing. crossing ≡ next_crossing cut nodes.now links.now) }
{
    let over = over_links(alloc, cut, nodes, links)?;
    if over.is_some() {
        return Ok(over);
    }
    of_nodes(nodes, links)
}

/// Has a connection as it is from now on.
fn link(links: &mut Vec<Link>, linked: Option<Linked>) -> Result<(), AllocError>
    ensures { OnOk result (links.new.items ≡ links_after links.old.items linked) }
{
    let Some(Linked { place, link }) = linked else {
        return Ok(());
    };
    if place == links.len() {
        links.push(link)?;
    } else if place < links.len() {
        links[place] = link;
    }
    Ok(())
}

/// Has what is the next cross.
fn cross(
    alloc: Global,
    cut: usize,
    nodes: &mut [Node],
    links: &mut Vec<Link>,
    registries: &[Registry],
    room: &mut Stepped,
    crossing: Crossing,
    out: &mut Vec<u8>,
) -> Result<(), AllocError>
    requires books { AreBooksOf (map (λ r. r.book) registries.now) (settings_of nodes.old) }
    requires next { next_crossing cut nodes.old links.old.items ≡ Some crossing }
    ensures { OnOk result (Crosses (net nodes.old links.old.items out.old.items)
        (net nodes.new links.new.items out.new.items) crossing) }
{
    let Crossing { node, step, linked } = crossing;
    let line = RunLine::Asked(ScriptStep::Step(step));
    do_at(alloc, nodes, node, registries, room, line, out)?;
    link(links, linked)?;
    Ok(())
}

/// No log has more entries than it may.
fn know_bounds(nodes: &[Node])
    ensures { Each (λ node. length node.core.log ≤ MAX_ENTRIES) nodes.now }
{
    'nodes: for node in nodes {
        let _entries = node.core.log().len();
    }
}

/// All nodes settle, each by itself, and then, as long as something can cross, the next does and all settle again.
pub(crate) fn settle_all(
    alloc: Global,
    cut: usize,
    nodes: &mut [Node],
    links: &mut Vec<Link>,
    registries: &[Registry],
    room: &mut Stepped,
    out: &mut Vec<u8>,
) -> Result<(), AllocError>
    requires { AreBooksOf (map (λ r. r.book) registries.now) (settings_of nodes.old) }
    ensures { OnOk result (AllSettle cut (net nodes.old links.old.items out.old.items)
        (net nodes.new links.new.items out.new.items)) }
{
    settle_each(alloc, nodes, registries, room, out)?;
    'rounds: while let Some(crossing) = next_crossing(alloc, cut, nodes, links)? {
        cross(alloc, cut, nodes, links, registries, room, crossing, out)?;
        // Each time there is an entry more, so that this ends.
        know_bounds(nodes);
        settle_each(alloc, nodes, registries, room, out)?;
    }
    Ok(())
}
