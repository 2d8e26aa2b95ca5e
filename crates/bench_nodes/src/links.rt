//! What comes at the other end of a connection: that it was accepted, octets, its end.
ghost use Rattle.std.specs.Prelude.{◌≡◌, IfOk};
ghost use Rattle.bench_nodes.specs.Crossings.{carries, ends, if_free, is_free, is_over, opens, over_link, over_links};
ghost use Rattle.bench_nodes.specs.Crossings.{over_place, sent_by, stands_at};

use crate::node::{Crossing, End, Link, Linked, Node, Way};
use base_list::Octets;
use bench_item::{LineState, Step};
use std::alloc::{AllocError, Global};

/// Whether a node can take a step.
#[tactic(auto, unfolding(crate::specs::Crossings::is_free))]
fn is_free(nodes: &[Node], at: usize, step: &Step) -> bool
    ensures { result ≡ is_free nodes.now at step.now }
{
    match nodes.get(at) {
        Some(node) => node.core.refusal(step).is_none(),
        None => false,
    }
}

/// What crosses, where it can be taken.
pub(crate) fn if_free(nodes: &[Node], crossing: Crossing) -> Option<Crossing>
    ensures { result ≡ if_free nodes.now crossing }
{
    if is_free(nodes, crossing.node, &crossing.step) {
        Some(crossing)
    } else {
        None
    }
}

/// What a line of a node has sent.
#[tactic(auto, unfolding(crate::specs::Crossings::sent_by))]
fn sent_by<'a>(nodes: &'a [Node], end: End) -> &'a [u8]
    ensures { result.now ≡ sent_by nodes.now end }
{
    match nodes.get(end.node) {
        Some(node) => node.core.sent(end.line),
        None => &[],
    }
}

/// Where a line of a node stands.
#[tactic(auto, unfolding(crate::specs::Crossings::stands_at))]
pub(crate) fn stands_at(nodes: &[Node], end: End) -> Option<LineState>
    ensures { result ≡ stands_at nodes.now end }
{
    match nodes.get(end.node) {
        Some(node) => node.core.line(end.line),
        None => None,
    }
}

/// Who dialled a connection that was accepted is told so.
fn opens(nodes: &[Node], link: Link) -> Option<Crossing>
    ensures { result ≡ opens nodes.now link }
{
    if_free(
        nodes,
        Crossing {
            node: link.caller.node,
            step: Step::Dialled(link.caller.line),
            linked: None,
        },
    )
}

/// The next octets that come one way, so many at most.
fn carries(
    alloc: Global,
    cut: usize,
    nodes: &[Node],
    link: Link,
    place: usize,
    way: Way,
) -> Result<Option<Crossing>, AllocError>
    ensures { IfOk result (λ crossing. crossing ≡ carries cut nodes.now link place way) }
{
    let sent = sent_by(nodes, link.from(way));
    let count = link.count(way);
    if cut == 0 || sent.len() <= count {
        return Ok(None);
    }
    let end = count + cut.min(sent.len() - count);
    let to = link.to(way);
    let step = Step::Came {
        line: to.line,
        piece: Octets::from_slice(alloc, &sent[count..end])?,
    };
    let linked = Linked {
        place,
        link: link.with_count(way, end),
    };
    let crossing = Crossing {
        node: to.node,
        step,
        linked: Some(linked),
    };
    Ok(if_free(nodes, crossing))
}

/// Whether an end is closed, and all that it sent has come.
fn is_over(nodes: &[Node], link: Link, way: Way) -> bool
    ensures { result ≡ is_over nodes.now link way }
{
    let end = link.from(way);
    match stands_at(nodes, end) {
        Some(LineState::Closed) => sent_by(nodes, end).len() <= link.count(way),
        _ => false,
    }
}

/// The other end of one that is over is lost.
fn ends(nodes: &[Node], link: Link, way: Way) -> Option<Crossing>
    ensures { result ≡ ends nodes.now link way }
{
    if !is_over(nodes, link, way) {
        return None;
    }
    let to = link.to(way);
    if_free(
        nodes,
        Crossing {
            node: to.node,
            step: Step::Lost(to.line),
            linked: None,
        },
    )
}

/// What comes over a connection.
fn over_link(
    alloc: Global,
    cut: usize,
    nodes: &[Node],
    link: Link,
    place: usize,
) -> Result<Option<Crossing>, AllocError>
    ensures { IfOk result (λ crossing. crossing ≡ over_link cut nodes.now link place) }
{
    let opened = opens(nodes, link);
    if opened.is_some() {
        return Ok(opened);
    }
    let there = carries(alloc, cut, nodes, link, place, Way::There)?;
    if there.is_some() {
        return Ok(there);
    }
    let back = carries(alloc, cut, nodes, link, place, Way::Back)?;
    if back.is_some() {
        return Ok(back);
    }
    let ended = ends(nodes, link, Way::There);
    if ended.is_some() {
        return Ok(ended);
    }
    Ok(ends(nodes, link, Way::Back))
}

/// What comes over the connection of a place, if it is there.
fn over_place(
    alloc: Global,
    cut: usize,
    nodes: &[Node],
    links: &[Link],
    place: usize,
) -> Result<Option<Crossing>, AllocError>
    ensures { IfOk result (λ crossing. crossing ≡ over_place cut nodes.now links.now place) }
{
    match links.get(place) {
        Some(link) => over_link(alloc, cut, nodes, *link, place),
        None => Ok(None),
    }
}

/// What comes over the first connection over which something comes.
pub(crate) fn over_links(
    alloc: Global,
    cut: usize,
    nodes: &[Node],
    links: &[Link],
) -> Result<Option<Crossing>, AllocError>
    ensures { IfOk result (λ crossing. crossing ≡ over_links cut nodes.now links.now) }
{
    'links: for place in 0..links.len() {
        let crossing = over_place(alloc, cut, nodes, links, place)?;
        if crossing.is_some() {
            return Ok(crossing);
        }
    }
    Ok(None)
}
