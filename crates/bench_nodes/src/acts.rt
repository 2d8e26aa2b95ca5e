//! A line of a script done at a node.
ghost use Rattle.std.specs.Prelude.{◌≡◌, ◌<◌, ◌≤◌, IfOk, OnOk, length, map, replicate, take};
ghost use Rattle.bench_script.specs.Ran.{Does};
ghost use Rattle.bench_nodes.specs.Acts.{ActsAt, ActsHere, AreBooksOf, settings_of};

use crate::marked::{put_marked, word_of};
use crate::node::Node;
use bench_script::{Core, run_script};
use script_text::RunLine;
use std::alloc::{AllocError, Global};
use tab_call::Registry;
use tab_step::Stepped;

/// The registries of a bench of so many shards: the first.
fn own_of(registries: &[Registry], shards: usize) -> &[Registry]
    requires { shards ≤ length registries.now }
    ensures { result.now ≡ take shards registries.now }
{
    &registries[..shards]
}

/// What a line does on a bench, and what it prints.
fn text_of(
    alloc: Global,
    core: &mut Core,
    registries: &[Registry],
    room: &mut Stepped,
    line: RunLine,
) -> Result<Vec<u8>, AllocError>
    requires by { take core.old.settings.node.shards (map (λ r. r.book) registries.now)
        ≡ replicate core.old.settings.node.shards core.old.settings.node.laws }
    requires enough { core.old.settings.node.shards ≤ length registries.now }
    ensures { IfOk result (λ text. Does core.old line core.new text.items) }
{
    let mut lines = Vec::new(alloc);
    lines.push(line)?;
    let mut text = Vec::new(alloc);
    let shards = core.shards();
    let own = own_of(registries, shards);
    run_script(alloc, core, own, room, lines, &mut text)?;
    Ok(text)
}

/// Does a line at a node, and puts what it prints behind its host.
fn do_here(
    alloc: Global,
    node: &mut Node,
    registries: &[Registry],
    room: &mut Stepped,
    line: RunLine,
    out: &mut Vec<u8>,
) -> Result<(), AllocError>
    requires by { take node.old.core.settings.node.shards (map (λ r. r.book) registries.now)
        ≡ replicate node.old.core.settings.node.shards node.old.core.settings.node.laws }
    requires enough { node.old.core.settings.node.shards ≤ length registries.now }
    ensures { OnOk result (ActsHere (λ run run' text. Does run line run' text)
        node.old out.old.items node.new out.new.items) }
{
    let word = word_of(alloc, node.host.as_slice())?;
    let text = text_of(alloc, &mut node.core, registries, room, line)?;
    put_marked(out, &word, &text)
}

/// Does a line at the node of a place.
pub(crate) fn do_at(
    alloc: Global,
    nodes: &mut [Node],
    at: usize,
    registries: &[Registry],
    room: &mut Stepped,
    line: RunLine,
    out: &mut Vec<u8>,
) -> Result<(), AllocError>
    requires at { at < length nodes.old }
    requires books { AreBooksOf (map (λ r. r.book) registries.now) (settings_of nodes.old) }
    ensures { OnOk result (ActsAt (λ run run' text. Does run line run' text) at
        nodes.old out.old.items nodes.new out.new.items) }
{
    do_here(alloc, &mut nodes[at], registries, room, line, out)?;
    Ok(())
}
