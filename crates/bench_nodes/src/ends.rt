//! What is printed at the end: where lines stand and what they sent, and what stands on accounts, node by node.
ghost use Rattle.std.specs.Prelude.{◌≡◌, ◌++◌, OnOk};
ghost use Rattle.bench_nodes.specs.Told.{lines_told, node_lines, node_totals, totals_told};

use crate::marked::{put_marked, word_of};
use crate::node::Node;
use bench_script::{put_lines, put_totals};
use std::alloc::{AllocError, Global};

/// Puts the lines of a node, behind its host.
fn put_own_lines(alloc: Global, out: &mut Vec<u8>, node: &Node) -> Result<(), AllocError>
    ensures { OnOk result (out.new.items ≡ out.old.items ++ node_lines node.now) }
{
    let word = word_of(alloc, node.host.as_slice())?;
    let mut text = Vec::new(alloc);
    put_lines(&mut text, &node.core)?;
    put_marked(out, &word, &text)
}

/// Puts the accounts of a node, behind its host.
fn put_own_totals(alloc: Global, out: &mut Vec<u8>, node: &Node) -> Result<(), AllocError>
    ensures { OnOk result (out.new.items ≡ out.old.items ++ node_totals node.now) }
{
    let word = word_of(alloc, node.host.as_slice())?;
    let mut text = Vec::new(alloc);
    put_totals(&mut text, &node.core, &node.accounts)?;
    put_marked(out, &word, &text)
}

/// Puts where the lines of each node stand and what they sent, behind its host.
pub fn put_node_lines(alloc: Global, out: &mut Vec<u8>, nodes: &[Node]) -> Result<(), AllocError>
    ensures { OnOk result (out.new.items ≡ out.old.items ++ lines_told nodes.now) }
{
    'nodes: for node in nodes {
        put_own_lines(alloc, out, node)?;
    }
    Ok(())
}

/// Puts what stands on the accounts of each node, behind its host.
pub fn put_node_totals(alloc: Global, out: &mut Vec<u8>, nodes: &[Node]) -> Result<(), AllocError>
    ensures { OnOk result (out.new.items ≡ out.old.items ++ totals_told nodes.now) }
{
    'nodes: for node in nodes {
        put_own_totals(alloc, out, node)?;
    }
    Ok(())
}
