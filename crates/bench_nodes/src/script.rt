//! The lines of a script of several nodes, read and done.
ghost use Rattle.std.specs.Prelude.{◌≡◌, ◌<◌, None, IfErr, IfOk, OnOk, length, map};
ghost use Rattle.std.specs.Option.{ForSome};
ghost use Rattle.std.specs.Str.{bytes_eq};
ghost use Rattle.step_text.specs.Names.{shown};
ghost use Rattle.event_text.specs.Events.{IsBadText};
ghost use Rattle.bench_nodes.specs.Acts.{AreBooksOf, settings_of};
ghost use Rattle.bench_nodes.specs.Scripts.{DoesLine, RunsLines, asked_at, first_bad_node_line, node_line_of};
ghost use Rattle.bench_nodes.specs.Scripts.{node_named, nodes_script_of, own_line};
ghost use Rattle.bench_nodes.specs.Settled.{net};

use crate::acts::do_at;
use crate::marked::word_of;
use crate::node::{Link, Node};
use crate::settled::settle_all;
use event_text::{LinesError, is_skipped};
use script_text::{RunLine, read_run_script};
use std::alloc::{AllocError, Global};
use tab_call::Registry;
use tab_law::LawBook;
use tab_step::Stepped;
use text_parts::{Lines, Words};

/// What a line of a script of several nodes asks for.
#[derive(Drop)]
pub enum NodeLine {
    /// At the node of a place, what a line of a script that is run asks for.
    At(usize, RunLine),
    /// That all nodes carry and handle what waits, and what they send comes at the other ends.
    Settle,
}

/// Whether the host of a node is this word.
fn is_named(alloc: Global, node: &Node, word: &[u8]) -> Result<bool, AllocError>
    ensures { IfOk result (λ named. named ≡ bytes_eq (shown node.now.host) word.now) }
{
    Ok(word_of(alloc, node.host.as_slice())?.as_slice() == word)
}

/// The place of the first node whose host is this word.
fn node_named(alloc: Global, nodes: &[Node], word: &[u8]) -> Result<Option<usize>, AllocError>
    ensures named { IfOk result (λ place. place ≡ node_named nodes.now word.now) }
    ensures within { IfOk result (λ place. ForSome place (λ at. at < length nodes.now)) }
{
    'nodes: for place in 0..nodes.len() {
        if is_named(alloc, &nodes[place], word)? {
            return Ok(Some(place));
        }
    }
    Ok(None)
}

/// What a text asks for as a script of one line. None where it has another form.
#[tactic(auto, unfolding(crate::specs::Scripts::own_line))]
fn own_line(alloc: Global, laws: &LawBook, text: &[u8]) -> Result<Option<RunLine>, AllocError>
    ensures { IfOk result (λ line. line ≡ own_line laws.now text.now) }
{
    match read_run_script(alloc, laws, text) {
        Ok(lines) => {
            let mut left = lines.into_iter();
            Ok(left.next())
        }
        Err(LinesError::BadLine(_)) => Ok(None),
        Err(LinesError::NoMemory) => Err(AllocError),
    }
}

/// What is asked of the node of a place. None where the text has another form.
fn asked_at(
    alloc: Global,
    nodes: &[Node],
    at: usize,
    text: &[u8],
) -> Result<Option<NodeLine>, AllocError>
    ensures { IfOk result (λ asked. asked ≡ asked_at nodes.now at text.now) }
{
    let Some(node) = nodes.get(at) else {
        return Ok(None);
    };
    match own_line(alloc, node.core.laws(), text)? {
        Some(line) => Ok(Some(NodeLine::At(at, line))),
        None => Ok(None),
    }
}

/// What a line asks for. None where it has another form.
#[tactic(auto, unfolding(crate::specs::Scripts::node_line_of))]
fn read_line(alloc: Global, nodes: &[Node], line: &[u8]) -> Result<Option<NodeLine>, AllocError>
    ensures { IfOk result (λ asked. asked ≡ node_line_of nodes.now line.now) }
{
    let mut words = Words::new(line);
    let Some(host) = words.next() else {
        return Ok(None);
    };
    let Some(verb) = words.next() else {
        return Ok(if host.octets == b"settle".as_slice() {
            Some(NodeLine::Settle)
        } else {
            None
        });
    };
    match node_named(alloc, nodes, host.octets)? {
        Some(at) => asked_at(alloc, nodes, at, &line[verb.at.min(line.len())..]),
        None => Ok(None),
    }
}

/// What the lines of a script of several nodes ask for, in order, or the first line that has another form. Lines that
/// are empty or begin with a blank are skipped.
pub fn read_nodes_script(
    alloc: Global,
    nodes: &[Node],
    text: &[u8],
) -> Result<Vec<NodeLine>, LinesError>
    ensures asked { IfOk result (λ asked. asked.items ≡ nodes_script_of nodes.now text.now) }
    ensures sound { OnOk result (first_bad_node_line nodes.now text.now ≡ None) }
    ensures bad { IfErr result (IsBadText (first_bad_node_line nodes.now text.now)) }
{
    let mut asked = Vec::new(alloc);
    let mut left = Lines::new(text);
    'lines: while let Some(line) = left.next() {
        if is_skipped(line.octets) {
            continue;
        }
        match read_line(alloc, nodes, line.octets)? {
            Some(one) => asked.push(one)?,
            None => return Err(LinesError::BadLine(line.number)),
        }
    }
    Ok(asked)
}

/// Does what a line asks for; of a node that isn't there nothing.
fn do_line(
    alloc: Global,
    cut: usize,
    nodes: &mut [Node],
    links: &mut Vec<Link>,
    registries: &[Registry],
    room: &mut Stepped,
    line: NodeLine,
    out: &mut Vec<u8>,
) -> Result<(), AllocError>
    requires { AreBooksOf (map (λ r. r.book) registries.now) (settings_of nodes.old) }
    ensures { OnOk result (DoesLine cut (net nodes.old links.old.items out.old.items) line
        (net nodes.new links.new.items out.new.items)) }
{
    match line {
        NodeLine::At(at, own) => {
            if at < nodes.len() {
                do_at(alloc, nodes, at, registries, room, own, out)
            } else {
                Ok(())
            }
        }
        NodeLine::Settle => settle_all(alloc, cut, nodes, links, registries, room, out),
    }
}

/// Does what the lines of a script of several nodes ask for, in order, and puts what each node prints behind its host.
/// Octets come at the other end of a connection in pieces of at most `cut`. Want of memory ends the run; what was done
/// until then stays.
pub fn run_nodes(
    alloc: Global,
    cut: usize,
    nodes: &mut [Node],
    registries: &[Registry],
    room: &mut Stepped,
    lines: Vec<NodeLine>,
    out: &mut Vec<u8>,
) -> Result<(), AllocError>
    requires { AreBooksOf (map (λ r. r.book) registries.now) (settings_of nodes.old) }
    ensures { OnOk result (RunsLines cut nodes.old out.old.items lines.items nodes.new out.new.items) }
{
    let mut links = Vec::new(alloc);
    let mut left = lines.into_iter();
    'lines: while let Some(line) = left.next() {
        do_line(alloc, cut, nodes, &mut links, registries, room, line, out)?;
    }
    Ok(())
}
