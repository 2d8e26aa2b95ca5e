//! What a node prints, each of its lines behind its host.
ghost use Rattle.std.specs.Prelude.{◌≡◌, ◌++◌, IfOk, OnOk};
ghost use Rattle.step_text.specs.Names.{shown, shown_octet};
ghost use Rattle.bench_nodes.specs.Marked.{front_of, is_detail, marked, marked_line};

use base_text::put_hex;
use std::alloc::{AllocError, Global};
use step_text::is_plain;
use text_parts::Pieces;

/// Puts an octet of a host, `%` and two digits where it doesn't stand for itself.
fn put_octet(out: &mut Vec<u8>, octet: u8) -> Result<(), AllocError>
    ensures { OnOk result (out.new.items ≡ out.old.items ++ shown_octet octet) }
{
    if is_plain(octet) {
        return out.extend_from_slice(&[octet]);
    }
    out.extend_from_slice(b"%")?;
    put_hex(out, &[octet])
}

/// A host as a word.
pub(crate) fn word_of(alloc: Global, host: &[u8]) -> Result<Vec<u8>, AllocError>
    ensures { IfOk result (λ word. word.items ≡ shown host.now) }
{
    let mut out = Vec::new(alloc);
    for octet in host {
        put_octet(&mut out, *octet)?;
    }
    Ok(out)
}

/// Whether a line tells what belongs to the one before it, or is empty.
fn is_detail(line: &[u8]) -> bool
    ensures { result ≡ is_detail line.now }
{
    match line {
        [first, ..] => *first == b' ',
        [] => true,
    }
}

/// Puts the word before a line, where it is no detail.
fn put_front(out: &mut Vec<u8>, word: &[u8], line: &[u8]) -> Result<(), AllocError>
    ensures { OnOk result (out.new.items ≡ out.old.items ++ front_of word.now line.now) }
{
    if is_detail(line) {
        return Ok(());
    }
    out.extend_from_slice(word)?;
    out.extend_from_slice(b" ")
}

/// Puts a line, behind the word where it is no detail; of an empty one nothing.
fn put_line(out: &mut Vec<u8>, word: &[u8], line: &[u8]) -> Result<(), AllocError>
    ensures { OnOk result (out.new.items ≡ out.old.items ++ marked_line word.now line.now) }
{
    if line.is_empty() {
        return Ok(());
    }
    put_front(out, word, line)?;
    out.extend_from_slice(line)?;
    out.extend_from_slice(b"\n")
}

/// Puts the lines of a text, each behind the word, but those that begin with a blank.
pub(crate) fn put_marked(out: &mut Vec<u8>, word: &[u8], text: &[u8]) -> Result<(), AllocError>
    ensures { OnOk result (out.new.items ≡ out.old.items ++ marked word.now text.now) }
{
    let mut lines = Pieces::new(text, b'\n');
    'lines: while let Some(line) = lines.next() {
        put_line(out, word, line)?;
    }
    Ok(())
}
