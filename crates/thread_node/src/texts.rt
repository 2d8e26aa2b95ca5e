//! What connections sent, as far as it was drawn: texts, from connection 1 on.
#![tactic(auto, using(crate::proofs::TextLemmas::growing))]

ghost use Rattle.std.specs.Prelude.{◌≡◌, ◌≤◌, ◌<◌, ◌+◌, ◌^◌, [], IfOk, Some, length, map};
ghost use Rattle.std.specs.Option.{option_map_or};
ghost use Rattle.bench_net.specs.Texts.{Copies};
ghost use Rattle.thread_node.specs.Nodes.{AllGrow, drawn_in, text_at};

use std::alloc::{AllocError, Global};

/// Makes empty texts until there are so many.
pub(crate) fn reach(alloc: Global, texts: &mut Vec<Vec<u8>>, count: usize) -> Result<(), AllocError>
    ensures grow { AllGrow (map (λ text. text.items) texts.old.items) (map (λ text. text.items) texts.new.items) }
    ensures same { drawn_in (map (λ text. text.items) texts.new.items)
        ≡ drawn_in (map (λ text. text.items) texts.old.items) }
{
    let missing = count.saturating_sub(texts.len());
    'missing: for _ in 0..missing {
        texts.push(Vec::new(alloc))?;
    }
    Ok(())
}

/// The text of a connection, if it was reached.
fn text_of(texts: &[Vec<u8>], line: u64) -> Option<&Vec<u8>>
    ensures { option_map_or (λ text. text.now.items) result [] ≡ text_at (map (λ text. text.items) texts.now) line }
{
    if line == 0 {
        return None;
    }
    texts.get((line - 1) as usize)
}

/// Puts octets behind the text of a connection, if it was reached. Says how many were put there.
pub(crate) fn put_behind(
    texts: &mut Vec<Vec<u8>>,
    line: u64,
    octets: &[u8],
) -> Result<usize, AllocError>
    ensures grow { AllGrow (map (λ text. text.items) texts.old.items) (map (λ text. text.items) texts.new.items) }
    ensures more { IfOk result (λ count. drawn_in (map (λ text. text.items) texts.new.items)
        ≡ drawn_in (map (λ text. text.items) texts.old.items) + count) }
{
    if line == 0 {
        return Ok(0);
    }
    match texts.get_mut((line - 1) as usize) {
        None => Ok(0),
        Some(text) => {
            text.extend_from_slice(octets)?;
            Ok(octets.len())
        }
    }
}

/// How long the text of a connection is.
pub(crate) fn length_of(texts: &[Vec<u8>], line: u64) -> usize
    ensures { result ≡ length (text_at (map (λ text. text.items) texts.now) line) }
{
    match text_of(texts, line) {
        None => 0,
        Some(text) => text.len(),
    }
}

/// Copies the text of a connection from a place on, as much as there is and fits, to the front of `buffer`, and says
/// how much that is.
pub(crate) fn copy_from(texts: &[Vec<u8>], line: u64, from: usize, buffer: &mut [u8]) -> usize
    ensures within { result ≤ length buffer.new }
    ensures fits { from + result < 2 ^ 64 }
    ensures copies { Copies (Some (text_at (map (λ text. text.items) texts.now) line)) from buffer.new result }
{
    let Some(text) = text_of(texts, line) else {
        return 0;
    };
    if from >= text.len() {
        return 0;
    }
    let count = (text.len() - from).min(buffer.len());
    buffer[..count].copy_from_slice(&text[from..from + count]);
    count
}
