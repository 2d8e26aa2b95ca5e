//! An input whose empty lines are commands once more.
ghost use Rattle.std.specs.Prelude.{◌≡◌, ◌≤◌, length, take};
ghost use Rattle.base_prompt.specs.Again.{is_meant, known_without};

use crate::again::{Again, after};
use std::io;
use std::io::{Read, Write};

/// What is shown before each line.
const PROMPT: &[u8] = b"(debug) ";

/// An input. At a terminal a prompt is shown before each read, and an empty line is the last of the commands `step`,
/// `back`, `go` and `rgo` once more. A terminal gives a line at a time.
#[derive(Drop)]
pub struct Prompted<R, W> {
    input: R,
    // Where the prompt is shown; none where the input is no terminal.
    prompts: Option<W>,
    last: Option<Again>,
}

/// Puts what a line means into the front of a buffer, whose front it is, and says how many octets that are.
fn put_meant(last: Option<Again>, buffer: &mut [u8], count: usize) -> usize
    requires { count ≤ length buffer.old }
    ensures within { result ≤ length buffer.new }
    ensures meant { is_meant last (take count buffer.old) (length buffer.old) (take result buffer.new) }
{
    let Some(again) = last else {
        return count;
    };
    let line = again.line();
    if &buffer[..count] != b"\n".as_slice() || buffer.len() < line.len() {
        return count;
    }
    buffer[..line.len()].copy_from_slice(line);
    line.len()
}

/// Shows the prompt. Where that can't be done, it isn't.
fn show<W: Write>(prompts: &mut W, text: &[u8]) {
    let _shown = prompts.write(text);
}

impl<R: Read, W: Write> Prompted<R, W> {
    /// An input, with a prompt or without.
    pub fn new(input: R, prompts: Option<W>) -> Prompted<R, W>
        ensures { result ≡ record { input = input; prompts = prompts; last = None } }
    {
        Prompted {
            input,
            prompts,
            last: None,
        }
    }
}

impl<R: Read, W: Write> Read for Prompted<R, W> {
    ghost remaining = { λ p. known_without p.prompts (R.remaining p.input) };

    fn read(&mut self, buffer: &mut [u8]) -> io::Result<usize> {
        let Some(prompts) = &mut self.prompts else {
            return self.input.read(buffer);
        };
        show(prompts, PROMPT);
        let count = self.input.read(buffer)?;
        if count == 0 {
            show(prompts, b"\n");
        }
        self.last = after(self.last, &buffer[..count]);
        Ok(put_meant(self.last, buffer, count))
    }
}
