//! A line at a terminal that shows how far a run is.
ghost use Rattle.std.specs.Prelude.{◌≡◌, IfOk};
ghost use Rattle.base_progress.specs.Shown.{progress_text};

use crate::progress::Progress;
use base_text::put_number;
use std::alloc::{AllocError, Global};
use std::io::Write;
use std::time::{Clock, Duration, Instant};

/// How long a text stands at least, in milliseconds.
const PAUSE: u64 = 250;

/// What erases the line: back to its first column, and nothing to its end (ECMA-48: CR, EL).
const ERASE: &[u8] = b"\r\x1b[K";

/// A line at a terminal, written anew four times a second at most, and erased where all is done. What can't be shown
/// isn't.
#[derive(Drop)]
pub struct ProgressLine<'r, R, W> {
    alloc: Global,
    clock: &'r R,
    terminal: W,
    // When it was written last, or first asked for.
    last: Option<Instant>,
    stands: bool,
}

/// What is shown: `1000 of 1000000 lines`, from the first column on.
fn progress_text(alloc: Global, done: usize, total: usize) -> Result<Vec<u8>, AllocError>
    ensures { IfOk result (λ text. text.items ≡ progress_text done total) }
{
    let mut text = Vec::new(alloc);
    put_number(&mut text, b"\r", done as u64)?;
    put_number(&mut text, b" of ", total as u64)?;
    text.extend_from_slice(b" lines")?;
    Ok(text)
}

impl<'r, R: Clock, W: Write> ProgressLine<'r, R, W> {
    /// A line that nothing stands on.
    pub fn new(alloc: Global, clock: &'r R, terminal: W) -> ProgressLine<'r, R, W> {
        ProgressLine {
            alloc,
            clock,
            terminal,
            last: None,
            stands: false,
        }
    }

    /// Whether it may be written again.
    fn is_due(&mut self) -> bool {
        let Ok(now) = Instant::now(self.clock) else {
            return false;
        };
        match self.last {
            Some(last) => {
                if now.saturating_duration_since(last) < Duration::from_millis(PAUSE) {
                    return false;
                }
                self.last = Some(now);
                true
            }
            None => {
                self.last = Some(now);
                false
            }
        }
    }

    /// Erases it, if something stands there.
    pub fn erase(&mut self) {
        if self.stands {
            let _erased = self.terminal.write(ERASE);
            self.stands = false;
        }
    }

    /// Writes how far a run is.
    fn show(&mut self, done: usize, total: usize) {
        if let Ok(text) = progress_text(self.alloc, done, total) {
            let _shown = self.terminal.write(&text);
            self.stands = true;
        }
    }
}

impl<'r, R: Clock, W: Write> Progress for ProgressLine<'r, R, W> {
    fn at(&mut self, done: usize, total: usize) {
        if done >= total {
            self.erase();
        } else if self.is_due() {
            self.show(done, total);
        }
    }
}
