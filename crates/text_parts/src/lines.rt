//! The lines of a text, taken off one after another.
ghost use Rattle.std.specs.Prelude.{◌≡◌, ◌≤◌, ◌∷◌, [], MatchOption};

use crate::pieces::Pieces;
use crate::spelling::{is_more, is_skipped};
use std::alloc::AllocError;

/// A line of a text.
#[derive(Clone, Copy)]
pub struct TextLine<'a> {
    /// Its number, from 1.
    pub number: usize,
    pub octets: &'a [u8],
}

/// Takes off the lines of a text, one after another.
pub struct Lines<'a> {
    pieces: Pieces<'a>,
    /// How many lines were taken off.
    number: usize,
    ghost counted: { number ≤ pieces.from },
}

impl<'a> Clone for Lines<'a> {
    ghost is_clone = { λ own copy. copy ≡ own };

    fn clone(&self) -> Result<Lines<'a>, AllocError> {
        Ok(*self)
    }
}

impl<'a> Copy for Lines<'a> {}

impl<'a> Lines<'a> {
    ghost use Rattle.text_parts.specs.Lines.{lines};
    ghost use Rattle.text_parts.specs.Left.{lines_left, line_of, lines_more};

    /// All lines of a text.
    pub fn new(text: &'a [u8]) -> Lines<'a>
        ensures { lines_left result ≡ lines text.now }
    {
        Lines {
            pieces: Pieces::new(text, b'\n'),
            number: 0,
        }
    }

    /// The next line.
    pub fn next(&mut self) -> Option<TextLine<'a>>
        ensures { MatchOption result (lines_left self.old ≡ []) (λ line. lines_left self.old
            ≡ line_of line ∷ lines_left self.new) }
    {
        let octets = self.pieces.next()?;
        self.number += 1;
        Some(TextLine {
            number: self.number,
            octets,
        })
    }

    /// The next line that isn't skipped, where it continues the row before it; of its bytes no other is looked at.
    pub fn next_more(&mut self) -> Option<TextLine<'a>>
        ensures { MatchOption result (lines_more self.old ≡ []) (λ line. lines_more self.old
            ≡ line_of line ∷ lines_more self.new) }
    {
        while let Some(line) = self.next() {
            if !is_skipped(line.octets) {
                return if is_more(line.octets) {
                    Some(line)
                } else {
                    None
                };
            }
        }
        None
    }
}
