//! A text taken apart: its pieces between separators, and its words between blanks.
ghost use Rattle.std.specs.Prelude.{◌≡◌, ◌==◌, ◌+◌, ◌^◌, ◌<◌, ◌≤◌, ◌∷◌, [], length, position, MatchOption, IfNone};

use std::alloc::AllocError;

/// Takes off the pieces of a text between separators, one after another.
pub struct Pieces<'a> {
    text: &'a [u8],
    separator: u8,
    /// Where the next piece begins; behind the text's end there is none.
    from: usize,
    ghost within: { from ≤ length text.now + 1 },
}

impl<'a> Clone for Pieces<'a> {
    ghost is_clone = { λ own copy. copy ≡ own };

    fn clone(&self) -> Result<Pieces<'a>, AllocError> {
        Ok(*self)
    }
}

impl<'a> Copy for Pieces<'a> {}

impl<'a> Pieces<'a> {
    ghost use Rattle.text_parts.specs.Pieces.{pieces_in, pieces_left, IsFirstPiece};

    /// All pieces of a text.
    pub fn new(text: &'a [u8], separator: u8) -> Pieces<'a>
        ensures left { pieces_left result ≡ pieces_in separator text.now }
        ensures from { result.from ≡ 0 }
    {
        Pieces {
            text,
            separator,
            from: 0,
        }
    }

    /// The next piece.
    pub fn next(&mut self) -> Option<&'a [u8]>
        ensures piece { MatchOption result (pieces_left self.old ≡ [])
            (λ piece. IsFirstPiece self.old piece.now self.new) }
        ensures none { IfNone result (self.new.from ≡ self.old.from) }
        ensures fits { self.new.from < 2 ^ 64 }
    {
        if self.from > self.text.len() {
            return None;
        }
        let rest = &self.text[self.from..];
        let len = separator_in(rest, self.separator).unwrap_or(rest.len());
        self.from += len + 1;
        Some(&rest[..len])
    }
}

/// Where the first separator stands.
fn separator_in(text: &[u8], separator: u8) -> Option<usize>
    ensures { result ≡ position (λ b. b == separator) text.now }
{
    text.iter().position(|b| *b == separator)
}

/// A word, and the byte at which it begins.
#[derive(Clone, Copy)]
pub struct Found<'a> {
    pub at: usize,
    pub octets: &'a [u8],
}

/// Takes off the words of a line, one after another.
#[derive(Drop)]
pub struct Words<'a> {
    pieces: Pieces<'a>,
}

impl<'a> Words<'a> {
    ghost use Rattle.text_parts.specs.Words.{words};
    ghost use Rattle.text_parts.specs.Pieces.{words_left, word_of};

    /// All words of a line.
    #[tactic(auto, unfolding(crate::specs::Words::words))]
    pub fn new(line: &'a [u8]) -> Words<'a>
        ensures { words_left result ≡ words line.now }
    {
        Words {
            pieces: Pieces::new(line, b' '),
        }
    }

    /// The next word.
    pub fn next(&mut self) -> Option<Found<'a>>
        ensures { MatchOption result (words_left self.old ≡ []) (λ found. words_left self.old
            ≡ word_of found ∷ words_left self.new) }
    {
        loop {
            let at = self.pieces.from;
            let octets = self.pieces.next()?;
            if !octets.is_empty() {
                return Some(Found { at, octets });
            }
        }
    }
}
