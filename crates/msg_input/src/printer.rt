//! Who prints messages.
ghost use Rattle.std.specs.Prelude.{◌≡◌, ◌++◌, ℕ, List, Bool, Option, IfOk, OnOk};
ghost use Rattle.msg_input.specs.Ends.{words_of};

use crate::ends::{End, EndWords, Place};
use dia_show::Glossary;
use std::alloc::{AllocError, Global};

/// A printer: what is printed of a message, and of how reading ended.
pub trait Printer: Drop {
    ghost use Rattle.msg_input.specs.declared.ends.End.{End};
    ghost use Rattle.msg_input.specs.declared.ends.Place.{Place};
    ghost use Rattle.dia_show.specs.Glossary.{Meanings};

    /// What is printed of a message, by the glossary, the line in which it stands where each line is read by
    /// itself, its number from 1, the octet of the input or line at which it begins, and its octets: a text, and
    /// whether it tells a fault.
    ghost Says: { Meanings → Option ℕ → ℕ → ℕ → List ℕ → List ℕ → Bool → Type 0 };

    /// What is printed of how reading ended, by how far the input was read then.
    ghost end_text: { End → Place → List ℕ };

    /// What is told of the end of a line that is read by itself, by its number.
    ghost line_text: { ℕ → End → Place → List ℕ };

    /// Ready to print.
    fn new(alloc: Global) -> Result<Self, AllocError>;

    /// Puts what is printed of a message, and says whether it tells a fault.
    fn put(
        &mut self,
        glossary: &Glossary,
        line: Option<u64>,
        out: &mut Vec<u8>,
        number: u64,
        offset: u64,
        octets: &[u8],
    ) -> Result<bool, AllocError>
        ensures { IfOk result (λ refused. (text : List ℕ) × Says glossary.now line number offset octets.now text refused
            × (out.new.items ≡ out.old.items ++ text)) };

    /// What is printed of how reading ended.
    fn end_words(end: End, place: Place) -> EndWords
        ensures { words_of result ≡ end_text end place };

    /// Puts what is told of the end of a line.
    fn put_line_end(
        out: &mut Vec<u8>,
        number: u64,
        end: End,
        place: Place,
    ) -> Result<(), AllocError>
        ensures { OnOk result (out.new.items ≡ out.old.items ++ line_text number end place) };
}
