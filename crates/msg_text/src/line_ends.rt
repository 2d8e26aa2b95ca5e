//! What is told of the end of a line.
ghost use Rattle.std.specs.Prelude.{◌≡◌, ◌++◌, OnOk};
ghost use Rattle.msg_input.specs.Ends.{place_text, words_of};
ghost use Rattle.msg_text.specs.Styles.{line_end};

use base_text::put_number;
use msg_input::{End, EndWords};
use std::alloc::AllocError;

fn put_place(out: &mut Vec<u8>, place: Option<u64>) -> Result<(), AllocError>
    ensures { OnOk result (out.new.items ≡ out.old.items ++ place_text place) }
{
    match place {
        None => Ok(()),
        Some(place) => put_number(out, b"", place),
    }
}

/// Puts the words of an end.
pub(crate) fn put_words(out: &mut Vec<u8>, words: &EndWords) -> Result<(), AllocError>
    ensures { OnOk result (out.new.items ≡ out.old.items ++ words_of words.now) }
{
    out.extend_from_slice(words.before)?;
    put_place(out, words.place)?;
    out.extend_from_slice(words.after)
}

/// Puts what is told of the end of a line, by its number and what the end prints by itself.
pub(crate) fn put_line_words(
    out: &mut Vec<u8>,
    number: u64,
    end: End,
    words: &EndWords,
) -> Result<(), AllocError>
    ensures { OnOk result (out.new.items ≡ out.old.items ++ line_end number end (words_of words.now)) }
{
    match end {
        End::Refused(_) => {
            put_number(out, b"line ", number)?;
            out.extend_from_slice(b": ")?;
            put_words(out, words)
        }
        End::Whole | End::ReadFailed | End::TooManyReads => Ok(()),
    }
}
