//! Messages in names, and where reading stopped.
ghost use Rattle.std.specs.Prelude.{◌≡◌};
ghost use Rattle.msg_input.specs.Ends.{words_of};
ghost use Rattle.msg_text.specs.Styles.{IsExplained, explained_end, explained_line, frame_words};

use crate::line_ends::put_line_words;
use dia_frame::FrameFault;
use dia_show::Glossary;
use msg_explain::explain;
use msg_input::{End, EndWords, Place, Printer, Refusal, placed, unplaced};
use std::alloc::{AllocError, Global};

/// Prints what a message says, in names.
#[derive(Drop)]
pub struct Explaining {}

// What is told of a frame fault at this octet.
fn frame_words(fault: FrameFault, octet: u64) -> EndWords
    ensures { words_of result ≡ frame_words fault octet }
{
    match fault {
        FrameFault::Version => placed(
            b"frame fault 1 at octet ",
            octet,
            b": no message begins here, its first octet would be version 1\n",
        ),
        FrameFault::Length => placed(
            b"frame fault 2 at octet ",
            octet,
            b": the length in this header is below 20, no multiple of 4 or over 4096\n",
        ),
        FrameFault::Broken => placed(
            b"frame fault 3 at octet ",
            octet,
            b": a frame fault came before\n",
        ),
    }
}

impl Printer for Explaining {
    ghost Says = { IsExplained };

    ghost end_text = { explained_end };

    ghost line_text = { explained_line };

    fn new(_alloc: Global) -> Result<Explaining, AllocError> {
        Ok(Explaining {})
    }

    fn put(
        &mut self,
        glossary: &Glossary,
        line: Option<u64>,
        out: &mut Vec<u8>,
        number: u64,
        offset: u64,
        octets: &[u8],
    ) -> Result<bool, AllocError> {
        if octets.len() > u32::MAX as usize {
            out.extend_from_slice(b"too long\n")?;
            return Ok(true);
        }
        explain(out, glossary, line, number, offset, octets)
    }

    fn end_words(end: End, place: Place) -> EndWords {
        match end {
            End::Refused(Refusal::BadHex) => placed(
                b"bad hex at character ",
                place.characters,
                b": each octet wants two hexadecimal digits, and between digits only blanks may stand\n",
            ),
            End::Refused(Refusal::Frame(fault)) => frame_words(fault, place.octets),
            other => unplaced(other.text()),
        }
    }

    fn put_line_end(
        out: &mut Vec<u8>,
        number: u64,
        end: End,
        place: Place,
    ) -> Result<(), AllocError> {
        put_line_words(out, number, end, &Explaining::end_words(end, place))
    }
}
