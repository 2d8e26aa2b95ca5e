//! Messages as objects of JSON, a line each, and where reading stopped as one more.
ghost use Rattle.std.specs.Prelude.{◌≡◌, ◌++◌, OnOk, drop};
ghost use Rattle.msg_input.specs.Ends.{words_of};
ghost use Rattle.msg_text.specs.Styles.{IsJson, json_end, json_fault, json_line, json_line_end};

use crate::line_ends::put_words;
use base_text::put_number;
use dia_frame::FrameFault;
use dia_show::Glossary;
use msg_input::{End, EndWords, Place, Printer, Refusal, placed, unplaced};
use msg_json::put_json;
use std::alloc::{AllocError, Global};

/// Prints what a message says, as an object of JSON.
#[derive(Drop)]
pub struct Json {}

// The object of a frame fault at this octet.
fn json_fault(fault: FrameFault, octet: u64) -> EndWords
    ensures { words_of result ≡ json_fault fault octet }
{
    match fault {
        FrameFault::Version => placed(
            b"{\"stop\":\"frame fault 1\",\"octet\":",
            octet,
            b",\"reason\":\"no message begins here, its first octet would be version 1\"}\n",
        ),
        FrameFault::Length => placed(
            b"{\"stop\":\"frame fault 2\",\"octet\":",
            octet,
            b",\"reason\":\"the length in this header is below 20, no multiple of 4 or over 4096\"}\n",
        ),
        FrameFault::Broken => placed(
            b"{\"stop\":\"frame fault 3\",\"octet\":",
            octet,
            b",\"reason\":\"a frame fault came before\"}\n",
        ),
    }
}

// Puts what the end prints by itself, without its first character.
fn put_tail(out: &mut Vec<u8>, words: &EndWords) -> Result<(), AllocError>
    ensures { OnOk result (out.new.items ≡ out.old.items ++ drop 1 (words_of words.now)) }
{
    let mut text = Vec::new(*out.allocator());
    put_words(&mut text, words)?;
    match text.as_slice() {
        [] => Ok(()),
        [_, tail @ ..] => out.extend_from_slice(tail),
    }
}

// Puts the object of a line's end: the number of the line, and then what the end's own object has.
fn put_json_line(
    out: &mut Vec<u8>,
    number: u64,
    end: End,
    words: &EndWords,
) -> Result<(), AllocError>
    ensures { OnOk result (out.new.items ≡ out.old.items ++ json_line_end number end (words_of words.now)) }
{
    match end {
        End::Refused(_) => {
            put_number(out, b"{\"line\":", number)?;
            out.extend_from_slice(b",")?;
            put_tail(out, words)
        }
        End::Whole | End::ReadFailed | End::TooManyReads => Ok(()),
    }
}

impl Printer for Json {
    ghost Says = { IsJson };

    ghost end_text = { json_end };

    ghost line_text = { json_line };

    fn new(_alloc: Global) -> Result<Json, AllocError> {
        Ok(Json {})
    }

    fn put(
        &mut self,
        glossary: &Glossary,
        line: Option<u64>,
        out: &mut Vec<u8>,
        number: u64,
        offset: u64,
        octets: &[u8],
    ) -> Result<bool, AllocError> {
        if octets.len() > u32::MAX as usize {
            out.extend_from_slice(b"{\"stop\":\"too long\"}\n")?;
            return Ok(true);
        }
        put_json(out, glossary, line, number, offset, octets)
    }

    fn end_words(end: End, place: Place) -> EndWords {
        match end {
            End::Whole => unplaced(b""),
            End::Refused(Refusal::BadHex) => placed(
                b"{\"stop\":\"bad hex\",\"character\":",
                place.characters,
                b",\"reason\":\"each octet wants two hexadecimal digits, and between digits only blanks may stand\"}\n",
            ),
            End::Refused(Refusal::Frame(fault)) => json_fault(fault, place.octets),
            End::Refused(Refusal::NoMemory) => unplaced(b"{\"stop\":\"no memory\"}\n"),
            End::ReadFailed => unplaced(
                b"{\"stop\":\"read fault\",\"reason\":\"a read failed\"}\n",
            ),
            End::TooManyReads => unplaced(
                b"{\"stop\":\"read fault\",\"reason\":\"no end of input after 1048576 reads\"}\n",
            ),
        }
    }

    fn put_line_end(
        out: &mut Vec<u8>,
        number: u64,
        end: End,
        place: Place,
    ) -> Result<(), AllocError> {
        put_json_line(out, number, end, &Json::end_words(end, place))
    }
}
