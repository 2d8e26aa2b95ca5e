//! One line for a message.
ghost use Rattle.std.specs.Prelude.{◌≡◌, ◌<◌, ◌^◌, ◌++◌, ℕ, List, IfOk, OnOk, length};
ghost use Rattle.dia_dict.specs.Dictionary.{known};
ghost use Rattle.msg_json.specs.Lines.{IsLine, SaysInJson};

use crate::avps::put_avps;
use crate::faults::put_fault;
use crate::headers::put_header;
use crate::members::{put_null, put_number};
use dia_msg::{MsgError, MsgFault, read_message};
use dia_show::Glossary;
use msg_explain::{Part, parts_of};
use serde::{Described, Serialize, Serializer};
use std::alloc::{AllocError, Global};

/// A message, the `number`th of an input, which begins at `offset` in it, or in this line of it.
#[derive(Clone, Copy)]
struct Message<'a> {
    alloc: Global,
    glossary: &'a Glossary,
    line: Option<u64>,
    number: u64,
    offset: u64,
    octets: &'a [u8],
    parts: &'a [Part<'a>],
    fault: Option<&'a MsgFault>,
}

impl Described for Message<'_> {}

impl Serialize for Message<'_> {
    fn serialize<S: Serializer>(&self, out: &mut S) -> Result<(), S::Error> {
        out.begin_map(None)?;
        put_number(out, "number", self.number)?;
        if let Some(line) = self.line {
            put_number(out, "line", line)?;
        }
        put_number(out, "offset", self.offset)?;
        put_header(out, self.alloc, self.octets)?;
        put_avps(out, self.alloc, self.glossary, self.parts)?;
        match self.fault {
            None => put_null(out, "fault")?,
            Some(fault) => put_fault(out, self.glossary.definitions(), fault, self.parts)?,
        }
        out.end_map()
    }
}

fn put_line(out: &mut Vec<u8>, message: &Message<'_>) -> Result<(), AllocError>
    ensures { OnOk result ((text : List ℕ) × IsLine text × (out.new.items ≡ out.old.items ++ text)) }
{
    let Ok(line) = serde_json::to_vec(*out.allocator(), message) else {
        return Err(AllocError);
    };
    out.extend_from_slice(&line)?;
    out.extend_from_slice(b"\n")
}

fn put_message<'a>(
    out: &mut Vec<u8>,
    glossary: &'a Glossary,
    line: Option<u64>,
    number: u64,
    offset: u64,
    octets: &'a [u8],
    parts: &'a [Part<'a>],
    fault: Option<&'a MsgFault>,
) -> Result<(), AllocError>
    ensures { OnOk result ((text : List ℕ) × IsLine text × (out.new.items ≡ out.old.items ++ text)) }
{
    let message = Message {
        alloc: *out.allocator(),
        glossary,
        line,
        number,
        offset,
        octets,
        parts,
        fault,
    };
    put_line(out, &message)
}

/// Puts what a message says, the `number`th of an input, which begins at `offset` in it or in this line of it, as one
/// object of JSON and the end of its line: its header, its AVPs in the order of the octets, those of a group inside it,
/// and its fault, or null. Says whether it has one.
pub fn put_json(
    out: &mut Vec<u8>,
    glossary: &Glossary,
    line: Option<u64>,
    number: u64,
    offset: u64,
    octets: &[u8],
) -> Result<bool, AllocError>
    requires { length octets.now < 2 ^ 32 }
    ensures { IfOk result (λ refused. (text : List ℕ)
        × SaysInJson (known glossary.now.definitions) octets.now text refused
        × (out.new.items ≡ out.old.items ++ text)) }
{
    let alloc = *out.allocator();
    let dictionary = glossary.definitions();
    let parts = parts_of(alloc, dictionary, octets)?;
    match read_message(alloc, dictionary, octets) {
        Ok(_) => {
            put_message(out, glossary, line, number, offset, octets, &parts, None)?;
            Ok(false)
        }
        Err(MsgError::NoMemory) => Err(AllocError),
        Err(MsgError::Fault(fault)) => {
            put_message(
                out,
                glossary,
                line,
                number,
                offset,
                octets,
                &parts,
                Some(&fault),
            )?;
            Ok(true)
        }
    }
}
