//! What is said of a message.
ghost use Rattle.std.specs.Prelude.{◌≡◌, ◌<◌, ◌^◌, ◌++◌, ℕ, List, OnOk, IfOk, length, map};
ghost use Rattle.dia_dict.specs.Dictionary.{known};
ghost use Rattle.msg_explain.specs.Parts.{seen_part, message_parts};
ghost use Rattle.msg_explain.specs.Explained.{avp_lines, Concludes, Explains};

use crate::faulty::put_fault_line;
use crate::lines::put_parts;
use crate::messages::put_message_line;
use crate::parts::{Part, parts_of};
use dia_dict::Dictionary;
use dia_msg::{MsgError, read_message};
use dia_show::Glossary;
use std::alloc::AllocError;

#[tactic(auto, unfolding(crate::specs::Explained::avp_lines))]
fn put_avps(
    out: &mut Vec<u8>,
    glossary: &Glossary,
    octets: &[u8],
    parts: &[Part<'_>],
) -> Result<(), AllocError>
    requires { map seen_part parts.now ≡ message_parts (known glossary.now.definitions) octets.now }
    ensures { OnOk result (out.new.items
        ≡ out.old.items ++ avp_lines glossary.now.namings (known glossary.now.definitions) octets.now) }
{
    put_parts(out, glossary, parts)
}

// Puts the line of the fault, where the message has one.
fn put_end(
    out: &mut Vec<u8>,
    dictionary: &Dictionary,
    line: Option<u64>,
    number: u64,
    offset: u64,
    octets: &[u8],
    parts: &[Part<'_>],
) -> Result<bool, AllocError>
    requires { map seen_part parts.now ≡ message_parts (known dictionary.now) octets.now }
    ensures { IfOk result (λ refused. (text : List ℕ)
        × Concludes (known dictionary.now) line number offset octets.now text refused
        × (out.new.items ≡ out.old.items ++ text)) }
{
    match read_message(*out.allocator(), dictionary, octets) {
        Ok(_) => Ok(false),
        Err(MsgError::NoMemory) => Err(AllocError),
        Err(MsgError::Fault(fault)) => {
            put_fault_line(out, dictionary, line, number, offset, parts, &fault)?;
            Ok(true)
        }
    }
}

/// Puts what a message says, the `number`th of an input, which begins at `offset` in it, or in this line of it: a line
/// with its header, one for each AVP in the order of the octets, groups opened, and one for its fault, where it has
/// one. Says whether it has one.
pub fn explain(
    out: &mut Vec<u8>,
    glossary: &Glossary,
    line: Option<u64>,
    number: u64,
    offset: u64,
    octets: &[u8],
) -> Result<bool, AllocError>
    requires { length octets.now < 2 ^ 32 }
    ensures { IfOk result (λ refused. (text : List ℕ)
        × Explains glossary.now.namings (known glossary.now.definitions) line number offset octets.now text refused
        × (out.new.items ≡ out.old.items ++ text)) }
{
    let dictionary = glossary.definitions();
    let parts = parts_of(*out.allocator(), dictionary, octets)?;
    put_message_line(out, line, number, offset, octets)?;
    put_avps(out, glossary, octets, &parts)?;
    put_end(out, dictionary, line, number, offset, octets, &parts)
}
