//! What a message means, as one function of its octets:
//! `dia_msg` says it as a relation, of which there is one answer for all octets.
//!
//! | File of `specs/` | What it has |
//! |---|---|
//! | `Meaning` | `meaning`: the first fault, or the command, field by field |
#![tactic(auto)]

ghost use Rattle.std.specs.Prelude.{◌≡◌, IfOk, OnErr};
ghost use Rattle.dia_dict.specs.Dictionary.{known};
ghost use Rattle.dia_msg.specs.Reading.{MayNeedMemory};
ghost use Rattle.msg_meaning.specs.Meaning.{meaning};

use dia_command::Command;
use dia_dict::Dictionary;
use dia_msg::{MsgError, read_message};
use dia_tree::MsgFault;
use std::alloc::{AllocError, Global};

/// What the octets of one message mean (RFC 6733 sections 3 and 4): a command, or their first fault.
/// Only memory can be wanting.
pub fn meant(
    alloc: Global,
    dictionary: &Dictionary,
    octets: &[u8],
) -> Result<Result<Command, MsgFault>, AllocError>
    ensures answer { IfOk result (λ answer. answer ≡ meaning dictionary.now octets.now) }

    // A fault whose failed AVP has at most 32 octets of data is answered whatever the memory.
    ensures memory { OnErr result (MayNeedMemory (known dictionary.now) octets.now) }
{
    match read_message(alloc, dictionary, octets) {
        Ok(command) => Ok(Ok(command)),
        Err(MsgError::Fault(fault)) => Ok(Err(fault)),
        Err(MsgError::NoMemory) => Err(AllocError),
    }
}
