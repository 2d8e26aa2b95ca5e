//! What a connection answers by itself.

ghost use Rattle.std.specs.Prelude.{◌≡◌, ◌≤◌, length, None, IfOk};
ghost use Rattle.std.specs.Option.{option_copied};
ghost use Rattle.dia_tree.specs.Faults.{fault};
ghost use Rattle.line_message.specs.Answers.{session_of, session_in, answer_octets};

use crate::listener::Listener;
use crate::octets::octets_of;
use base_codes::{HEADER_LEN, ResultCode, avp_code};
use base_list::Octets;
use dia_avp::{WriteError, first_in};
use dia_command::header_of;
use dia_tree::MsgFault;
use dia_write::error_answer;
use std::alloc::{AllocError, Global};

/// How many octets a Session-Id has at most.
const MAX_SESSION: usize = 255;

/// A Session-Id, where octets are one.
fn session_of(octets: &[u8]) -> Option<&str>
    ensures { option_copied result ≡ session_of octets.now }
{
    if octets.is_empty() {
        return None;
    }
    if octets.len() > MAX_SESSION {
        return None;
    }
    match str::from_utf8(octets) {
        Ok(session) => Some(session),
        Err(_) => None,
    }
}

/// The session of a message that may be faulty.
fn session_in(octets: &[u8]) -> Option<&str>
    requires { 20 ≤ length octets.now }
    ensures { option_copied result ≡ session_in octets.now }
{
    session_of(first_in(&octets[HEADER_LEN..], avp_code::SESSION_ID)?.octets)
}

impl Listener {
    /// The octets of the answer to a message with such a fault (RFC 6733 section 7.2), none where 24 bits don't hold
    /// its length. Its session is that of the first whole AVP Session-Id, where that has 1 to 255 octets of UTF-8.
    pub(crate) fn answer(
        &self,
        alloc: Global,
        octets: &[u8],
        fault: &MsgFault,
    ) -> Result<Octets, AllocError>
        requires { 20 ≤ length octets.now }
        ensures { IfOk result (λ answer. answer ≡ answer_octets self.now.identity octets.now fault.now) }
    {
        match error_answer(
            alloc,
            &self.identity,
            &header_of(octets),
            session_in(octets),
            fault,
        ) {
            Ok(answer) => octets_of(alloc, &answer),
            Err(WriteError::LengthOver24Bits) => Ok(Octets::new(Vec::new(alloc))),
            Err(WriteError::NoMemory) => Err(AllocError),
        }
    }

    /// The octets of the answer that tells a Result-Code alone.
    pub(crate) fn refusal(
        &self,
        alloc: Global,
        octets: &[u8],
        code: ResultCode,
    ) -> Result<Octets, AllocError>
        requires { 20 ≤ length octets.now }
        ensures { IfOk result (λ answer. answer ≡ answer_octets self.now.identity octets.now (fault code None)) }
    {
        let fault = MsgFault {
            result: code,
            failed: None,
        };
        self.answer(alloc, octets, &fault)
    }
}
