//! A fault of a message.

ghost use Rattle.std.specs.Prelude.{◌≡◌, Some, IfOk, OnErr};
ghost use Rattle.dia_avp.specs.View.{seen};
ghost use Rattle.dia_tree.specs.View.{seen_fault, HasLongData};
ghost use Rattle.dia_tree.specs.Faults.{fault};

use base_codes::ResultCode;
use dia_avp::{Avp, AvpView};
use std::alloc::{AllocError, Global};
use thiserror::Error;

/// A message's first fault. `failed` is what Failed-AVP is to hold (RFC 6733 section 7.5): for an unknown AVP or a bad
/// value the AVP as read; for a bad length its header with zeros of the least size of its type; for a missing one
/// likewise, with flag M.
#[derive(Debug, Error)]
#[error("{result}")]
pub struct MsgFault {
    pub result: ResultCode,
    pub failed: Option<Avp>,
}

// A derived `drop` is proved anew in each crate that holds a fault; this one is a call.
impl Drop for MsgFault {
    fn drop(self) {
        let MsgFault { result: _, failed } = self;
    }
}

/// A fault whose failed AVP lies where it was read. Takes no memory.
#[derive(Clone, Copy)]
pub struct FaultView<'a> {
    pub result: ResultCode,
    pub failed: Option<AvpView<'a>>,
}

impl<'a> FaultView<'a> {
    /// A fault with its failed AVP.
    pub(crate) fn of(code: ResultCode, avp: &AvpView<'a>) -> FaultView<'a>
        ensures { seen_fault result ≡ fault code (Some (seen avp.now)) }
    {
        FaultView {
            result: code,
            failed: Some(*avp),
        }
    }

    /// The fault with a copy of its failed AVP.
    pub fn to_fault(&self, alloc: Global) -> Result<MsgFault, AllocError>
        ensures fault { IfOk result (λ f. f ≡ seen_fault self.now) }

        // No memory is needed where there is no failed AVP, or one of at most 32 octets of data.
        ensures memory { OnErr result (HasLongData (seen_fault self.now).failed) }
    {
        let failed = match &self.failed {
            None => None,
            Some(avp) => Some(avp.to_avp(alloc)?),
        };
        Ok(MsgFault {
            result: self.result,
            failed,
        })
    }
}
