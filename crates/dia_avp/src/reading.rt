//! The AVPs that octets encode.

ghost use Rattle.std.specs.Prelude.{◌≡◌, ◌↔◌, List, Ok, length, IfOk, IfErr, IsErrOf};
ghost use Rattle.dia_avp.specs.declared.avp.Avp.{Avp as AvpValue};
ghost use Rattle.dia_avp.specs.declared.fault.AvpFault.{AvpFault as Fault};
ghost use Rattle.dia_avp.specs.Avps.{Avps, IsFault, IsReading, IsOnlyReading, UnlessNoMemory};

use crate::avp_list::AvpList;
use crate::fault::{AvpFault, FaultCode, ReadError};
use crate::first::first_avp;
use std::alloc::{AllocError, Global};

/// The most AVPs that one list has.
pub const MAX_AVPS: usize = 128;

/// The most levels of groups.
pub const MAX_DEPTH: u8 = 4;

/// How many AVPs the octets encode, or the first fault.
pub(crate) fn count_of(octets: &[u8], depth: u8) -> Result<usize, AvpFault>
    ensures whole { IfOk result (λ n. (list : List AvpValue)
        × (length list ≡ n) × IsReading octets.now depth (Ok list)) }
    ensures fault { IfErr result (IsFault octets.now depth) }
{
    if depth > MAX_DEPTH {
        return Err(AvpFault {
            at: 0,
            code: FaultCode::TooDeep,
        });
    }
    let mut count = 0;
    let mut rest = octets;
    while !rest.is_empty() {
        let at = octets.len() - rest.len();
        if count == MAX_AVPS {
            return Err(AvpFault {
                at,
                code: FaultCode::TooMany,
            });
        }
        match first_avp(rest) {
            Ok((_, after)) => {
                count += 1;
                rest = after;
            }
            Err(code) => return Err(AvpFault { at, code }),
        }
    }
    Ok(count)
}

/// The AVPs of octets that have no fault; `count` is how many there are.
pub(crate) fn list_of(alloc: Global, octets: &[u8], count: usize) -> Result<AvpList, AllocError>
    requires { (list : List AvpValue) × Avps octets.now list }
    ensures { IfOk result (Avps octets.now) }
{
    let mut list = AvpList::with_capacity(alloc, count)?;
    let mut rest = octets;
    while let Ok((avp, after)) = first_avp(rest) {
        list.push(avp.to_avp(alloc)?)?;
        rest = after;
    }
    Ok(list)
}

/// The AVPs that the octets encode (RFC 6733 section 4.1), or the first fault. `depth` counts the groups around the
/// octets. Reserved flags and padding are not looked at, and the last padding may be missing, wholly or in part.
pub fn read_avps(alloc: Global, octets: &[u8], depth: u8) -> Result<AvpList, ReadError>
    // The list is what the octets encode, and a fault is the first.
    ensures reading { UnlessNoMemory result (IsReading octets.now depth) }

    // No other list and no other fault is.
    ensures only { UnlessNoMemory result (IsOnlyReading octets.now depth) }

    // A fault is answered whatever the memory.
    ensures fault { (f : Fault) → IsErrOf result (ReadError.Fault f) ↔ IsFault octets.now depth f }
{
    let count = count_of(octets, depth)?;
    Ok(list_of(alloc, octets, count)?)
}
