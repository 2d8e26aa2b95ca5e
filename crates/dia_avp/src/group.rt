//! The data of a Grouped AVP (RFC 6733 section 4.4).

ghost use Rattle.std.specs.Prelude.{◌≡◌, ◌↔◌, List, [], Some, None, Ok, length, drop, IfOk, IfErr, IsErrOf, slice_get};
ghost use Rattle.std.specs.Option.{option_map};
ghost use Rattle.dia_avp.specs.declared.avp.Avp.{Avp as AvpValue};
ghost use Rattle.dia_avp.specs.declared.fault.FieldFault.{FieldFault as Fault};
ghost use Rattle.dia_avp.specs.View.{seen};
ghost use Rattle.dia_avp.specs.Avps.{Avps, IsReading};
ghost use Rattle.dia_avp.specs.Reading.{avps_in};
ghost use Rattle.dia_avp.specs.Group.{fault_in_group, group_fault};

use crate::avp::{Avp, AvpView};
use crate::avp_list::AvpList;
use crate::fault::{FaultCode, FieldFault, GroupError};
use crate::first::first_avp;
use crate::reading::{count_of, list_of};
use std::alloc::Global;

fn fault_in_group(code: FaultCode) -> FieldFault
    ensures { result ≡ fault_in_group code }
{
    match code {
        FaultCode::ShortHeader | FaultCode::LengthBelowHeader | FaultCode::PastEnd => {
            FieldFault::BadLength
        }
        FaultCode::TooMany | FaultCode::TooDeep => FieldFault::BadValue,
    }
}

/// How many AVPs a group's data is, or why it is none.
fn group_count(octets: &[u8], depth: u8) -> Result<usize, FieldFault>
    ensures whole { IfOk result (λ n. (list : List AvpValue)
        × (length list ≡ n) × IsReading octets.now depth (Ok list)) }
    ensures refused { IfErr result (λ f. group_fault depth octets.now ≡ Some f) }
{
    match count_of(octets, depth) {
        Ok(count) => Ok(count),
        Err(fault) => Err(fault_in_group(fault.code)),
    }
}

/// AVPs where they were read, one after the other in `octets`.
#[derive(Clone, Copy, PartialEq, Eq)]
pub struct AvpsIn<'a> {
    pub octets: &'a [u8],
}

impl<'a> AvpsIn<'a> {
    /// The first AVP, which is then no more among them. Takes no memory.
    pub fn next(&mut self) -> Option<AvpView<'a>>
        ensures { (list : List AvpValue) → Avps self.old.octets.now list
            → (option_map seen result ≡ slice_get list 0) × Avps self.new.octets.now (drop 1 list) }
    {
        match first_avp(self.octets) {
            Ok((avp, after)) => {
                self.octets = after;
                Some(avp)
            }
            Err(_) => None,
        }
    }
}

impl<'a> AvpView<'a> {
    /// The AVPs that the data is (RFC 6733 section 4.4), at most 128 and within at most 4 groups, of
    /// which `depth` counts this AVP and those around it; the last padding may be missing. More AVPs or groups are
    /// `BadValue`, a broken AVP is `BadLength`. The AVPs' own data is not looked at. Takes no memory.
    pub fn as_group(&self, depth: u8) -> Result<AvpsIn<'a>, FieldFault>
        // They are all of the data, and a list that it is read as.
        ensures value { IfOk result (λ g. (g.octets.now ≡ self.now.octets.now)
            × (list : List AvpValue) × IsReading self.now.octets.now depth (Ok list)) }
        ensures whole { IfOk result (λ _. group_fault depth self.now.octets.now ≡ None) }
        ensures refused { IfErr result (λ f. group_fault depth self.now.octets.now ≡ Some f) }
    {
        group_count(self.octets, depth)?;
        Ok(AvpsIn {
            octets: self.octets,
        })
    }
}

/// The AVPs that the AVP's data is (RFC 6733 section 4.4), as `read_avps` reads them within `depth` groups. Over 128
/// AVPs and over 4 groups are `BadValue`, a broken AVP is `BadLength`.
pub fn group_of(alloc: Global, avp: &Avp, depth: u8) -> Result<AvpList, GroupError>
    // The AVPs of the data, of which nothing is left.
    ensures parts { IfOk result (λ list. avps_in avp.now.octets ≡ (list, [])) }
    ensures reading { IfOk result (λ list. IsReading avp.now.octets depth (Ok list)) }
    ensures whole { IfOk result (λ _. group_fault depth avp.now.octets ≡ None) }

    // A fault is answered exactly where there is one, whatever the memory.
    ensures fault { (f : Fault) → IsErrOf result (GroupError.Fault f) ↔ (group_fault depth avp.now.octets ≡ Some f) }
{
    let octets = avp.octets.as_slice();
    let count = group_count(octets, depth)?;
    Ok(list_of(alloc, octets, count)?)
}
