//! The first fault of octets that are AVPs, and where they lie.

ghost use Rattle.std.specs.Prelude.{◌≡◌, ◌<◌, ℕ, [], Some, None, List, length, map, slice_get, IfOk, OnErr};
ghost use Rattle.std.specs.Option.{option_map};
ghost use Rattle.dia_avp.specs.View.{seen};
ghost use Rattle.dia_avp.specs.declared.avp.Avp.{Avp};
ghost use Rattle.dia_avp.specs.Avps.{Avps, AvpsThen};
ghost use Rattle.dia_avp.specs.Reading.{avps_in};
ghost use Rattle.dia_dict.specs.Dictionary.{known};
ghost use Rattle.dia_dict.specs.Kind.{least_size, data_fault as fault_of_data};
ghost use Rattle.dia_tree.specs.declared.fault.MsgFault.{MsgFault as Fault};
ghost use Rattle.dia_tree.specs.View.{seen_fault, is_event};
ghost use Rattle.dia_tree.specs.Faults.{fault, is_bad_value as has_bad_value, unknown_faults, own_faults, data_faults};
ghost use Rattle.dia_tree.specs.Faults.{avp_faults, group_faults, HasMessageFaults};

use crate::cut::number_at;
use crate::event::Event;
use crate::fault::FaultView;
use crate::kind::is_group;
use crate::zeros::{broken_fault, zeros};
use base_codes::{ResultCode, avp_code};
use base_list::FixedList;
use dia_avp::{AvpView, FieldFault, MAX_AVPS, first_avp};
use dia_dict::{AvpKind, Dictionary};

/// An AVP after 128 in its list, or a group within 4.
const TOO_MUCH: FaultView<'static> = FaultView {
    result: ResultCode::UnableToComply,
    failed: None,
};

/// How many levels of AVPs there are: the message's, and four levels of groups below.
const LEVELS: u8 = 5;

// Whether the value of an AVP without vendor is none that credit control knows.
fn is_bad_value(event: &Event<'_>, code: u32, octets: &[u8]) -> bool
    ensures { result ≡ has_bad_value (is_event event.now) code octets.now }
{
    match code {
        avp_code::SESSION_ID => octets.is_empty() || octets.len() > 255,
        avp_code::CC_REQUEST_TYPE => number_at(octets, 0) == 0 || number_at(octets, 0) > 4,
        avp_code::REQUESTED_ACTION => number_at(octets, 0) > 3 && event.is_event(),
        _ => false,
    }
}

fn own_fault<'a>(event: &Event<'_>, avp: &AvpView<'a>) -> Option<FaultView<'a>>
    ensures { option_map seen_fault result ≡ slice_get (own_faults (is_event event.now) (seen avp.now)) 0 }
{
    if avp.vendor.is_none() && is_bad_value(event, avp.code, avp.octets) {
        return Some(FaultView::of(ResultCode::InvalidAvpValue, avp));
    }
    None
}

// What is wrong with the data of an AVP by its type, and then by its value.
fn data_fault<'a>(kind: AvpKind, event: &Event<'_>, avp: &AvpView<'a>) -> Option<FaultView<'a>>
    ensures { let a = seen avp.now in
        option_map seen_fault result
        ≡ slice_get (data_faults (fault_of_data kind a.octets) (least_size kind) (is_event event.now) a) 0 }
{
    match kind.typed(avp) {
        Ok(_) => own_fault(event, avp),
        Err(FieldFault::BadValue) => Some(FaultView::of(ResultCode::InvalidAvpValue, avp)),
        Err(FieldFault::BadLength) => Some(FaultView::of(
            ResultCode::InvalidAvpLength,
            &zeros(kind.least_size(), avp),
        )),
    }
}

fn unknown_fault<'a>(avp: &AvpView<'a>) -> Option<FaultView<'a>>
    ensures { option_map seen_fault result ≡ slice_get (unknown_faults (seen avp.now)) 0 }
{
    if !avp.mandatory {
        return None;
    }
    Some(FaultView::of(ResultCode::AvpUnsupported, avp))
}

// The first fault of an AVP with so many levels open to what it holds.
#[cycle(fault)]
fn avp_fault<'a>(
    dictionary: &Dictionary,
    event: &Event<'_>,
    room: u8,
    avp: &AvpView<'a>,
) -> Option<FaultView<'a>>
    ensures { let d = known dictionary.now in
        option_map seen_fault result
        ≡ slice_get (avp_faults (group_faults d (is_event event.now) room) d (is_event event.now) (seen avp.now)) 0 }
{
    match dictionary.find(avp.code, avp.vendor) {
        None => unknown_fault(avp),
        Some(definition) if is_group(definition.kind) => {
            fault_in(dictionary, event, room, avp.octets)
        }
        Some(definition) => data_fault(definition.kind, event, avp),
    }
}

// The first fault of octets with so many levels open to them.
#[cycle(fault)]
fn fault_in<'a>(
    dictionary: &Dictionary,
    event: &Event<'_>,
    room: u8,
    octets: &'a [u8],
) -> Option<FaultView<'a>>
    ensures { option_map seen_fault result
        ≡ slice_get (group_faults (known dictionary.now) (is_event event.now) room octets.now) 0 }
{
    if room == 0 {
        return Some(TOO_MUCH);
    }
    let mut count = 0;
    let mut rest = octets;
    while !rest.is_empty() {
        let Ok((avp, after)) = first_avp(rest) else {
            return Some(broken_fault(dictionary, rest));
        };
        if count == MAX_AVPS {
            return Some(TOO_MUCH);
        }
        let first = avp_fault(dictionary, event, room - 1, &avp);
        if first.is_some() {
            return first;
        }
        count += 1;
        rest = after;
    }
    None
}

/// Why a survey ended early: there are more AVPs than the list has room for.
#[derive(Clone, Copy)]
pub struct NoRoom;

// The first fault of a message's octets, and without one its AVPs, where there is room for them.
fn listed<'a, const N: usize>(
    dictionary: &Dictionary,
    event: &Event<'_>,
    octets: &'a [u8],
    avps: &mut FixedList<AvpView<'a>, N>,
) -> Result<Option<FaultView<'a>>, NoRoom>
    requires { avps.old ≡ [] }
    ensures fault { IfOk result (λ found. option_map seen_fault found
        ≡ slice_get (group_faults (known dictionary.now) (is_event event.now) 5 octets.now) 0) }
    ensures avps { IfOk result (λ found. found ≡ None → avps_in octets.now ≡ (map seen avps.new, [])) }
    ensures room { OnErr result ((N < 128) × (N < length (avps_in octets.now).0)) }
{
    let mut left = octets;
    while !left.is_empty() {
        let Ok((avp, after)) = first_avp(left) else {
            return Ok(Some(broken_fault(dictionary, left)));
        };
        if avps.len() == MAX_AVPS {
            return Ok(Some(TOO_MUCH));
        }
        if avps.len() == N {
            return Err(NoRoom);
        }
        let found = avp_fault(dictionary, event, LEVELS - 1, &avp);
        if found.is_some() {
            return Ok(found);
        }
        avps.push(avp);
        left = after;
    }
    Ok(None)
}

/// The first fault of the AVPs of a message, in order of place, those inside a group before the next AVP's (RFC 6733
/// section 7.1.5). Where there is none, `avps`, which comes empty, has each of them where it lies; else it has some of
/// them. `NoRoom` where more AVPs than `N`, of at most 128, were to be listed. `credit` says whether the message is a
/// Credit-Control-Request: only in one whose first CC-Request-Type is EVENT_REQUEST is Requested-Action looked at (RFC
/// 8506 section 8.41). Takes no memory.
pub fn survey<'a, const N: usize>(
    dictionary: &Dictionary,
    credit: bool,
    octets: &'a [u8],
    avps: &mut FixedList<AvpView<'a>, N>,
) -> Result<Option<FaultView<'a>>, NoRoom>
    requires { avps.old ≡ [] }
    ensures fault { IfOk result (λ found. (faults : List Fault)
        × HasMessageFaults (known dictionary.now) credit octets.now faults
        × (option_map seen_fault found ≡ slice_get faults 0)) }
    ensures avps { IfOk result (λ found. found ≡ None → Avps octets.now (map seen avps.new)) }
    ensures room { OnErr result ((N < 128)
        × (list : List Avp) × (rest : List ℕ) × AvpsThen octets.now list rest × (N < length list)) }
{
    listed(dictionary, &Event { credit, octets }, octets, avps)
}
