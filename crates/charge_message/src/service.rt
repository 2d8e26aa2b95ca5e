//! Instances of Multiple-Services-Credit-Control (RFC 8506 section 8.16) from the slots of a deed.

ghost use Rattle.std.specs.Prelude.{◌≡◌, ◌≤◌, ◌+◌, ◌++◌, ◌∷◌, [], IfOk, OnOk};
ghost use Rattle.base_codes.specs.declared.slot.TheConstants.{SIZE, MAX_SLOTS};
ghost use Rattle.tab_law.specs.declared.limits.TheConstants.{PLACES};
ghost use Rattle.charge_message.specs.Avps.{number_avp};
ghost use Rattle.charge_message.specs.Services.{rating_avps, final_avps, asked, answered, avps_by, first_of};
ghost use Rattle.charge_message.specs.Services.{is_sent, service, services};

use crate::avp::{final_avp, number_avp, push_units};
use base_codes::{avp_code, session_fact, slot};
use deed_message::made;
use dia_avp::AvpList;
use dia_command::TypedAvps;
use std::alloc::{AllocError, Global};
use tab_law::Deed;

fn push_number(list: &mut AvpList, alloc: Global, code: u32, number: u64) -> Result<(), AllocError>
    ensures { OnOk result (list.new ≡ list.old ++ number_avp code number ∷ []) }
{
    list.push(number_avp(alloc, code, number)?)
}

#[tactic(auto, unfolding(crate::specs::Services::rating_avps))]
fn push_rating(list: &mut AvpList, alloc: Global, group: u64) -> Result<(), AllocError>
    ensures { OnOk result (list.new ≡ list.old ++ rating_avps group) }
{
    if group == 1 {
        return Ok(());
    }
    push_number(list, alloc, avp_code::RATING_GROUP, group.saturating_sub(2))
}

#[tactic(auto, unfolding(crate::specs::Services::final_avps))]
fn push_final(list: &mut AvpList, alloc: Global, last: u64, granted: u64) -> Result<(), AllocError>
    ensures { OnOk result (list.new ≡ list.old ++ final_avps last granted) }
{
    if last != 1 || granted == 0 {
        return Ok(());
    }
    list.push(final_avp(alloc)?)
}

#[tactic(auto, unfolding(crate::specs::Services::asked))]
fn push_asked(
    list: &mut AvpList,
    alloc: Global,
    deed: &Deed,
    first: usize,
) -> Result<(), AllocError>
    requires { first + SIZE ≤ PLACES }
    ensures { OnOk result (list.new ≡ list.old ++ asked deed.now.a first) }
{
    deed.known();
    let unit = deed.a[first + slot::UNIT];
    push_units(
        list,
        alloc,
        avp_code::REQUESTED_SERVICE_UNIT,
        unit,
        deed.a[first + slot::WANT],
    )?;
    push_units(
        list,
        alloc,
        avp_code::USED_SERVICE_UNIT,
        unit,
        deed.a[first + slot::USED],
    )?;
    push_rating(list, alloc, deed.a[first + slot::GROUP])
}

#[tactic(auto, unfolding(crate::specs::Services::answered))]
fn push_answered(
    list: &mut AvpList,
    alloc: Global,
    deed: &Deed,
    first: usize,
) -> Result<(), AllocError>
    requires { first + SIZE ≤ PLACES }
    ensures { OnOk result (list.new ≡ list.old ++ answered deed.now.a first) }
{
    deed.known();
    let granted = deed.a[first + slot::GRANTED];
    let result = deed.a[first + slot::RESULT_CODE];
    push_units(
        list,
        alloc,
        avp_code::GRANTED_SERVICE_UNIT,
        deed.a[first + slot::UNIT],
        granted,
    )?;
    push_rating(list, alloc, deed.a[first + slot::GROUP])?;
    push_number(list, alloc, avp_code::RESULT_CODE, result)?;
    push_final(list, alloc, deed.a[first + slot::FINAL], granted)
}

fn first_of(number: usize) -> usize
    requires slots { number ≤ MAX_SLOTS }
    ensures is { result ≡ first_of number }
    ensures within { result + SIZE ≤ PLACES }
{
    slot::FIRST + number.saturating_sub(1) * slot::SIZE
}

#[tactic(auto, unfolding(crate::specs::Services::is_sent))]
fn is_sent(deed: &Deed, number: usize) -> bool
    requires { number ≤ MAX_SLOTS }
    ensures { result ≡ is_sent deed.now.a number }
{
    deed.known();
    number as u64 <= deed.a[session_fact::SERVICES] && deed.a[first_of(number) + slot::GROUP] != 0
}

fn service_of(
    alloc: Global,
    deed: &Deed,
    first: usize,
    request: bool,
) -> Result<AvpList, AllocError>
    requires { first + SIZE ≤ PLACES }
    ensures { IfOk result (λ list. list ≡ avps_by request deed.now.a first) }
{
    let mut list = AvpList::new(alloc);
    if request {
        push_asked(&mut list, alloc, deed, first)?;
    } else {
        push_answered(&mut list, alloc, deed, first)?;
    }
    Ok(list)
}

#[tactic(auto, unfolding(crate::specs::Services::service))]
fn push_service(
    list: &mut TypedAvps<AvpList>,
    alloc: Global,
    deed: &Deed,
    number: usize,
    request: bool,
) -> Result<(), AllocError>
    requires { number ≤ MAX_SLOTS }
    ensures { OnOk result (list.new ≡ list.old ++ service (avps_by request) deed.now.a number) }
{
    if is_sent(deed, number) {
        list.push(made(service_of(alloc, deed, first_of(number), request)?))?;
    }
    Ok(())
}

/// The instances of a message: in a request, of each slot what is wanted, what was used, and the group;
/// in an answer what is granted, the group, the result, and whether it is the last.
#[tactic(auto, unfolding(crate::specs::Services::services))]
pub(crate) fn services(
    alloc: Global,
    deed: &Deed,
    request: bool,
) -> Result<TypedAvps<AvpList>, AllocError>
    ensures { IfOk result (λ list. list ≡ services (avps_by request) deed.now.a) }
{
    let mut list = TypedAvps::new(alloc);
    push_service(&mut list, alloc, deed, 1, request)?;
    push_service(&mut list, alloc, deed, 2, request)?;
    push_service(&mut list, alloc, deed, 3, request)?;
    push_service(&mut list, alloc, deed, 4, request)?;
    Ok(list)
}
