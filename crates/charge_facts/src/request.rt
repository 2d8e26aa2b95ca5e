//! From a Credit-Control-Request to facts (RFC 8506 section 3.1).

ghost use Rattle.std.specs.Prelude.{◌≡◌, ◌+◌};
ghost use Rattle.std.specs.Option.{option_map_or};
ghost use Rattle.dia_command.specs.Value.{action_number};
ghost use Rattle.charge_facts.specs.Amounts.{amount};
ghost use Rattle.charge_facts.specs.Requests.{used_by, want_by, units_by, service_units, request_slot, slot_at};
ghost use Rattle.charge_facts.specs.Requests.{request_units, facts_of_request};
ghost use Rattle.charge_facts.specs.Places.{places_of};

use crate::account::account_of;
use crate::amount::{Amount, told, told_by, total, total_by};
use crate::facts::{Facts, Slot, Units, group_number};
use base_codes::avp_code;
use dia_avp::{AvpList, first_number_of};
use dia_command::{CreditControlRequest, RequestType, RequestedAction, TypedAvp};
use tab_law::PLACES;

/// What a Requested-Service-Unit without an amount asks for.
fn default_of(default_units: u64) -> Amount
    ensures { result ≡ amount 2 default_units }
{
    Amount::new(2, default_units)
}

fn used_by(request_type: RequestType, used: u64) -> u64
    ensures { result ≡ used_by request_type used }
{
    match request_type {
        RequestType::Update | RequestType::Termination => used,
        RequestType::Initial | RequestType::Event => 0,
    }
}

fn want_by(request_type: RequestType, want: u64) -> u64
    ensures { result ≡ want_by request_type want }
{
    match request_type {
        RequestType::Termination => 0,
        _ => want,
    }
}

fn units_by(request_type: RequestType, wanted: Amount, used: u64) -> Units
    ensures { result ≡ units_by request_type wanted used }
{
    Units {
        used: used_by(request_type, used),
        want: want_by(request_type, wanted.units),
        unit: wanted.unit,
    }
}

fn service_units(request_type: RequestType, default_units: u64, service: &AvpList) -> Units
    ensures { result ≡ service_units request_type default_units service.now }
{
    let wanted = told_by(
        service,
        avp_code::REQUESTED_SERVICE_UNIT,
        default_of(default_units),
    );
    let used = total_by(service, avp_code::USED_SERVICE_UNIT);
    units_by(request_type, wanted, used)
}

fn slot_of(request_type: RequestType, default_units: u64, service: &AvpList) -> Slot
    ensures { result ≡ request_slot request_type default_units service.now }
{
    let units = service_units(request_type, default_units, service);
    Slot {
        group: group_number(first_number_of(service.as_slice(), avp_code::RATING_GROUP)),
        used: units.used,
        want: units.want,
        unit: units.unit,
        result: 0,
        granted: 0,
        last: 0,
    }
}

fn slot_at(
    request_type: RequestType,
    default_units: u64,
    services: &[TypedAvp<AvpList>],
    place: usize,
) -> Slot
    ensures { result ≡ slot_at (request_slot request_type default_units) services.now place }
{
    match services.get(place) {
        Some(service) => slot_of(request_type, default_units, &service.value),
        None => Slot::empty(),
    }
}

fn request_units(request: &CreditControlRequest, default_units: u64) -> Units
    ensures { result ≡ request_units request.now default_units }
{
    let services = request.multiple_services_credit_control.as_slice();
    if !services.is_empty() {
        return Units::none();
    }
    let wanted = told(&request.requested_service_unit, default_of(default_units));
    let used = total(request.used_service_unit.as_slice());
    units_by(request.cc_request_type.value, wanted, used)
}

fn action_of(action: &Option<TypedAvp<RequestedAction>>) -> u64
    ensures { result ≡ option_map_or (λ a. action_number a.value + 1) action.now 0 }
{
    match action {
        Some(action) => u64::from(action.value.number()) + 1,
        None => 0,
    }
}

fn facts_of(request: &CreditControlRequest, default_units: u64) -> Facts
    ensures { result ≡ facts_of_request request.now default_units }
{
    let units = request_units(request, default_units);
    let request_type = request.cc_request_type.value;
    let services = request.multiple_services_credit_control.as_slice();
    Facts {
        hop_by_hop: u64::from(request.header.hop_by_hop),
        end_to_end: u64::from(request.header.end_to_end),
        class: 1,
        request_type: u64::from(request_type.number()),
        request_number: u64::from(request.cc_request_number.value) + 1,
        account: account_of(request.subscription_id.as_slice()),
        used: units.used,
        want: units.want,
        unit: units.unit,
        action_or_check: action_of(&request.requested_action),
        result: 0,
        granted: 0,
        last: 0,
        services: services.len() as u64,
        slot_1: slot_at(request_type, default_units, services, 0),
        slot_2: slot_at(request_type, default_units, services, 1),
        slot_3: slot_at(request_type, default_units, services, 2),
        slot_4: slot_at(request_type, default_units, services, 3),
    }
}

/// The facts of the event that a Credit-Control-Request is for a server (RFC 8506 section 3.1), each at its place in
/// `session_fact` and `slot`. Peer, line and those of the quote are 0. Takes no memory.
///
/// `default_units` are the octets that a Requested-Service-Unit without an amount asks for. The account is that of the
/// first Subscription-Id of type END_USER_E164, 0 where its data is not 1 to 15 digits without a leading zero. An
/// amount is the first of CC-Time, CC-Total-Octets and CC-Service-Specific-Units in its group; used units are summed,
/// at most 2^64 - 1. An INITIAL or EVENT request has used none, a TERMINATION request wants none. Of a request with
/// Multiple-Services-Credit-Control (section 5.1.2) only the units of its services count; the first four have slots.
pub fn request_facts(request: &CreditControlRequest, default_units: u64) -> [u64; PLACES]
    ensures { result ≡ places_of (facts_of_request request.now default_units) }
{
    facts_of(request, default_units).places()
}
