//! From an answer of credit control to facts (RFC 8506 section 3.2, RFC 6733 section 7.2).

ghost use Rattle.std.specs.Prelude.{◌≡◌, ◌+◌};
ghost use Rattle.std.specs.Option.{option_map_or};
ghost use Rattle.charge_facts.specs.Answers.{flag, result_of, answer_slot, facts_of_answer, facts_of_fault};
ghost use Rattle.charge_facts.specs.Answers.{answer_places};
ghost use Rattle.charge_facts.specs.Requests.{slot_at};

use crate::amount::{Amount, told, told_by};
use crate::facts::{Facts, Slot, group_number};
use base_codes::{CommandCode, ResultCode, avp_code};
use dia_avp::{AvpList, first_number_of, first_of};
use dia_command::{Command, CreditControlAnswer, ErrorAnswer, TypedAvp};
use tab_law::PLACES;

fn flag(there: bool) -> u64
    ensures { result ≡ flag there }
{
    if there { 1 } else { 0 }
}

fn result_of(service: &AvpList) -> u64
    ensures { result ≡ result_of service.now }
{
    match first_number_of(service.as_slice(), avp_code::RESULT_CODE) {
        Some(code) => u64::from(code),
        None => u64::from(ResultCode::Success.number()),
    }
}

fn slot_of(service: &AvpList) -> Slot
    ensures { result ≡ answer_slot service.now }
{
    let granted = told_by(service, avp_code::GRANTED_SERVICE_UNIT, Amount::new(0, 0));
    let last = first_of(service.as_slice(), avp_code::FINAL_UNIT_INDICATION);
    Slot {
        group: group_number(first_number_of(service.as_slice(), avp_code::RATING_GROUP)),
        used: 0,
        want: 0,
        unit: granted.unit,
        result: result_of(service),
        granted: granted.units,
        last: flag(last.is_some()),
    }
}

fn slot_at(services: &[TypedAvp<AvpList>], place: usize) -> Slot
    ensures { result ≡ slot_at answer_slot services.now place }
{
    match services.get(place) {
        Some(service) => slot_of(&service.value),
        None => Slot::empty(),
    }
}

fn check_of(check: &Option<TypedAvp<u32>>) -> u64
    ensures { result ≡ option_map_or (λ v. v.value + 1) check.now 0 }
{
    match check {
        Some(check) => u64::from(check.value) + 1,
        None => 0,
    }
}

fn facts_of(answer: &CreditControlAnswer) -> Facts
    ensures { result ≡ facts_of_answer answer.now }
{
    let granted = told(&answer.granted_service_unit, Amount::new(0, 0));
    let services = answer.multiple_services_credit_control.as_slice();
    Facts {
        hop_by_hop: u64::from(answer.header.hop_by_hop),
        end_to_end: u64::from(answer.header.end_to_end),
        class: 2,
        request_type: u64::from(answer.cc_request_type.value.number()),
        request_number: u64::from(answer.cc_request_number.value) + 1,
        account: 0,
        used: 0,
        want: 0,
        unit: granted.unit,
        action_or_check: check_of(&answer.check_balance_result),
        result: u64::from(answer.result_code.value),
        granted: granted.units,
        last: flag(answer.final_unit_indication.is_some()),
        services: services.len() as u64,
        slot_1: slot_at(services, 0),
        slot_2: slot_at(services, 1),
        slot_3: slot_at(services, 2),
        slot_4: slot_at(services, 3),
    }
}

fn facts_of_fault(answer: &ErrorAnswer) -> Facts
    ensures { result ≡ facts_of_fault answer.now }
{
    Facts {
        hop_by_hop: u64::from(answer.header.hop_by_hop),
        end_to_end: u64::from(answer.header.end_to_end),
        class: 3,
        request_type: 0,
        request_number: 0,
        account: 0,
        used: 0,
        want: 0,
        unit: 0,
        action_or_check: 0,
        result: u64::from(answer.result_code.value),
        granted: 0,
        last: 0,
        services: 0,
        slot_1: Slot::empty(),
        slot_2: Slot::empty(),
        slot_3: Slot::empty(),
        slot_4: Slot::empty(),
    }
}

/// The facts of the event that an answer of credit control is for a client (RFC 8506 section 3.2), each at its place in
/// `session_fact` and `slot`; none for a command that is no such answer. Peer and line are 0. Takes no memory.
///
/// They are those of a Credit-Control-Answer, and of an answer that tells a fault (RFC 6733 section 7.2) of credit
/// control and has a Session-Id. Final is 1 wherever a Final-Unit-Indication stands; a service without a Result-Code
/// has 2001. The first four services have slots.
pub fn answer_facts(command: &Command) -> Option<[u64; PLACES]>
    ensures { result ≡ answer_places command.now }
{
    match command {
        Command::Cca(answer) => Some(facts_of(answer).places()),
        Command::ErrorAnswer(answer) => {
            if answer.header.command == CommandCode::CreditControl.number()
                && answer.session_id.is_some()
            {
                Some(facts_of_fault(answer).places())
            } else {
                None
            }
        }
        _ => None,
    }
}
