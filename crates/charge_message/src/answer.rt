//! From a deed to the answer of credit control that it sends (RFC 8506 section 3.2, RFC 6733 section 7.2).

ghost use Rattle.std.specs.Prelude.{◌≡◌, Some, IfOk, OnErr, is_some, true, slice_index};
ghost use Rattle.base_codes.specs.declared.session_fact.TheConstants.{HOP_BY_HOP, END_TO_END, UNIT};
ghost use Rattle.base_codes.specs.declared.session_fact.TheConstants.{RESULT_CODE, GRANTED, FINAL};
ghost use Rattle.base_codes.specs.declared.command_code.CommandCode.TheVariants.{CreditControl};
ghost use Rattle.deed_message.specs.Headers.{answer_header};
ghost use Rattle.charge_message.specs.Avps.{units_field};
ghost use Rattle.charge_message.specs.Services.{answered, services};
ghost use Rattle.charge_message.specs.Messages.{if_any, is_protocol_error, final_field, answer_of, fault_of, answer_by};

use crate::avp::{termination, units_field};
use crate::reading::{class_of, is_protocol_error, one_less, session_of, type_of};
use crate::sender::sender_of;
use crate::service::services;
use base_codes::{CommandCode, session_fact};
use deed_message::{Names, answer_header, lowest, made};
use dia_avp::AvpList;
use dia_command::{
    Command, CreditControlAnswer, ErrorAnswer, Header, RequestType, TypedAvp, TypedAvps,
    application_of,
};
use dia_write::Identity;
use std::alloc::{AllocError, Global};
use tab_law::Deed;

/// The class of a Snd-Msg deed that sends an answer.
const ANSWER: u64 = 2;

/// The class of one that sends an answer that tells a fault.
const FAULT: u64 = 3;

fn if_any(argument: u64) -> Option<TypedAvp<u32>>
    ensures { result ≡ if_any argument }
{
    if argument == 0 {
        None
    } else {
        Some(made(one_less(argument)))
    }
}

fn final_field(
    alloc: Global,
    last: u64,
    granted: u64,
) -> Result<Option<TypedAvp<AvpList>>, AllocError>
    ensures { IfOk result (λ field. field ≡ final_field last granted) }
{
    if last != 1 || granted == 0 {
        return Ok(None);
    }
    Ok(Some(made(termination(alloc)?)))
}

/// What an answer tells of units.
#[derive(Drop)]
struct Units {
    granted: Option<TypedAvp<AvpList>>,
    last: Option<TypedAvp<AvpList>>,
    services: TypedAvps<AvpList>,
}

fn units_by(alloc: Global, deed: &Deed) -> Result<Units, AllocError>
    ensures granted { IfOk result (λ u. u.granted
        ≡ units_field (slice_index deed.now.a UNIT) (slice_index deed.now.a GRANTED)) }
    ensures last { IfOk result (λ u. u.last
        ≡ final_field (slice_index deed.now.a FINAL) (slice_index deed.now.a GRANTED)) }
    ensures services { IfOk result (λ u. u.services ≡ services answered deed.now.a) }
{
    deed.known();
    let granted = deed.a[session_fact::GRANTED];
    Ok(Units {
        granted: units_field(alloc, deed.a[session_fact::UNIT], granted)?,
        last: final_field(alloc, deed.a[session_fact::FINAL], granted)?,
        services: services(alloc, deed, false)?,
    })
}

fn header_by(deed: &Deed) -> Header
    ensures { result ≡ answer_header CreditControl (is_protocol_error (slice_index deed.now.a RESULT_CODE))
        (slice_index deed.now.a HOP_BY_HOP) (slice_index deed.now.a END_TO_END) }
{
    deed.known();
    answer_header(
        CommandCode::CreditControl,
        is_protocol_error(deed.a[session_fact::RESULT_CODE]),
        deed.a[session_fact::HOP_BY_HOP],
        deed.a[session_fact::END_TO_END],
    )
}

// It comes as `answer_message` answers it, so that no arm there takes it in hand again.
#[tactic(auto, unfolding(crate::specs::Messages::answer_of))]
fn answer_of(
    alloc: Global,
    deed: &Deed,
    identity: &Identity,
    session: &str,
    request_type: RequestType,
) -> Result<Option<Command>, AllocError>
    ensures { IfOk result (λ message. message ≡ Some (answer_of identity.now session.now deed.now.a request_type)) }
{
    deed.known();
    let sender = sender_of(alloc, identity, session)?;
    let units = units_by(alloc, deed)?;
    Ok(Some(Command::Cca(CreditControlAnswer {
        header: header_by(deed),
        session_id: sender.session_id,
        result_code: made(lowest(deed.a[session_fact::RESULT_CODE])),
        origin_host: sender.origin_host,
        origin_realm: sender.origin_realm,
        auth_application_id: made(application_of(CommandCode::CreditControl.number())),
        cc_request_type: made(request_type),
        cc_request_number: made(one_less(deed.a[session_fact::REQUEST_NUMBER])),
        granted_service_unit: units.granted,
        final_unit_indication: units.last,
        check_balance_result: if_any(deed.a[session_fact::ACTION_OR_CHECK]),
        multiple_services_credit_control: units.services,
        rest: AvpList::new(alloc),
    })))
}

#[tactic(auto, unfolding(crate::specs::Messages::fault_of))]
fn fault_of(
    alloc: Global,
    deed: &Deed,
    identity: &Identity,
    session: &str,
) -> Result<Option<Command>, AllocError>
    ensures { IfOk result (λ message. message ≡ Some (fault_of identity.now session.now deed.now.a)) }
{
    deed.known();
    let sender = sender_of(alloc, identity, session)?;
    Ok(Some(Command::ErrorAnswer(ErrorAnswer {
        header: header_by(deed),
        session_id: Some(sender.session_id),
        origin_host: sender.origin_host,
        origin_realm: sender.origin_realm,
        result_code: made(lowest(deed.a[session_fact::RESULT_CODE])),
        failed_avp: None,
        rest: AvpList::new(alloc),
    })))
}

/// The answer of credit control that a deed of a session's machine sends: that of a Snd-Msg deed of class 2 whose
/// CC-Request-Type is 1 to 4 is a Credit-Control-Answer (RFC 8506 section 3.2), that of class 3 one that tells a fault
/// (RFC 6733 section 7.2), where the session's name is UTF-8 and not empty; none for any other deed. `session_fact` and
/// `slot` say which argument is what.
///
/// Identifiers are the request's, arguments 2 and 3. Numbers of four octets are taken modulo 2^32, a number
/// whose argument is one more than it is 0 where that is 0, and a unit outside 1 to 3 is written as 2. Granted
/// units stand where they are not 0, Final-Unit-Indication where they are granted and the last,
/// Check-Balance-Result where its argument is not 0. Each slot with a group, of as many as the deed has
/// services, is an instance of Multiple-Services-Credit-Control. All AVPs have flag M; the header has flag P,
/// and flag E where the Result-Code is 3xxx.
pub fn answer_message(
    alloc: Global,
    deed: &Deed,
    names: &Names<'_>,
) -> Result<Option<Command>, AllocError>
    ensures message { IfOk result (λ message. message
        ≡ answer_by names.now.identity.now names.now.session.now deed.now) }

    // Memory can be wanting only for a message.
    ensures memory { OnErr result (is_some (answer_by names.now.identity.now names.now.session.now deed.now) ≡ true) }
{
    let Some(session) = session_of(names.session) else {
        return Ok(None);
    };
    match (class_of(deed), type_of(deed)) {
        (ANSWER, Some(request_type)) => answer_of(
            alloc,
            deed,
            names.identity,
            session,
            request_type,
        ),
        (FAULT, _) => fault_of(alloc, deed, names.identity, session),
        _ => Ok(None),
    }
}
