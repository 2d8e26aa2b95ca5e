//! From a deed to the Credit-Control-Request that it sends (RFC 8506 section 3.1).

ghost use Rattle.std.specs.Prelude.{◌≡◌, ◌-◌, ◌∷◌, [], Some, None, IfOk, OnErr, is_some, true, codes, slice_index};
ghost use Rattle.std.specs.Option.{option_to_list};
ghost use Rattle.base_codes.specs.declared.session_fact.TheConstants.{HOP_BY_HOP, REQUEST_NUMBER, ACCOUNT};
ghost use Rattle.base_codes.specs.declared.session_fact.TheConstants.{USED, WANT, UNIT};
ghost use Rattle.base_codes.specs.declared.command_code.CommandCode.TheVariants.{CreditControl};
ghost use Rattle.deed_message.specs.Headers.{request_header};
ghost use Rattle.dia_write.specs.Answer.{made};
ghost use Rattle.charge_message.specs.Avps.{units_field, subscription};
ghost use Rattle.charge_message.specs.Services.{asked, services};
ghost use Rattle.charge_message.specs.Messages.{action_by, indicator_by, request_of, request_by};

use crate::avp::{subscription, units_field};
use crate::reading::{class_of, one_less, session_of, type_of};
use crate::sender::sender_of;
use crate::service::services;
use base_codes::{CommandCode, session_fact};
use deed_message::{Names, made, made_copy, request_header};
use dia_avp::{AvpList, Octets};
use dia_command::{
    Command, CreditControlRequest, Header, RequestType, RequestedAction, Text, TypedAvp, TypedAvps,
    application_of,
};
use dia_write::Identity;
use std::alloc::{AllocError, Global};
use tab_law::Deed;

/// The class of a Snd-Msg deed that sends a request.
const REQUEST: u64 = 1;

/// The Service-Context-Id of this node's requests (RFC 8506 section 8.42).
const SERVICE_CONTEXT: &str = "dbench@example";

fn action_by(request_type: RequestType, argument: u64) -> Option<TypedAvp<RequestedAction>>
    ensures { result ≡ action_by request_type argument }
{
    match request_type {
        RequestType::Event => Some(made(RequestedAction::coded(one_less(argument)))),
        _ => None,
    }
}

fn indicator_by(request_type: RequestType, services: u64) -> Option<TypedAvp<u32>>
    ensures { result ≡ indicator_by request_type services }
{
    match request_type {
        RequestType::Initial if services != 0 => Some(made(1)),
        _ => None,
    }
}

fn subscriptions(alloc: Global, deed: &Deed) -> Result<TypedAvps<AvpList>, AllocError>
    ensures { IfOk result (λ list. list ≡ made (subscription (slice_index deed.now.a ACCOUNT)) ∷ []) }
{
    deed.known();
    let one = subscription(alloc, deed.a[session_fact::ACCOUNT])?;
    let mut list = TypedAvps::new(alloc);
    list.push(made(one))?;
    Ok(list)
}

fn used_by(alloc: Global, deed: &Deed) -> Result<TypedAvps<AvpList>, AllocError>
    ensures { IfOk result (λ list. list
        ≡ option_to_list (units_field (slice_index deed.now.a UNIT) (slice_index deed.now.a USED))) }
{
    deed.known();
    let used = units_field(
        alloc,
        deed.a[session_fact::UNIT],
        deed.a[session_fact::USED],
    )?;
    let mut list = TypedAvps::new(alloc);
    if let Some(used) = used {
        list.push(used)?;
    }
    Ok(list)
}

/// What a request tells of units.
#[derive(Drop)]
struct Units {
    wanted: Option<TypedAvp<AvpList>>,
    used: TypedAvps<AvpList>,
    services: TypedAvps<AvpList>,
}

fn units_by(alloc: Global, deed: &Deed) -> Result<Units, AllocError>
    ensures wanted { IfOk result (λ u. u.wanted
        ≡ units_field (slice_index deed.now.a UNIT) (slice_index deed.now.a WANT)) }
    ensures used { IfOk result (λ u. u.used
        ≡ option_to_list (units_field (slice_index deed.now.a UNIT) (slice_index deed.now.a USED))) }
    ensures services { IfOk result (λ u. u.services ≡ services asked deed.now.a) }
{
    deed.known();
    Ok(Units {
        wanted: units_field(
            alloc,
            deed.a[session_fact::UNIT],
            deed.a[session_fact::WANT],
        )?,
        used: used_by(alloc, deed)?,
        services: services(alloc, deed, true)?,
    })
}

/// What a request tells of its purpose: where it goes, what for, and on whose account.
#[derive(Drop)]
struct Purpose {
    destination_realm: TypedAvp<Octets>,
    service_context_id: TypedAvp<Text>,
    subscription_id: TypedAvps<AvpList>,
}

fn purpose_of(alloc: Global, deed: &Deed, identity: &Identity) -> Result<Purpose, AllocError>
    ensures destination { IfOk result (λ p. p.destination_realm ≡ made identity.now.realm) }
    ensures context { IfOk result (λ p. p.service_context_id ≡ made (codes "dbench@example")) }
    ensures subscription { IfOk result (λ p. p.subscription_id
        ≡ made (subscription (slice_index deed.now.a ACCOUNT)) ∷ []) }
{
    Ok(Purpose {
        destination_realm: made_copy(alloc, &identity.realm)?,
        service_context_id: made(Text::from_str(alloc, SERVICE_CONTEXT)?),
        subscription_id: subscriptions(alloc, deed)?,
    })
}

fn header_by(deed: &Deed) -> Header
    ensures { result
        ≡ request_header CreditControl (slice_index deed.now.a HOP_BY_HOP) (slice_index deed.now.a REQUEST_NUMBER - 1) }
{
    deed.known();
    let count = deed.a[session_fact::REQUEST_NUMBER].saturating_sub(1);
    request_header(
        CommandCode::CreditControl,
        deed.a[session_fact::HOP_BY_HOP],
        count,
    )
}

// It comes as `request_message` answers it, so that no arm there takes it in hand again.
#[tactic(auto, unfolding(crate::specs::Messages::request_of))]
fn request_of(
    alloc: Global,
    deed: &Deed,
    identity: &Identity,
    session: &str,
    request_type: RequestType,
) -> Result<Option<Command>, AllocError>
    ensures { IfOk result (λ message. message ≡ Some (request_of identity.now session.now deed.now.a request_type)) }
{
    deed.known();
    let sender = sender_of(alloc, identity, session)?;
    let purpose = purpose_of(alloc, deed, identity)?;
    let units = units_by(alloc, deed)?;
    Ok(Some(Command::Ccr(CreditControlRequest {
        header: header_by(deed),
        session_id: sender.session_id,
        origin_host: sender.origin_host,
        origin_realm: sender.origin_realm,
        destination_realm: purpose.destination_realm,
        auth_application_id: made(application_of(CommandCode::CreditControl.number())),
        service_context_id: purpose.service_context_id,
        cc_request_type: made(request_type),
        cc_request_number: made(one_less(deed.a[session_fact::REQUEST_NUMBER])),
        subscription_id: purpose.subscription_id,
        requested_action: action_by(request_type, deed.a[session_fact::ACTION_OR_CHECK]),
        requested_service_unit: units.wanted,
        used_service_unit: units.used,
        multiple_services_indicator: indicator_by(request_type, deed.a[session_fact::SERVICES]),
        multiple_services_credit_control: units.services,
        rest: AvpList::new(alloc),
    })))
}

/// The Credit-Control-Request that a deed of a session's machine sends (RFC 8506 section 3.1): that of a Snd-Msg deed
/// of class 1 whose CC-Request-Type is 1 to 4, where the session's name is UTF-8 and not empty; none for any other
/// deed. `session_fact` and `slot` say which argument is what.
///
/// Both identifiers are those of the sender's machine, argument 2, and the CC-Request-Number. Destination-Realm is this
/// node's own realm. Numbers of four octets are taken modulo 2^32, a number whose argument is one more than it
/// is 0 where that is 0, and a unit outside 1 to 3 is written as 2. Requested-Action stands in EVENT requests,
/// units where they are not 0, Multiple-Services-Indicator in an INITIAL request with services. Each slot with a
/// group, of as many as the deed has services, is an instance of Multiple-Services-Credit-Control. All AVPs have
/// flag M, the header has flag P.
pub fn request_message(
    alloc: Global,
    deed: &Deed,
    names: &Names<'_>,
) -> Result<Option<Command>, AllocError>
    ensures message { IfOk result (λ message. message
        ≡ request_by names.now.identity.now names.now.session.now deed.now) }

    // Memory can be wanting only for a message.
    ensures memory { OnErr result (is_some (request_by names.now.identity.now names.now.session.now deed.now) ≡ true) }
{
    if class_of(deed) != REQUEST {
        return Ok(None);
    }
    match (session_of(names.session), type_of(deed)) {
        (Some(session), Some(request_type)) => request_of(
            alloc,
            deed,
            names.identity,
            session,
            request_type,
        ),
        _ => Ok(None),
    }
}
