//! From a deed of a peer's machine to the message that it sends.

ghost use Rattle.std.specs.Prelude.{◌≡◌, ◌∷◌, [], true, Some, is_some, IfOk, OnErr, slice_index};
ghost use Rattle.base_codes.specs.declared.deed_code.DeedCode.TheVariants.{SndCer, SndCea, SndDwa, SndDpr, SndDpa};
ghost use Rattle.deed_message.specs.Headers.{lowest};
ghost use Rattle.dia_write.specs.Answer.{made};
ghost use Rattle.peer_rules.specs.Messages.{request_by, answer_by, address_of, product_name, message_by, message_of};

use base_codes::{CommandCode, DeedCode};
use deed_message::{Names, answer_header, lowest, made, made_copy, request_header};
use dia_avp::{AvpList, Octets};
use dia_command::{
    CapabilitiesExchangeAnswer, CapabilitiesExchangeRequest, Command, DeviceWatchdogAnswer,
    DisconnectPeerAnswer, DisconnectPeerRequest, Header, Text, TypedAvp, TypedAvps,
};
use dia_write::Identity;
use std::alloc::{AllocError, Global};
use tab_law::Deed;

/// What a CER tells of this node (RFC 6733 section 5.3.1).
const PRODUCT: &str = "dbench";

const VENDOR: u32 = 0;

/// Diameter Credit-Control (RFC 8506 section 1.3).
const APPLICATION: u32 = 4;

/// REBOOTING (RFC 6733 section 5.4.3).
const CAUSE: u32 = 0;

fn request_by(command: CommandCode, deed: &Deed) -> Header
    ensures { result ≡ request_by command deed.now.a }
{
    deed.known();
    request_header(command, deed.a[2], deed.a[3])
}

fn answer_by(command: CommandCode, deed: &Deed) -> Header
    ensures { result ≡ answer_by command deed.now.a }
{
    deed.known();
    answer_header(command, false, deed.a[2], deed.a[3])
}

/// The Result-Code that a deed hands in.
fn result_code(deed: &Deed) -> TypedAvp<u32>
    ensures { result ≡ made (lowest (slice_index deed.now.a 4)) }
{
    deed.known();
    made(lowest(deed.a[4]))
}

/// The one Host-IP-Address: family 1, IPv4, and the four octets.
fn addresses(alloc: Global, identity: &Identity) -> Result<TypedAvps<Octets>, AllocError>
    ensures { IfOk result (λ list. list ≡ made (address_of identity.now) ∷ []) }
{
    let mut octets = Vec::with_capacity(alloc, 6)?;
    octets.extend_from_slice(&[0, 1])?;
    octets.extend_from_slice(&identity.address)?;
    let mut list = TypedAvps::new(alloc);
    list.push(made(Octets::new(octets)))?;
    Ok(list)
}

fn applications(alloc: Global) -> Result<TypedAvps<u32>, AllocError>
    ensures { IfOk result (λ list. list ≡ made 4 ∷ []) }
{
    let mut list = TypedAvps::new(alloc);
    list.push(made(APPLICATION))?;
    Ok(list)
}

fn product(alloc: Global) -> Result<TypedAvp<Text>, AllocError>
    ensures { IfOk result (λ avp. avp ≡ product_name) }
{
    Ok(TypedAvp {
        mandatory: false,
        protected: false,
        value: Text::from_str(alloc, PRODUCT)?,
    })
}

fn cer(alloc: Global, deed: &Deed, identity: &Identity) -> Result<Command, AllocError>
    ensures { IfOk result (λ c. message_by identity.now deed.now.a SndCer ≡ Some c) }
{
    Ok(Command::Cer(CapabilitiesExchangeRequest {
        header: request_by(CommandCode::CapabilitiesExchange, deed),
        origin_host: made_copy(alloc, &identity.host)?,
        origin_realm: made_copy(alloc, &identity.realm)?,
        host_ip_address: addresses(alloc, identity)?,
        vendor_id: made(VENDOR),
        product_name: product(alloc)?,
        auth_application_id: applications(alloc)?,
        rest: AvpList::new(alloc),
    }))
}

fn cea(alloc: Global, deed: &Deed, identity: &Identity) -> Result<Command, AllocError>
    ensures { IfOk result (λ c. message_by identity.now deed.now.a SndCea ≡ Some c) }
{
    Ok(Command::Cea(CapabilitiesExchangeAnswer {
        header: answer_by(CommandCode::CapabilitiesExchange, deed),
        result_code: result_code(deed),
        origin_host: made_copy(alloc, &identity.host)?,
        origin_realm: made_copy(alloc, &identity.realm)?,
        host_ip_address: addresses(alloc, identity)?,
        vendor_id: made(VENDOR),
        product_name: product(alloc)?,
        auth_application_id: applications(alloc)?,
        rest: AvpList::new(alloc),
    }))
}

fn dwa(alloc: Global, deed: &Deed, identity: &Identity) -> Result<Command, AllocError>
    ensures { IfOk result (λ c. message_by identity.now deed.now.a SndDwa ≡ Some c) }
{
    Ok(Command::Dwa(DeviceWatchdogAnswer {
        header: answer_by(CommandCode::DeviceWatchdog, deed),
        result_code: result_code(deed),
        origin_host: made_copy(alloc, &identity.host)?,
        origin_realm: made_copy(alloc, &identity.realm)?,
        rest: AvpList::new(alloc),
    }))
}

fn dpr(alloc: Global, deed: &Deed, identity: &Identity) -> Result<Command, AllocError>
    ensures { IfOk result (λ c. message_by identity.now deed.now.a SndDpr ≡ Some c) }
{
    Ok(Command::Dpr(DisconnectPeerRequest {
        header: request_by(CommandCode::DisconnectPeer, deed),
        origin_host: made_copy(alloc, &identity.host)?,
        origin_realm: made_copy(alloc, &identity.realm)?,
        disconnect_cause: made(CAUSE),
        rest: AvpList::new(alloc),
    }))
}

fn dpa(alloc: Global, deed: &Deed, identity: &Identity) -> Result<Command, AllocError>
    ensures { IfOk result (λ c. message_by identity.now deed.now.a SndDpa ≡ Some c) }
{
    Ok(Command::Dpa(DisconnectPeerAnswer {
        header: answer_by(CommandCode::DisconnectPeer, deed),
        result_code: result_code(deed),
        origin_host: made_copy(alloc, &identity.host)?,
        origin_realm: made_copy(alloc, &identity.realm)?,
        rest: AvpList::new(alloc),
    }))
}

/// The message that a deed of a peer's machine sends: a CER, CEA, DWA, DPR or DPA of the node that `names` tells,
/// and none for any other deed (RFC 6733 sections 5.3 to 5.5). Arguments 2 and 3 give the identifiers: in a request
/// both are the machine's number times 65,536 and the count of its requests modulo 65,536, in an answer they are
/// those of its request, and argument 4 is the Result-Code; all modulo 2^32. `length` is 0: writing computes it. All
/// AVPs have flag M but Product-Name.
pub fn peer_message(
    alloc: Global,
    deed: &Deed,
    names: &Names<'_>,
) -> Result<Option<Command>, AllocError>
    ensures message { IfOk result (λ message. message ≡ message_of names.now.identity.now deed.now) }

    // Memory can be wanting only for a message.
    ensures memory { OnErr result (is_some (message_of names.now.identity.now deed.now) ≡ true) }
{
    let identity = names.identity;
    Ok(match DeedCode::coded(deed.code) {
        Some(DeedCode::SndCer) => Some(cer(alloc, deed, identity)?),
        Some(DeedCode::SndCea) => Some(cea(alloc, deed, identity)?),
        Some(DeedCode::SndDwa) => Some(dwa(alloc, deed, identity)?),
        Some(DeedCode::SndDpr) => Some(dpr(alloc, deed, identity)?),
        Some(DeedCode::SndDpa) => Some(dpa(alloc, deed, identity)?),
        _ => None,
    })
}
