//! The answer that tells the fault of a request.

ghost use Rattle.std.specs.Prelude.{◌≡◌, ◌≤◌, ◌^◌, ◌↔◌, ◌⊎◌, IfOk, IsErrOf, IsSome, IsSomeAnd, OnErr};
ghost use Rattle.std.specs.Option.{option_map, option_copied};
ghost use Rattle.dia_avp.specs.Encoding.{length_of, encoded};
ghost use Rattle.dia_write.specs.Answer.{made, answer_header, answer_to, HasLongNames};

use dia_avp::{Avp, AvpList, Octets, WriteError, write_avp};
use dia_command::{Command, ErrorAnswer, Flags, Header, Text, TypedAvp};
use dia_tree::MsgFault;
use std::alloc::{AllocError, Global};

/// Who a node is: its Origin-Host, Origin-Realm and IPv4 address (RFC 6733 sections 6.3, 6.4 and 5.3.5).
#[derive(Drop)]
pub struct Identity {
    pub host: Octets,
    pub realm: Octets,
    pub address: [u8; 4],
}

/// The value of an AVP that this node makes: with flag M, without P (RFC 6733 section 4.1).
pub fn made<T>(value: T) -> TypedAvp<T>
    ensures { result ≡ made value }
{
    TypedAvp {
        mandatory: true,
        protected: false,
        value,
    }
}

// The header of an answer with this Result-Code.
fn answer_header(request: &Header, code: u32) -> Header
    ensures { result ≡ answer_header request.now code }
{
    Header {
        length: 0,
        flags: Flags {
            request: false,
            proxiable: request.flags.proxiable,
            error: code / 1000 == 3,
            retransmitted: false,
        },
        ..*request
    }
}

// The data of Failed-AVP: an AVP's encoding, with its padding.
fn failed_value(alloc: Global, avp: &Avp) -> Result<Octets, WriteError>
    ensures value { IfOk result (λ o. o ≡ encoded avp.now) }
    ensures too_long { IsErrOf result WriteError.LengthOver24Bits ↔ (2 ^ 24 ≤ length_of avp.now) }
{
    let mut octets = Vec::new(alloc);
    write_avp(&avp.view(), &mut octets)?;
    Ok(Octets::new(octets))
}

fn failed_field(alloc: Global, failed: &Option<Avp>) -> Result<Option<TypedAvp<Octets>>, WriteError>
    ensures value { IfOk result (λ f. f ≡ option_map (λ a. made (encoded a)) failed.now) }
    ensures memory { OnErr result (IsSome failed.now) }
    ensures too_long { IsErrOf result WriteError.LengthOver24Bits ↔ IsSomeAnd failed.now (λ a. 2 ^ 24 ≤ length_of a) }
{
    match failed {
        None => Ok(None),
        Some(avp) => Ok(Some(made(failed_value(alloc, avp)?))),
    }
}

fn session_field(alloc: Global, session: Option<&str>) -> Result<Option<TypedAvp<Text>>, AllocError>
    ensures value { IfOk result (λ s. s ≡ option_map made (option_copied session.entry)) }
    ensures memory { OnErr result (IsSome (option_copied session.entry)) }
{
    match session {
        None => Ok(None),
        Some(text) => Ok(Some(made(Text::from_str(alloc, text)?))),
    }
}

// The session and the node's names, as an answer has them.
fn named(
    alloc: Global,
    identity: &Identity,
    session: Option<&str>,
) -> Result<(Option<TypedAvp<Text>>, TypedAvp<Octets>, TypedAvp<Octets>), AllocError>
    ensures value { IfOk result (λ n. n
        ≡ (option_map made (option_copied session.entry), made identity.now.host, made identity.now.realm)) }
    ensures memory { OnErr result (HasLongNames identity.now (option_copied session.entry)) }
{
    let session_id = session_field(alloc, session)?;
    let host = identity.host.copy(alloc)?;
    let realm = identity.realm.copy(alloc)?;
    Ok((session_id, made(host), made(realm)))
}

/// The answer of a node to a request with this header, of this session, for its fault: R and T are clear, P is the
/// request's, and E is set where the Result-Code is 3xxx (RFC 6733 sections 6.2 and 7.1.3). Its AVPs, Session-Id,
/// Origin-Host, Origin-Realm, Result-Code and Failed-AVP (section 7.5), have M and not P. `length` is 0: writing
/// computes it.
pub fn error_answer(
    alloc: Global,
    identity: &Identity,
    header: &Header,
    session: Option<&str>,
    fault: &MsgFault,
) -> Result<Command, WriteError>
    ensures answer { IfOk result (λ c. c ≡ answer_to identity.now header.now (option_copied session.entry) fault.now) }

    // A failed AVP too long for 24 bits is refused, whatever the memory.
    ensures too_long { IsErrOf result WriteError.LengthOver24Bits
        ↔ IsSomeAnd fault.now.failed (λ a. 2 ^ 24 ≤ length_of a) }

    // No memory is needed without a session and a failed AVP, where the node's names have at most 32 octets each.
    ensures memory { OnErr result (IsSome fault.now.failed ⊎ HasLongNames identity.now (option_copied session.entry)) }
{
    let failed_avp = failed_field(alloc, &fault.failed)?;
    let (session_id, origin_host, origin_realm) = named(alloc, identity, session)?;
    let code = fault.result.number();
    Ok(Command::ErrorAnswer(ErrorAnswer {
        header: answer_header(header, code),
        session_id,
        origin_host,
        origin_realm,
        result_code: made(code),
        failed_avp,
        rest: AvpList::new(alloc),
    }))
}
