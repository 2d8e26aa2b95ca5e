//! What the arguments of a deed say, and the session that it speaks of.

ghost use Rattle.std.specs.Prelude.{◌≡◌, Some, None, if◌then◌else◌};
ghost use Rattle.std.specs.Option.{option_copied};
ghost use Rattle.charge_message.specs.Messages.{one_less, is_protocol_error, is_session, class_of, type_of};

use base_codes::{DeedCode, session_fact};
use deed_message::lowest;
use dia_command::RequestType;
use tab_law::Deed;

/// A number of four octets whose argument is one more than it.
#[tactic(auto, unfolding(crate::specs::Messages::one_less))]
pub(crate) fn one_less(argument: u64) -> u32
    ensures { result ≡ one_less argument }
{
    lowest(argument.saturating_sub(1))
}

/// Whether a Result-Code is 3xxx.
#[tactic(auto, unfolding(crate::specs::Messages::is_protocol_error))]
pub(crate) fn is_protocol_error(code: u64) -> bool
    ensures { result ≡ is_protocol_error code }
{
    lowest(code) / 1000 == 3
}

/// The name of a session, where octets are one.
#[tactic(auto, unfolding(crate::specs::Messages::is_session))]
pub(crate) fn session_of(octets: &[u8]) -> Option<&str>
    ensures { option_copied result ≡ (if is_session octets.now then Some octets.now else None) }
{
    if octets.is_empty() {
        return None;
    }
    match str::from_utf8(octets) {
        Ok(session) => Some(session),
        Err(_) => None,
    }
}

/// The argument of a Snd-Msg deed that tells its class, 0 for another deed.
#[tactic(auto, unfolding(crate::specs::Messages::class_of))]
pub(crate) fn class_of(deed: &Deed) -> u64
    ensures { result ≡ class_of deed.now }
{
    deed.known();
    if deed.code == DeedCode::SndMsg.number() {
        deed.a[session_fact::CLASS]
    } else {
        0
    }
}

/// The type of a deed's message, where there is such a type.
#[tactic(auto, unfolding(dia_command::specs::Value::type_coded, crate::specs::Messages::type_of))]
pub(crate) fn type_of(deed: &Deed) -> Option<RequestType>
    ensures { result ≡ type_of deed.now }
{
    deed.known();
    match u32::try_from(deed.a[session_fact::REQUEST_TYPE]) {
        Ok(number) => RequestType::coded(number),
        Err(_) => None,
    }
}
