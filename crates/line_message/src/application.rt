//! The applications that a CER may name (RFC 6733 section 5.3).

ghost use Rattle.std.specs.Prelude.{◌≡◌};
ghost use Rattle.std.specs.List.{list_any};
ghost use Rattle.dia_avp.specs.Reading.{avps_in};
ghost use Rattle.dia_avp.specs.View.{seen};
ghost use Rattle.line_message.specs.Heard.{is_application, is_shared, is_sharing, shares, shares_inside, shares_plain};

use base_codes::{application, avp_code};
use dia_avp::{Avp, AvpView, first_avp, is_coded, number_32};
use dia_command::CapabilitiesExchangeRequest;

/// Whether an application is credit control, or a relay's.
fn is_shared(id: u32) -> bool
    ensures { result ≡ is_shared id }
{
    id == application::CREDIT_CONTROL || id == application::RELAY
}

/// Whether an AVP is an Auth-Application-Id of such an application.
fn is_application(avp: &AvpView<'_>) -> bool
    ensures { result ≡ is_application (seen avp.now) }
{
    if !is_coded(avp, avp_code::AUTH_APPLICATION_ID) {
        return false;
    }
    match number_32(avp) {
        Some(id) => is_shared(id),
        None => false,
    }
}

/// Whether there is such an AVP among these.
fn has_application(octets: &[u8]) -> bool
    ensures { result ≡ list_any is_application (avps_in octets.now).0 }
{
    let mut rest = octets;
    while let Ok((avp, after)) = first_avp(rest) {
        if is_application(&avp) {
            return true;
        }
        rest = after;
    }
    false
}

/// Whether an AVP is a Vendor-Specific-Application-Id with such an AVP.
fn is_sharing(avp: &Avp) -> bool
    ensures { result ≡ is_sharing avp.now }
{
    if !is_coded(&avp.view(), avp_code::VENDOR_SPECIFIC_APPLICATION_ID) {
        return false;
    }
    has_application(avp.octets.as_slice())
}

/// Whether a CER names an application that this node has, in an AVP of its own.
fn shares_plain(cer: &CapabilitiesExchangeRequest) -> bool
    ensures { result ≡ shares_plain cer.now }
{
    cer.auth_application_id
        .as_slice()
        .iter()
        .any(|id| is_shared(id.value))
}

/// The same inside a Vendor-Specific-Application-Id.
fn shares_inside(cer: &CapabilitiesExchangeRequest) -> bool
    ensures { result ≡ shares_inside cer.now }
{
    cer.rest.as_slice().iter().any(|avp| is_sharing(avp))
}

/// Whether a CER names an application that this node has.
#[tactic(auto, unfolding(crate::specs::Heard::shares))]
pub(crate) fn shares(cer: &CapabilitiesExchangeRequest) -> bool
    ensures { result ≡ shares cer.now }
{
    shares_plain(cer) || shares_inside(cer)
}
