//! The AVP at the front of octets.

ghost use Rattle.std.specs.Prelude.{◌≡◌, ◌≤◌, ◌<◌, [], ◌∷◌, length, IfOk, IfErr};
ghost use Rattle.dia_avp.specs.View.{seen, front};
ghost use Rattle.dia_avp.specs.Avps.{header_len, AvpThen, Broken, IsOnlyFront};
ghost use Rattle.dia_avp.specs.Reading.{avp_at, avps_in, vendor_at};

use crate::avp::AvpView;
use crate::fault::FaultCode;
use base_codes::{AVP_HEADER_LEN, AVP_VENDOR_HEADER_LEN};
use byteorder::{BigEndian, ByteOrder};

const VENDOR: u8 = 0x80;

const MANDATORY: u8 = 0x40;

const PROTECTED: u8 = 0x20;

fn header_len_of(octets: &[u8]) -> usize
    ensures { result ≡ header_len octets.now }
{
    match octets.get(4) {
        Some(flags) if *flags & VENDOR != 0 => AVP_VENDOR_HEADER_LEN,
        _ => AVP_HEADER_LEN,
    }
}

#[tactic(auto, unfolding(crate::specs::Reading::vendor_at))]
fn vendor_of(octets: &[u8]) -> Option<u32>
    requires { header_len octets.now ≤ length octets.now }
    ensures { result ≡ vendor_at octets.now }
{
    if octets[4] & VENDOR == 0 {
        return None;
    }
    match BigEndian::read_u32(&octets[AVP_HEADER_LEN..]) {
        0 => None,
        id => Some(id),
    }
}

#[tactic(auto, unfolding(crate::specs::Reading::avp_at, crate::specs::Reading::item_at))]
fn front_of(octets: &[u8]) -> Result<(AvpView<'_>, &[u8]), FaultCode>
    ensures { front result ≡ avp_at octets.now }
{
    let header = header_len_of(octets);
    if octets.len() < header {
        return Err(FaultCode::ShortHeader);
    }
    let len = BigEndian::read_u24(&octets[5..]) as usize;
    if len < header {
        return Err(FaultCode::LengthBelowHeader);
    }
    if octets.len() < len {
        return Err(FaultCode::PastEnd);
    }
    let avp = AvpView {
        code: BigEndian::read_u32(octets),
        vendor: vendor_of(octets),
        mandatory: octets[4] & MANDATORY != 0,
        protected: octets[4] & PROTECTED != 0,
        octets: &octets[header..len],
    };
    let end = len.div_ceil(4) * 4;
    Ok((avp, &octets[end.min(octets.len())..]))
}

/// The AVP at the front of octets and what comes after its padding, or what is wrong there: `ShortHeader`,
/// `LengthBelowHeader` or `PastEnd`, looked for in this order (RFC 6733 section 4.1). Takes no memory.
pub fn first_avp(octets: &[u8]) -> Result<(AvpView<'_>, &[u8]), FaultCode>
    ensures avp { IfOk result (λ x. AvpThen octets.now (seen x.0) x.1.now) }
    ensures shorter { IfOk result (λ x. length x.1.now < length octets.now) }
    ensures broken { IfErr result (Broken octets.now) }

    // The AVPs of the octets are this one and those of the rest; where there is none, all octets are left.
    ensures parts { IfOk result (λ x. avps_in octets.now ≡ (seen x.0 ∷ (avps_in x.1.now).0, (avps_in x.1.now).1)) }
    ensures left { IfErr result (λ _. avps_in octets.now ≡ ([], octets.now)) }

    // No other AVP, no other rest and no other fault is at the front.
    ensures only { IsOnlyFront octets.now (front result) }
{
    front_of(octets)
}

/// The AVP at the front of octets and what comes after its padding, or what is wrong there, as one function of the
/// octets. Takes no memory.
pub fn avp_at(octets: &[u8]) -> Result<(AvpView<'_>, &[u8]), FaultCode>
    ensures is { front result ≡ avp_at octets.now }
    ensures shorter { IfOk result (λ x. length x.1.now < length octets.now) }
{
    front_of(octets)
}
