//! AVPs looked up by their AVP Code, and the numbers that they hold: in a list, among views, or in octets. Each look-up
//! is for a code without a vendor, and takes no memory.

ghost use Rattle.std.specs.Prelude.{◌≡◌, find, map};
ghost use Rattle.std.specs.Option.{option_map};
ghost use Rattle.dia_avp.specs.Look.{is_coded, number_in, first_number};
ghost use Rattle.dia_avp.specs.Reading.{avps_in};
ghost use Rattle.dia_avp.specs.View.{seen};

use crate::avp::{Avp, AvpView};
use crate::first::first_avp;

/// Whether an AVP has this AVP Code and no vendor. With a Vendor-ID the code is one of that vendor's, and another AVP
/// (RFC 6733 section 4.1).
#[inline]
pub fn is_coded(avp: &AvpView<'_>, code: u32) -> bool
    ensures { result ≡ is_coded code (seen avp.now) }
{
    avp.code == code && avp.vendor.is_none()
}

/// The number of 4 octets that an AVP's data is, none where it has another size: an Unsigned32 or Enumerated (RFC 6733
/// sections 4.2 and 4.3.1).
#[inline]
pub fn number_32(avp: &AvpView<'_>) -> Option<u32>
    ensures { result ≡ number_in 4 avp.now.octets.now }
{
    avp.as_u32().ok()
}

/// The number of 8 octets that an AVP's data is, none where it has another size: an Unsigned64 (RFC 6733 section 4.2).
#[inline]
pub fn number_64(avp: &AvpView<'_>) -> Option<u64>
    ensures { result ≡ number_in 8 avp.now.octets.now }
{
    avp.as_u64().ok()
}

/// The first AVP of a code in a list, none where the list has no such AVP.
#[inline]
pub fn first_of<'a>(avps: &'a [Avp], code: u32) -> Option<AvpView<'a>>
    ensures { option_map seen result ≡ find (is_coded code) avps.now }
{
    for avp in avps {
        let view = avp.view();
        if is_coded(&view, code) {
            return Some(view);
        }
    }
    None
}

/// The number of 4 octets that the first AVP of a code in a list has, none where that one has another size.
#[inline]
pub fn first_number_of(avps: &[Avp], code: u32) -> Option<u32>
    ensures { result ≡ first_number code avps.now }
{
    number_32(&first_of(avps, code)?)
}

// The first AVP of a code among views.
#[inline]
fn first_among<'a>(avps: &[AvpView<'a>], code: u32) -> Option<AvpView<'a>>
    ensures { option_map seen result ≡ find (is_coded code) (map seen avps.now) }
{
    for avp in avps {
        if is_coded(avp, code) {
            return Some(*avp);
        }
    }
    None
}

/// The number of 4 octets that the first AVP of a code among views has, none where that one has another size.
#[inline]
pub fn first_number_among(avps: &[AvpView<'_>], code: u32) -> Option<u32>
    ensures { result ≡ first_number code (map seen avps.now) }
{
    number_32(&first_among(avps, code)?)
}

/// The first whole AVP of a code in octets, before any broken one (`first_avp`), none where there is no such AVP.
#[inline]
pub fn first_in(octets: &[u8], code: u32) -> Option<AvpView<'_>>
    ensures { option_map seen result ≡ find (is_coded code) (avps_in octets.now).0 }
{
    let mut rest = octets;
    while let Ok((avp, after)) = first_avp(rest) {
        if is_coded(&avp, code) {
            return Some(avp);
        }
        rest = after;
    }
    None
}

/// The number of 4 octets that the first whole AVP of a code in octets has, none where that one has another size.
#[inline]
pub fn first_number_in(octets: &[u8], code: u32) -> Option<u32>
    ensures { result ≡ first_number code (avps_in octets.now).0 }
{
    number_32(&first_in(octets, code)?)
}
