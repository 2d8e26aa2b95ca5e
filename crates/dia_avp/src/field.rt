//! The data of an AVP as a value of its type (RFC 6733 sections 4.2 and 4.3.1).

ghost use Rattle.std.specs.Prelude.{◌≡◌, ◌≢◌, ◌≤◌, ◌<◌, true, false, length, All, Any, IfOk, IfErr};
ghost use Rattle.std.specs.Str.{IsUtf8};
ghost use Rattle.dia_avp.specs.Field.{IsUnsigned32, IsUnsigned64};

use crate::avp::{Avp, AvpView};
use crate::fault::FieldFault;
use byteorder::{BigEndian, ByteOrder};

fn unsigned32(octets: &[u8]) -> Result<u32, FieldFault>
    ensures value { IfOk result (IsUnsigned32 octets.now) }
    ensures refused { IfErr result (λ f. (f ≡ FieldFault.BadLength) × (length octets.now ≢ 4)) }
{
    if octets.len() != 4 {
        return Err(FieldFault::BadLength);
    }
    Ok(BigEndian::read_u32(octets))
}

fn unsigned64(octets: &[u8]) -> Result<u64, FieldFault>
    ensures value { IfOk result (IsUnsigned64 octets.now) }
    ensures refused { IfErr result (λ f. (f ≡ FieldFault.BadLength) × (length octets.now ≢ 8)) }
{
    if octets.len() != 8 {
        return Err(FieldFault::BadLength);
    }
    Ok(BigEndian::read_u64(octets))
}

// Whether no octet is over 0x7f: eight are looked at in one step.
fn is_ascii(octets: &[u8]) -> bool
    ensures all { result ≡ true → All (λ o. o < 128) octets.now }
    ensures any { result ≡ false → Any (λ o. 128 ≤ o) octets.now }
{
    octets.is_ascii()
}

impl<'a> AvpView<'a> {
    /// The Unsigned32 that the data is: 4 octets in network byte order (RFC 6733 section 4.2).
    pub fn as_u32(&self) -> Result<u32, FieldFault>
        ensures value { IfOk result (IsUnsigned32 self.now.octets.now) }
        ensures refused { IfErr result (λ f. (f ≡ FieldFault.BadLength) × (length self.now.octets.now ≢ 4)) }
    {
        unsigned32(self.octets)
    }

    /// The Unsigned64 that the data is: 8 octets in network byte order (RFC 6733 section 4.2).
    pub fn as_u64(&self) -> Result<u64, FieldFault>
        ensures value { IfOk result (IsUnsigned64 self.now.octets.now) }
        ensures refused { IfErr result (λ f. (f ≡ FieldFault.BadLength) × (length self.now.octets.now ≢ 8)) }
    {
        unsigned64(self.octets)
    }

    /// The UTF8String that the data is: characters in UTF-8 (RFC 6733 section 4.3.1). It may be empty.
    pub fn as_text(&self) -> Result<&'a str, FieldFault>
        ensures value { IfOk result (λ x. (x.now ≡ self.now.octets.now) × IsUtf8 self.now.octets.now) }
        ensures refused { IfErr result (λ f. (f ≡ FieldFault.BadValue) × ¬ (IsUtf8 self.now.octets.now)) }
    {
        match str::from_utf8(self.octets) {
            Ok(text) => Ok(text),
            Err(_) => Err(FieldFault::BadValue),
        }
    }

    /// The DiameterIdentity that the data is: ASCII, and so no octet over 0x7f (RFC 6733 section 4.3.1). It may be
    /// empty.
    pub fn as_identity(&self) -> Result<&'a [u8], FieldFault>
        ensures value { IfOk result (λ x. (x.now ≡ self.now.octets.now) × All (λ o. o < 128) x.now) }
        ensures refused { IfErr result (λ f. (f ≡ FieldFault.BadValue) × Any (λ o. 128 ≤ o) self.now.octets.now) }
    {
        if !is_ascii(self.octets) {
            return Err(FieldFault::BadValue);
        }
        Ok(self.octets)
    }
}

/// The Unsigned32 that the AVP's data is (RFC 6733 section 4.2).
pub fn u32_of(avp: &Avp) -> Result<u32, FieldFault>
    ensures value { IfOk result (IsUnsigned32 avp.now.octets) }
    ensures refused { IfErr result (λ f. (f ≡ FieldFault.BadLength) × (length avp.now.octets ≢ 4)) }
{
    avp.view().as_u32()
}

/// The Unsigned64 that the AVP's data is (RFC 6733 section 4.2).
pub fn u64_of(avp: &Avp) -> Result<u64, FieldFault>
    ensures value { IfOk result (IsUnsigned64 avp.now.octets) }
    ensures refused { IfErr result (λ f. (f ≡ FieldFault.BadLength) × (length avp.now.octets ≢ 8)) }
{
    avp.view().as_u64()
}

/// The UTF8String that the AVP's data is (RFC 6733 section 4.3.1).
pub fn text_of(avp: &Avp) -> Result<&str, FieldFault>
    ensures value { IfOk result (λ x. (x.now ≡ avp.now.octets) × IsUtf8 avp.now.octets) }
    ensures refused { IfErr result (λ f. (f ≡ FieldFault.BadValue) × ¬ (IsUtf8 avp.now.octets)) }
{
    avp.view().as_text()
}

/// The DiameterIdentity that the AVP's data is (RFC 6733 section 4.3.1).
pub fn identity_of(avp: &Avp) -> Result<&[u8], FieldFault>
    ensures value { IfOk result (λ x. (x.now ≡ avp.now.octets) × All (λ o. o < 128) x.now) }
    ensures refused { IfErr result (λ f. (f ≡ FieldFault.BadValue) × Any (λ o. 128 ≤ o) avp.now.octets) }
{
    avp.view().as_identity()
}
