//! The Address type (RFC 6733 section 4.3.1).

ghost use Rattle.std.specs.Prelude.{◌≡◌, false, IfOk, IfErr};
ghost use Rattle.dia_avp.specs.Field.{IsAddress, is_address};

use crate::avp::{Avp, AvpView};
use crate::fault::FieldFault;
use byteorder::{BigEndian, ByteOrder};

/// An address of an Address Family Number: 1 is IPv4, 2 is IPv6. `octets` of another family may have any length.
#[derive(Clone, Copy, PartialEq, Eq)]
pub enum Address<'a> {
    /// Family 1.
    V4([u8; 4]),
    /// Family 2.
    V6([u8; 16]),
    /// Any other family.
    Other { family: u16, octets: &'a [u8] },
}

fn address_in(octets: &[u8]) -> Result<Address<'_>, FieldFault>
    ensures value { IfOk result (IsAddress octets.now) }
    ensures refused { IfErr result (λ f. (f ≡ FieldFault.BadLength) × (is_address octets.now ≡ false)) }
{
    if octets.len() < 2 {
        return Err(FieldFault::BadLength);
    }
    let family = BigEndian::read_u16(octets);
    let address = &octets[2..];
    match family {
        1 => match address.try_into() {
            Ok(four) => Ok(Address::V4(four)),
            Err(_) => Err(FieldFault::BadLength),
        },
        2 => match address.try_into() {
            Ok(sixteen) => Ok(Address::V6(sixteen)),
            Err(_) => Err(FieldFault::BadLength),
        },
        _ => Ok(Address::Other {
            family,
            octets: address,
        }),
    }
}

impl<'a> AvpView<'a> {
    /// The Address that the data is: a family of 2 octets, and behind it 4 octets in family 1, 16 in family 2 and any
    /// number in another (RFC 6733 section 4.3.1).
    pub fn as_address(&self) -> Result<Address<'a>, FieldFault>
        ensures value { IfOk result (IsAddress self.now.octets.now) }
        ensures refused { IfErr result (λ f. (f ≡ FieldFault.BadLength) × (is_address self.now.octets.now ≡ false)) }
    {
        address_in(self.octets)
    }
}

/// The Address that the AVP's data is (RFC 6733 section 4.3.1).
pub fn address_of(avp: &Avp) -> Result<Address<'_>, FieldFault>
    ensures value { IfOk result (IsAddress avp.now.octets) }
    ensures refused { IfErr result (λ f. (f ≡ FieldFault.BadLength) × (is_address avp.now.octets ≡ false)) }
{
    avp.view().as_address()
}
