//! The data of an AVP by its type.

ghost use Rattle.std.specs.Prelude.{◌≡◌, None, Some, IfOk, IfErr, OnOk};
ghost use Rattle.dia_dict.specs.Kind.{fault_of_field, data_fault, IsValueOf};

use crate::definition::AvpKind;
use dia_avp::{Address, AvpView, AvpsIn, FieldFault};

/// The value of an AVP's data, where it was read.
#[derive(Clone, Copy, PartialEq, Eq)]
pub enum Field<'a> {
    /// An Unsigned32, an Enumerated or a Time.
    Number(u32),
    /// An Unsigned64.
    Number64(u64),
    /// A UTF8String.
    Text(&'a str),
    /// A DiameterIdentity.
    Identity(&'a [u8]),
    /// An Address.
    Address(Address<'a>),
    /// A group's AVPs, at most 128.
    Group(AvpsIn<'a>),
    /// An OctetString.
    Octets(&'a [u8]),
}

impl AvpKind {
    /// The value that an AVP's data has by this type. Of a group one level is looked at. Takes no memory.
    pub fn typed<'a>(self, avp: &AvpView<'a>) -> Result<Field<'a>, FieldFault>
        // The data as this type has it, and else the one fault.
        ensures value { IfOk result (IsValueOf self avp.now.octets.now) }
        ensures none { OnOk result (data_fault self avp.now.octets.now ≡ None) }
        ensures fault { IfErr result (λ f. data_fault self avp.now.octets.now ≡ Some (fault_of_field f)) }
    {
        match self {
            AvpKind::Unsigned32 | AvpKind::Enumerated | AvpKind::Time => match avp.as_u32() {
                Ok(number) => Ok(Field::Number(number)),
                Err(fault) => Err(fault),
            },
            AvpKind::Unsigned64 => match avp.as_u64() {
                Ok(number) => Ok(Field::Number64(number)),
                Err(fault) => Err(fault),
            },
            AvpKind::Utf8String => match avp.as_text() {
                Ok(text) => Ok(Field::Text(text)),
                Err(fault) => Err(fault),
            },
            AvpKind::DiameterIdentity => match avp.as_identity() {
                Ok(identity) => Ok(Field::Identity(identity)),
                Err(fault) => Err(fault),
            },
            AvpKind::Address => match avp.as_address() {
                Ok(address) => Ok(Field::Address(address)),
                Err(fault) => Err(fault),
            },
            AvpKind::Grouped => match avp.as_group(1) {
                Ok(group) => Ok(Field::Group(group)),
                Err(fault) => Err(fault),
            },
            AvpKind::OctetString => Ok(Field::Octets(avp.octets)),
        }
    }
}
