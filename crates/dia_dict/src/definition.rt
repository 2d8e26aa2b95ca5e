//! What the dictionary says of one AVP: its code, its name and the type of its data.
ghost use Rattle.std.specs.Prelude.{◌≡◌};
ghost use Rattle.dia_dict.specs.Kind.{least_size};

use base_list::Octets;

/// The type of an AVP's data (RFC 6733 sections 4.2 and 4.3.1).
#[derive(Clone, Copy, Debug, PartialEq, Eq)]
pub enum AvpKind {
    /// 4 octets, a number in network byte order.
    Unsigned32,
    /// 8 octets, a number in network byte order.
    Unsigned64,
    /// 4 octets, one of the values that the AVP's definition lists. Any number is read.
    Enumerated,
    /// Text in UTF-8.
    Utf8String,
    /// A host or realm name in ASCII.
    DiameterIdentity,
    /// An Address Family Number of 2 octets and an address of that family.
    Address,
    /// AVPs, one after the other.
    Grouped,
    /// 4 octets, seconds since 1900, read as a number.
    Time,
    /// Any octets.
    OctetString,
}

impl AvpKind {
    /// The size of data of this type where it is fixed, else 0.
    /// So many zeros stand for data of a bad length in Failed-AVP (RFC 6733 section 7.5).
    pub fn least_size(self) -> usize
        ensures { result ≡ least_size self }
    {
        match self {
            AvpKind::Unsigned32 | AvpKind::Enumerated | AvpKind::Time => 4,
            AvpKind::Unsigned64 => 8,
            AvpKind::Utf8String
            | AvpKind::DiameterIdentity
            | AvpKind::Address
            | AvpKind::Grouped
            | AvpKind::OctetString => 0,
        }
    }
}

/// What the dictionary says of an AVP. `vendor` is its Vendor-ID;
/// the AVPs of the base protocol and of credit control have none, and 0 counts as none (RFC 6733 section 4.1).
#[derive(Debug)]
pub struct Definition {
    pub code: u32,
    pub vendor: Option<u32>,
    pub name: Octets,
    pub kind: AvpKind,
}

// A derived `drop` is proved anew in each crate that holds a definition; this one is a call.
impl Drop for Definition {
    fn drop(self) {
        let Definition {
            code: _,
            vendor: _,
            name,
            kind: _,
        } = self;
    }
}
