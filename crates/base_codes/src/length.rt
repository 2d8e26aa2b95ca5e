//! Lengths of messages and AVPs, in octets (RFC 6733 sections 3 and 4.1).

/// The one version of Diameter.
pub const VERSION: u8 = 1;

/// A message's header.
pub const HEADER_LEN: usize = 20;

/// An AVP's header without a Vendor-ID.
pub const AVP_HEADER_LEN: usize = 8;

/// An AVP's header with a Vendor-ID.
pub const AVP_VENDOR_HEADER_LEN: usize = 12;

/// The greatest Message Length and AVP Length: 24 bits.
pub const MAX_LENGTH: usize = 0xff_ffff;
