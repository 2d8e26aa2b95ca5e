//! Application-Ids (RFC 6733 section 2.4, RFC 8506 section 1.3).

/// Diameter Credit-Control.
pub const CREDIT_CONTROL: u32 = 4;

/// A relay's, which has all applications.
pub const RELAY: u32 = 0xffff_ffff;
