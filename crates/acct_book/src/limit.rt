//! The limits of a page.

/// The most accounts that a page has.
pub const MAX_ACCOUNTS: usize = 1024;

/// The most units that an account is given, 2^62.
pub const MAX_GIVEN: u64 = 1 << 62;
