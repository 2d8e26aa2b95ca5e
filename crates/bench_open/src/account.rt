//! An account, as it is opened.

/// An account as it is opened.
#[derive(Clone, Copy)]
pub struct Account {
    /// Its number, from 1: a Subscription-Id-Data (RFC 8506 section 8.48).
    pub id: u64,
    /// The units that it is given.
    pub given: u64,
}
