//! One page of the account book: what was given, what is reserved and what was debited, by account, session and group.
#![tactic(auto)]

mod error;
mod holder;
mod holds;
mod law;
mod ledger;
mod limit;
mod page;

pub use acct_totals::{Booked, Op, Outcome, Quote, Slot, Totals, request_verdict};
pub use error::{NoMemory, OpenError};
pub use law::{
    account_stands_alone, answered_is_never_over, reserved_is_sum_of_own, session_is_sum_of_own,
};
pub use limit::{MAX_ACCOUNTS, MAX_GIVEN};
pub use page::Page;
