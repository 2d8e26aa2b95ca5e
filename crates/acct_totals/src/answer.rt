//! What the book says of an account.
ghost use Rattle.std.specs.Prelude.{◌≡◌};
ghost use Rattle.acct_totals.specs.Answers.{quote_from, unknown};

use base_codes::ResultCode;

/// What the account would answer to used and wanted units.
#[derive(Clone, Copy, PartialEq, Eq)]
pub struct Quote {
    /// `Success`, `CreditLimitReached` where units are wanted and there are none,
    /// or `UserUnknown` where there is no such account (RFC 6733 section 7.1, RFC 8506 section 9).
    pub verdict: ResultCode,
    /// The units that can be granted.
    pub offer: u64,
    /// Whether these are the last (Final-Unit-Indication, RFC 8506 section 8.34).
    pub is_final: bool,
    /// The used units that can be paid.
    pub pay: u64,
}

impl Quote {
    /// The quote where a reservation and what is free come to so much.
    pub fn from_funds(funds: u64, used: u64, want: u64) -> Quote
        ensures { result ≡ quote_from funds used want }
    {
        let pay = used.min(funds);
        let left = funds - pay;
        let offer = want.min(left);
        let verdict = if offer >= 1 || want == 0 {
            ResultCode::Success
        } else {
            ResultCode::CreditLimitReached
        };
        let is_final = offer >= 1 && (offer < want || left == offer);
        Quote {
            verdict,
            offer,
            is_final,
            pay,
        }
    }

    /// The quote of an account that is not open.
    pub fn of_unknown() -> Quote
        ensures { result ≡ unknown }
    {
        Quote {
            verdict: ResultCode::UserUnknown,
            offer: 0,
            is_final: false,
            pay: 0,
        }
    }
}

/// Sums over an account, in service units.
#[derive(Clone, Copy, PartialEq, Eq)]
pub struct Totals {
    /// What the account was opened with.
    pub given: u64,
    /// What is set aside for sessions.
    pub reserved: u64,
    /// What was paid and not refunded.
    pub debited: u64,
    /// What was used beyond what could be paid.
    pub unpaid: u128,
}
