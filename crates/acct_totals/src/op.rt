//! What may be asked of the book, and what it answers.
ghost use Rattle.std.specs.Prelude.{◌≡◌};
ghost use Rattle.acct_totals.specs.Amounts.{account_of, amount_of, unpaid_of};

/// An operation on an account. A `session` is the number of a Session-Id (RFC 6733 section 8.8), a `group` that of a
/// Rating-Group (RFC 8506 section 8.29) or 0, and the amounts are service units (RFC 8506 sections 8.17 to 8.19).
#[derive(Clone, Copy, PartialEq, Eq)]
pub enum Op {
    /// Sets units aside for a session (RFC 8506 sections 5.2 and 5.3).
    Reserve {
        account: u64,
        session: u64,
        group: u64,
        amount: u64,
    },
    /// Ends a reservation and pays the units that were used (RFC 8506 sections 5.3 and 5.4).
    Debit {
        account: u64,
        session: u64,
        group: u64,
        used: u64,
    },
    /// Ends the reservations of all groups of a session and pays nothing.
    Release {
        account: u64,
        session: u64,
    },
    /// Pays units without a reservation (RFC 8506 section 6.3).
    Charge {
        account: u64,
        amount: u64,
    },
    /// Gives paid units back (RFC 8506 section 6.4).
    Refund {
        account: u64,
        amount: u64,
    },
}

impl Op {
    /// The account that the operation is on.
    pub fn account(&self) -> u64
        ensures { result ≡ account_of self.now }
    {
        match *self {
            Op::Reserve { account, .. }
            | Op::Debit { account, .. }
            | Op::Release { account, .. }
            | Op::Charge { account, .. }
            | Op::Refund { account, .. } => account,
        }
    }
}

/// What became of an operation.
#[derive(Clone, Copy, PartialEq, Eq)]
pub enum Outcome {
    /// The units that were moved, and of a Debit those that were used and could not be paid.
    Done { amount: u64, unpaid: u64 },
    /// Nothing was moved: the account lacks the units, or it is unknown.
    Refused,
}

impl Outcome {
    /// The units that were moved.
    pub fn amount(&self) -> u64
        ensures { result ≡ amount_of self.now }
    {
        match *self {
            Outcome::Done { amount, .. } => amount,
            Outcome::Refused => 0,
        }
    }

    /// The used units that could not be paid.
    pub fn unpaid(&self) -> u64
        ensures { result ≡ unpaid_of self.now }
    {
        match *self {
            Outcome::Done { unpaid, .. } => unpaid,
            Outcome::Refused => 0,
        }
    }
}

/// An operation with what became of it, as the journal has it.
#[derive(Clone, Copy, PartialEq, Eq)]
pub struct Booked {
    pub op: Op,
    pub outcome: Outcome,
}
