//! What an account with these totals answers, and what an operation leaves: numbers alone.
ghost use Rattle.std.specs.Prelude.{◌≡◌, ◌≤◌, ◌<◌, ◌+◌, ◌^◌, nat_le, if◌then◌else◌};
ghost use Rattle.acct_totals.specs.declared.op.Outcome.TheVariants.{Done, Refused};
ghost use Rattle.acct_totals.specs.Amounts.{unpaid_of};
ghost use Rattle.acct_totals.specs.Answers.{free_of, quote_at, outcome_at};
ghost use Rattle.acct_totals.specs.Kept.{IsSound, totals_after, totals_before, IsLeft};

use crate::answer::{Quote, Totals};
use crate::op::{Op, Outcome};

impl Totals {
    /// What is neither reserved nor debited.
    pub fn free(&self) -> u64
        requires { self.now.reserved + self.now.debited ≤ self.now.given }
        ensures { result ≡ free_of self.now }
    {
        self.given - self.debited - self.reserved
    }

    /// What the account answers to a holder of a reservation who used and wants so much.
    pub fn quote(&self, held: u64, used: u64, want: u64) -> Quote
        requires { IsSound self.now held }
        ensures { result ≡ quote_at self.now held used want }
    {
        Quote::from_funds(held + self.free(), used, want)
    }

    /// The outcome of an operation on a reservation of `held`.
    pub fn outcome(&self, held: u64, op: Op) -> Outcome
        requires { IsSound self.now held }
        ensures allowed { result ≡ outcome_at self.now held op }
        ensures fits { unpaid_of result ≤ 2 ^ 64 }
    {
        match op {
            Op::Reserve { amount, .. } => self.granted(amount),
            Op::Debit { used, .. } => {
                let pay = used.min(held + self.free());
                Outcome::Done {
                    amount: pay,
                    unpaid: used - pay,
                }
            }
            Op::Release { .. } => Outcome::Done {
                amount: held,
                unpaid: 0,
            },
            Op::Charge { amount, .. } => self.granted(amount),
            Op::Refund { amount, .. } => Outcome::Done {
                amount: amount.min(self.debited),
                unpaid: 0,
            },
        }
    }

    // All of the amount where that much is free.
    fn granted(&self, amount: u64) -> Outcome
        requires { self.now.reserved + self.now.debited ≤ self.now.given }
        ensures { result ≡ (if nat_le amount (free_of self.now) then Done amount 0 else Refused) }
    {
        if amount <= self.free() {
            Outcome::Done { amount, unpaid: 0 }
        } else {
            Outcome::Refused
        }
    }

    /// The totals that the operation leaves.
    pub fn after(&self, held: u64, op: Op, outcome: Outcome) -> Totals
        requires sound { IsSound self.now held }
        requires allowed { outcome ≡ outcome_at self.now held op }
        requires few { self.now.unpaid + 2 ^ 64 ≤ 2 ^ 128 }
        ensures { result ≡ totals_after self.now held op outcome }
    {
        let Outcome::Done { amount, unpaid } = outcome else {
            return *self;
        };
        match op {
            Op::Reserve { .. } => Totals {
                reserved: self.reserved + amount,
                ..*self
            },
            Op::Debit { .. } => Totals {
                reserved: self.reserved - held,
                debited: self.debited + amount,
                unpaid: self.unpaid + u128::from(unpaid),
                ..*self
            },
            Op::Release { .. } => Totals {
                reserved: self.reserved - held,
                ..*self
            },
            Op::Charge { .. } => Totals {
                debited: self.debited + amount,
                ..*self
            },
            Op::Refund { .. } => Totals {
                debited: self.debited - amount,
                ..*self
            },
        }
    }

    /// The totals before the operation that left these.
    pub fn before(&self, held: u64, op: Op, outcome: Outcome) -> Totals
        requires { IsLeft self.now held op outcome }
        ensures { result ≡ totals_before self.now held op outcome }
    {
        let moved = outcome.amount();
        match op {
            Op::Reserve { .. } => Totals {
                reserved: self.reserved - moved,
                ..*self
            },
            Op::Debit { .. } => Totals {
                reserved: self.reserved + held,
                debited: self.debited - moved,
                unpaid: self.unpaid - u128::from(outcome.unpaid()),
                ..*self
            },
            Op::Release { .. } => Totals {
                reserved: self.reserved + held,
                ..*self
            },
            Op::Charge { .. } => Totals {
                debited: self.debited - moved,
                ..*self
            },
            Op::Refund { .. } => Totals {
                debited: self.debited + moved,
                ..*self
            },
        }
    }
}
