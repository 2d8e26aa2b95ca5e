//! What a page keeps beside its journal, so that no answer has to read the journal.
ghost use Rattle.std.specs.Prelude.{◌≡◌, ◌≤◌, ◌<◌, ◌+◌, ◌-◌, ◌^◌, ℕ};
ghost use Rattle.std.specs.Prelude.{[], length, fold, nat_eq};
ghost use Rattle.std.specs.Prelude.{OnOk, OnErr, IfErr, IfSome};
ghost use Rattle.indexmap.specs.IndexMap.{get};
ghost use Rattle.acct_book.specs.Book.{refusal_at};

use crate::error::{NoMemory, OpenError};
use crate::holder::{Holder, Session};
use crate::holds::{Before, Holds};
use crate::limit::{MAX_ACCOUNTS, MAX_GIVEN};
use acct_totals::{Booked, Op, Outcome, Quote, Quoted, Slot, Totals, held_after};
use base_list::AddFault;
use indexmap::IndexMap;
use std::alloc::Global;

// Why an account is not opened on a page that has so many, but for want of memory.
fn refusal(is_open: bool, given: u64, accounts: usize) -> Option<OpenError>
    ensures { result ≡ refusal_at is_open given accounts }
{
    if is_open {
        Some(OpenError::Add(AddFault::Taken))
    } else if given > MAX_GIVEN {
        Some(OpenError::TooLarge)
    } else if accounts >= MAX_ACCOUNTS {
        Some(OpenError::Add(AddFault::Full))
    } else {
        None
    }
}

/// The running totals by account, in the order of opening, the reservations,
/// and the journal with what its operations wrote over.
pub(crate) struct Ledger {
    pub(crate) accounts: IndexMap<u64, Totals>,
    pub(crate) holds: Holds,
    pub(crate) journal: Vec<Booked>,
    pub(crate) befores: Vec<Option<Before>>,
    // So many operations can be booked without memory.
    pub(crate) room: usize,
}

impl Drop for Ledger {
    fn drop(self) {
        let Ledger {
            accounts: _,
            holds: _,
            journal: _,
            befores: _,
            room: _,
        } = self;
    }
}

impl Ledger {
    ghost use Rattle.acct_totals.specs.Answers.{outcome_at};
    ghost use Rattle.acct_book.specs.Book.{after, outcome_of, opened, refusal_of, taken_back};
    ghost use Rattle.acct_totals.specs.Amounts.{account_of, unpaid_of};
    ghost use Rattle.acct_totals.specs.Kept.{IsSound, IsLeft};
    ghost use Rattle.acct_book.specs.Stored.{stored_of, standing, undone, CanCarryOut, IsPlaced};
    ghost use Rattle.acct_book.specs.Served.{left_of, funds_of, quote_in, served};
    ghost use Rattle.acct_book.specs.Ledger.{held_on, book_of, kept, IsKept, IsMarked, HasRoom, Settles, Unsettles};

    /// A ledger without accounts, which has taken no memory yet.
    pub(crate) fn new(alloc: Global) -> Ledger
        ensures book { book_of result ≡ record { accounts = []; journal = [] } }
        ensures room { result.room ≡ 0 }
        ensures kept { IsKept result }
    {
        Ledger {
            accounts: IndexMap::new(alloc),
            holds: Holds::new(alloc),
            journal: Vec::new(alloc),
            befores: Vec::new(alloc),
            room: 0,
        }
    }

    /// Why an account is not opened, but for want of memory.
    pub(crate) fn refusal(&self, account: u64, given: u64) -> Option<OpenError>
        ensures { result ≡ refusal_of (book_of self.now) account given }
    {
        let is_open = self.accounts.contains_key(&account);
        refusal(is_open, given, self.accounts.len())
    }

    /// An account's totals, if it is open.
    pub(crate) fn totals(&self, account: u64) -> Option<Totals>
        ensures { result ≡ get nat_eq self.now.accounts account }
    {
        self.accounts.get(&account).copied()
    }

    /// Opens an account that isn't open.
    pub(crate) fn open(&mut self, account: u64, given: u64) -> Result<(), OpenError>
        requires some { 1 ≤ account }
        requires fresh { get nat_eq self.old.accounts account ≡ None }
        requires small { given ≤ MAX_GIVEN }
        ensures ok { OnOk result (book_of self.new ≡ opened (book_of self.old) account given) }
        ensures room { self.new.room ≡ self.old.room }
        ensures kept { IsKept self.old → IsKept self.new }
        ensures err { OnErr result (book_of self.new ≡ book_of self.old) }
        ensures fault { IfErr result (λ e. e ≡ OpenError.NoMemory) }
    {
        let totals = Totals {
            given,
            reserved: 0,
            debited: 0,
            unpaid: 0,
        };
        self.accounts.insert(account, totals)?;
        Ok(())
    }

    /// Makes room for so many more operations.
    pub(crate) fn make_room(&mut self, n: usize) -> Result<(), NoMemory>
        ensures ok { OnOk result (HasRoom self.new n) }
        ensures book { book_of self.new ≡ book_of self.old }
        ensures room { self.new.room ≡ self.old.room }
        ensures kept { IsKept self.old → IsKept self.new }
    {
        self.journal.reserve(n)?;
        self.befores.reserve(n)?;
        self.holds.make_room(n)?;
        Ok(())
    }

    /// What a session has on an account in a group.
    pub(crate) fn held(&self, account: u64, session: u64, group: u64) -> u64
        ensures { result
            ≡ standing (stored_of self.now.holds) (record { account = account; session = session; group = group }) }
    {
        self.holds.standing(Holder {
            account,
            session,
            group,
        })
    }

    /// The quote of a slot where so much is free and the earlier slots have these quotes,
    /// and what is free once it has been served.
    pub(crate) fn quote_slot(
        &self,
        account: u64,
        session: u64,
        free: u64,
        earlier: &[Quoted],
        slot: Option<Slot>,
    ) -> (Option<Quote>, u64)
        requires { IfSome slot (λ s. funds_of (left_of (stored_of self.now.holds) account session free earlier.now) s
            < 2 ^ 64) }
        ensures quote { result.0 ≡ quote_in (left_of (stored_of self.now.holds) account session free earlier.now) slot }
        ensures free { result.1
            ≡ (served (left_of (stored_of self.now.holds) account session free earlier.now) slot).free }
    {
        let Some(slot) = slot else {
            return (None, free);
        };
        let held = held_after(slot.group, self.held(account, session, slot.group), earlier);
        let (quote, free) = slot.quote(held + free);
        (Some(quote), free)
    }

    // Carries an operation out in the totals and reservations, and answers its outcome with what it wrote over.
    fn settle(&mut self, op: Op) -> (Outcome, Option<Before>)
        requires kept { IsKept self.old }
        requires room { HasRoom self.old 1 }
        requires few { length self.old.journal.items < 2 ^ 63 }
        ensures outcome { result.0 ≡ outcome_of (book_of self.old) op }
        ensures fits { unpaid_of result.0 ≤ 2 ^ 64 }
        ensures settles { Settles self.old op result.0 result.1 self.new }
    {
        match self.totals(op.account()) {
            Some(totals) => self.settle_open(totals, op),
            None => (Outcome::Refused, None),
        }
    }

    // The same, for an account that is open and has these totals.
    fn settle_open(&mut self, totals: Totals, op: Op) -> (Outcome, Option<Before>)
        requires open { get nat_eq self.old.accounts (account_of op) ≡ Some totals }
        requires sound { IsSound totals (held_on (stored_of self.old.holds) op) }
        requires few { totals.unpaid + 2 ^ 64 ≤ 2 ^ 128 }
        requires room { HasRoom self.old 1 }
        requires placed { IsPlaced self.old.holds }
        requires can { CanCarryOut (stored_of self.old.holds) op
            (outcome_at totals (held_on (stored_of self.old.holds) op) op) }
        ensures outcome { result.0 ≡ outcome_at totals (held_on (stored_of self.old.holds) op) op }
        ensures fits { unpaid_of result.0 ≤ 2 ^ 64 }
        ensures settles { Settles self.old op result.0 result.1 self.new }
    {
        let held = self.held_on(op);
        let outcome = totals.outcome(held, op);
        self.accounts
            .insert(op.account(), totals.after(held, op, outcome))
            .unwrap();
        let before = self.holds.carry_out(op, outcome);
        (outcome, before)
    }

    // The reservation that an operation is on, or those of all groups where it is on a session.
    fn held_on(&self, op: Op) -> u64
        ensures { result ≡ held_on (stored_of self.now.holds) op }
    {
        match op {
            Op::Reserve {
                account,
                session,
                group,
                ..
            }
            | Op::Debit {
                account,
                session,
                group,
                ..
            } => self.holds.standing(Holder {
                account,
                session,
                group,
            }),
            Op::Release { account, session } => self.holds.total(Session { account, session }),
            Op::Charge { .. } | Op::Refund { .. } => 0,
        }
    }

    /// The outcome that an operation has where it is booked next.
    pub(crate) fn outcome(&self, op: Op) -> Outcome
        requires { IsKept self.now }
        ensures { result ≡ outcome_of (book_of self.now) op }
    {
        match self.totals(op.account()) {
            Some(totals) => totals.outcome(self.held_on(op), op),
            None => Outcome::Refused,
        }
    }

    /// Books an operation, for which there is room.
    pub(crate) fn book(&mut self, op: Op) -> Outcome
        requires kept { IsKept self.old }
        requires room { HasRoom self.old 1 }
        ensures outcome { result ≡ outcome_of (book_of self.old) op }
        ensures book { book_of self.new ≡ after (book_of self.old) op }
        ensures kept { IsKept self.new }
        ensures room { (n : ℕ) → HasRoom self.old (n + 1) → HasRoom self.new n }
        ensures left { self.new.room ≡ self.old.room - 1 }
    {
        let (outcome, before) = self.settle(op);
        self.journal.push(Booked { op, outcome }).unwrap();
        self.befores.push(before).unwrap();
        self.room = self.room.saturating_sub(1);
        outcome
    }

    /// Books operations in their order, for which there is room.
    pub(crate) fn book_all(&mut self, ops: &[Op])
        requires kept { IsKept self.old }
        requires room { HasRoom self.old (length ops.now) }
        ensures book { book_of self.new ≡ fold after (book_of self.old) ops.now }
        ensures kept { IsKept self.new }
        ensures left { self.new.room ≡ self.old.room - length ops.now }
    {
        for op in ops {
            self.book(*op);
        }
    }

    /// Takes the last operation back, if there is one. Takes no memory.
    pub(crate) fn take_back(&mut self)
        requires kept { IsKept self.old }
        ensures book { book_of self.new ≡ taken_back (book_of self.old) }
        ensures room { self.new.room ≡ self.old.room }
        ensures kept { IsKept self.new }
    {
        let Some(Booked { op, outcome }) = self.journal.pop() else {
            return;
        };
        let before = self.befores.pop().unwrap_or(None);
        self.unsettle(op, outcome, before);
    }

    // Undoes the last operation in the totals and reservations.
    fn unsettle(&mut self, op: Op, outcome: Outcome, before: Option<Before>)
        requires placed { IsPlaced self.old.holds }
        requires marked { IsMarked (stored_of self.old.holds) op before }
        requires left { IsLeft (kept self.old.accounts (account_of op))
            (held_on (undone (stored_of self.old.holds) op before) op) op outcome }
        ensures unsettles { Unsettles self.old op outcome before self.new }
    {
        self.holds.put_back(op, before);
        let held = self.held_on(op);
        if let Some(totals) = self.totals(op.account()) {
            let before = totals.before(held, op, outcome);
            self.accounts.insert(op.account(), before).unwrap();
        }
    }
}
