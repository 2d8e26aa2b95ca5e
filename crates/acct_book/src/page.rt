//! The page.
ghost use Rattle.std.specs.Prelude.{◌≡◌, ◌≤◌, ◌<◌, ◌+◌, ◌-◌, ◌%◌, [], fold, length, max, unwrap_or};
ghost use Rattle.std.specs.Prelude.{map, IfSome, IfOk, IfErr, OnOk, OnErr};
ghost use Rattle.acct_book.specs.Served.{unknown_in};

use crate::error::{NoMemory, OpenError};
use crate::ledger::Ledger;
use acct_totals::{Booked, Op, Outcome, Quote, Slot, Totals};
use std::alloc::Global;
use std::marker::Model;

// The quote of a slot on an account that is not open.
fn unknown_in(slot: Option<Slot>) -> Option<Quote>
    ensures { result ≡ unknown_in slot }
{
    match slot {
        Some(_) => Some(Quote::of_unknown()),
        None => None,
    }
}

/// A page of the account book, one of so many that share the accounts. A contract sees its number, its accounts in the
/// order of their opening, its journal, and how many operations have room.
///
/// Beside these it keeps each account's totals and each reservation, found by a hash,
/// and what each operation wrote over, so that no call reads the journal.
pub struct Page {
    number: u64,
    pages: u64,
    ledger: Ledger,
}

impl Drop for Page {
    fn drop(self) {
        let Page {
            number: _,
            pages: _,
            ledger: _,
        } = self;
    }
}

impl Model for Page {
    ghost use Rattle.acct_book.specs.Book.{Paged};
    ghost use Rattle.acct_book.specs.Ledger.{book_of, IsKept};

    ghost Value = { Paged };

    ghost view = { λ p. record { number = p.number; pages = p.pages; book = book_of p.ledger; room = p.ledger.room } };

    ghost invariant = { λ p. IsKept p.ledger };
}

impl Page {
    ghost use Rattle.acct_book.specs.Book.{after, outcome_of, quote_of, totals_of, opened, refusal_of, taken_back};
    ghost use Rattle.acct_book.specs.Slots.{quotes_of};
    ghost use Rattle.acct_totals.specs.Answers.{unknown};
    ghost use Rattle.acct_book.specs.Book.{with_book, NeverOver};

    /// The only page of a book, without accounts. Takes no memory until the first is opened.
    pub fn new(alloc: Global) -> Page
        ensures { result ≡ record { number = 0; pages = 1; book = record { accounts = []; journal = [] }; room = 0 } }
    {
        Page::numbered(alloc, 0, 1)
    }

    /// Page `number`, from 0, of a book of so many, without accounts. It is for the accounts whose number, divided by
    /// the count of pages, leaves the page's. Takes no memory until the first is opened.
    pub fn numbered(alloc: Global, number: u64, pages: u64) -> Page
        requires { number < pages }
        ensures { result
            ≡ record { number = number; pages = pages; book = record { accounts = []; journal = [] }; room = 0 } }
    {
        Page {
            number,
            pages,
            ledger: Ledger::new(alloc),
        }
    }

    /// The page's number, from 0, and how many pages there are. Takes no memory.
    pub fn number(&self) -> (u64, u64)
        ensures { result ≡ (self.now.number, self.now.pages) }
    {
        (self.number, self.pages)
    }

    /// Opens an account with `given` units, after those that are open. Its number is that of a Subscription-Id-Data
    /// (RFC 8506 section 8.48); 0 stands for a request that names no account.
    pub fn open_account(&mut self, id: u64, given: u64) -> Result<(), OpenError>
        requires some { 1 ≤ id }
        requires here { id % self.old.pages ≡ self.old.number }
        ensures ok { OnOk result ((refusal_of self.old.book id given ≡ None)
            × (self.new ≡ with_book self.old (opened self.old.book id given) self.old.room)) }
        // The first refusal that applies, and want of memory only where none does.
        ensures fault { IfErr result
            (λ e. e ≡ unwrap_or (refusal_of self.old.book id given) OpenError.NoMemory) }
        ensures err { OnErr result (self.new ≡ self.old) }
    {
        match self.ledger.refusal(id, given) {
            Some(refusal) => Err(refusal),
            None => self.ledger.open(id, given),
        }
    }

    /// What the account would answer to a session and group that used and wants so much. Takes no memory.
    pub fn quote(&self, account: u64, session: u64, group: u64, used: u64, want: u64) -> Quote
        ensures value { result ≡ quote_of self.now.book account session group used want }
        ensures zero { account ≡ 0 → result ≡ unknown }
    {
        let Some(totals) = self.ledger.totals(account) else {
            return Quote::of_unknown();
        };
        let held = self.ledger.held(account, session, group);
        totals.quote(held, used, want)
    }

    /// What the account would answer to the services of one request, slot by slot, each as if what the earlier slots
    /// used were paid and what they are offered were reserved (RFC 8506 section 5.1.2). A slot without a service gets
    /// no quote. Takes no memory.
    pub fn quote_groups(
        &self,
        account: u64,
        session: u64,
        slots: &[Option<Slot>; 4],
    ) -> [Option<Quote>; 4]
        ensures value { result ≡ quotes_of account session self.now.book slots.now }
        ensures zero { account ≡ 0 → result ≡ map unknown_in slots.now }
    {
        let [a, b, c, d] = *slots;
        let Some(totals) = self.ledger.totals(account) else {
            return [unknown_in(a), unknown_in(b), unknown_in(c), unknown_in(d)];
        };
        let free = totals.free();
        let (first, free) = self.ledger.quote_slot(account, session, free, &[], a);
        let (second, free) = self
            .ledger
            .quote_slot(account, session, free, &[(a, first)], b);
        let (third, free) = self
            .ledger
            .quote_slot(account, session, free, &[(a, first), (b, second)], c);
        let (fourth, _) = self.ledger.quote_slot(
            account,
            session,
            free,
            &[(a, first), (b, second), (c, third)],
            d,
        );
        [first, second, third, fourth]
    }

    /// Makes room for so many operations: these need no memory then. An account that is opened takes none of it.
    pub fn reserve_room(&mut self, n: usize) -> Result<(), NoMemory>
        ensures ok { OnOk result (self.new ≡ with_book self.old self.old.book (max self.old.room n)) }
        ensures err { OnErr result (self.new ≡ self.old) }
    {
        let room = self.ledger.room.max(n);
        self.ledger.make_room(room)?;
        self.ledger.room = room;
        Ok(())
    }

    /// The one outcome that the book allows to an operation now, which is not booked. Takes no memory.
    pub fn outcome(&self, op: Op) -> Outcome
        ensures { result ≡ outcome_of self.now.book op }
    {
        self.ledger.outcome(op)
    }

    /// Carries an operation out and books it, with the one outcome that the book allows.
    pub fn apply(&mut self, op: Op) -> Result<Outcome, NoMemory>
        ensures outcome { IfOk result (λ outcome. outcome ≡ outcome_of self.old.book op) }
        ensures book { OnOk result (self.new ≡ with_book self.old (after self.old.book op) (self.old.room - 1)) }
        // Memory can be wanting only where no room was made.
        ensures room { OnErr result (self.old.room ≡ 0) }
        ensures err { OnErr result (self.new ≡ self.old) }
        // Whatever the operation is, of no account is more reserved and debited than was given.
        ensures never_over { NeverOver self.new.book }
    {
        if self.ledger.room == 0 {
            self.ledger.make_room(1)?;
        }
        Ok(self.ledger.book(op))
    }

    /// Carries operations out and books them, in their order, all or none: memory for all is taken before the first.
    /// Their outcomes are at the journal's end.
    pub fn apply_all(&mut self, ops: &[Op]) -> Result<(), NoMemory>
        ensures book { OnOk result (self.new
            ≡ with_book self.old (fold after self.old.book ops.now) (self.old.room - length ops.now)) }
        ensures room { OnErr result (self.old.room < length ops.now) }
        ensures err { OnErr result (self.new ≡ self.old) }
        // Whatever the operations are, of no account is more reserved and debited than was given.
        ensures never_over { NeverOver self.new.book }
    {
        if self.ledger.room < ops.len() {
            self.ledger.make_room(ops.len())?;
        }
        self.ledger.book_all(ops);
        Ok(())
    }

    /// Takes the last operation back: the book is as before it, a Release of many groups too.
    /// The room stays as it is. Takes no memory.
    pub fn take_back(&mut self)
        requires { 0 < length self.old.book.journal }
        ensures taken_back { self.new ≡ with_book self.old (taken_back self.old.book) self.old.room }
        ensures never_over { NeverOver self.new.book }
    {
        self.ledger.take_back();
    }

    /// The sums of an account, if it is open. Takes no memory.
    pub fn totals(&self, account: u64) -> Option<Totals>
        ensures sums { result ≡ totals_of self.now.book account }
        ensures never_over { IfSome result (λ t. t.reserved + t.debited ≤ t.given) }
        ensures zero { account ≡ 0 → result ≡ None }
    {
        self.ledger.totals(account)
    }

    /// All that was booked, in its order. Takes no memory.
    pub fn journal(&self) -> &[Booked]
        ensures { result.now ≡ self.now.book.journal }
    {
        self.ledger.journal.as_slice()
    }
}
