//! The reservations as they are kept: a Release ends all of a session at once, and each change can be put back.
ghost use Rattle.std.specs.Prelude.{◌≡◌, ◌<◌, ◌≤◌, ◌+◌, ◌^◌, cond, Some, IsSome, OnOk};
ghost use Rattle.indexmap.specs.IndexMap.{spare, get};
ghost use Rattle.acct_book.specs.Stored.{holder_eq, session_eq, stored_of, standing, standing_in, step_of, added};
ghost use Rattle.acct_book.specs.Stored.{session_of, ended_of, all_ended_of, nothing, undone, with_held};
ghost use Rattle.acct_book.specs.Stored.{with_rounds, IsPlaced, CanCarryOut};
ghost use Rattle.acct_book.specs.Ledger.{IsMarked};

use crate::error::NoMemory;
use crate::holder::{Holder, Session};
use acct_totals::{Op, Outcome};
use indexmap::IndexMap;
use std::alloc::Global;

/// A reservation as it was last written. It stands while no more rounds of its session are over than `round` less one.
#[derive(Clone, Copy, PartialEq, Eq)]
pub(crate) struct Held {
    pub(crate) amount: u64,
    pub(crate) round: u64,
}

/// What is reserved in a session over all its groups, and how many rounds of it a Release has ended.
#[derive(Clone, Copy, PartialEq, Eq)]
pub(crate) struct Rounds {
    pub(crate) total: u64,
    pub(crate) over: u64,
}

/// What an operation wrote over: a reservation, where it was on one, and its session.
#[derive(Clone, Copy, PartialEq, Eq)]
pub(crate) struct Before {
    pub(crate) held: Held,
    pub(crate) rounds: Rounds,
}

impl Before {
    // What the holder had.
    fn standing(&self) -> u64
        ensures { result ≡ standing_in self.now.rounds self.now.held }
    {
        if self.rounds.over < self.held.round {
            self.held.amount
        } else {
            0
        }
    }
}

/// The reservations by holder, and the sessions of these.
#[derive(Drop)]
pub(crate) struct Holds {
    pub(crate) reservations: IndexMap<Holder, Held>,
    pub(crate) sessions: IndexMap<Session, Rounds>,
}

impl Holds {
    /// No reservations. Takes no memory yet.
    pub(crate) fn new(alloc: Global) -> Holds
        ensures stored { stored_of result ≡ nothing }
        ensures placed { IsPlaced result }
    {
        Holds {
            reservations: IndexMap::new(alloc),
            sessions: IndexMap::new(alloc),
        }
    }

    /// Makes room for so many more reservations.
    pub(crate) fn make_room(&mut self, n: usize) -> Result<(), NoMemory>
        ensures room { OnOk result ((n ≤ spare self.new.reservations) × (n ≤ spare self.new.sessions)) }
        ensures stored { stored_of self.new ≡ stored_of self.old }
        ensures kept_room { (spare self.old.reservations ≤ spare self.new.reservations)
            × (spare self.old.sessions ≤ spare self.new.sessions) }
        ensures placed { IsPlaced self.old → IsPlaced self.new }
    {
        self.reservations.reserve(n)?;
        self.sessions.reserve(n)?;
        Ok(())
    }

    // What is kept of a holder's reservation.
    fn held(&self, holder: Holder) -> Held
        ensures { result ≡ (stored_of self.now).at holder }
    {
        let never = Held {
            amount: 0,
            round: 0,
        };
        self.reservations.get(&holder).copied().unwrap_or(never)
    }

    // What is kept of a session.
    fn rounds(&self, session: Session) -> Rounds
        ensures { result ≡ (stored_of self.now).of session }
    {
        let unused = Rounds { total: 0, over: 0 };
        self.sessions.get(&session).copied().unwrap_or(unused)
    }

    // What is kept of a holder's reservation and of its session.
    fn before(&self, holder: Holder) -> Before
        ensures held { result.held ≡ (stored_of self.now).at holder }
        ensures rounds { result.rounds ≡ (stored_of self.now).of (session_of holder) }
    {
        Before {
            held: self.held(holder),
            rounds: self.rounds(holder.session()),
        }
    }

    /// What a holder has.
    pub(crate) fn standing(&self, holder: Holder) -> u64
        ensures { result ≡ standing (stored_of self.now) holder }
    {
        self.before(holder).standing()
    }

    /// What all groups of a session have.
    pub(crate) fn total(&self, session: Session) -> u64
        ensures { result ≡ ((stored_of self.now).of session).total }
    {
        self.rounds(session).total
    }

    // Writes over a reservation that is there.
    fn write(&mut self, holder: Holder, held: Held)
        requires { IsSome (get holder_eq self.old.reservations holder) }
        ensures updates { (other : Holder) → get holder_eq self.new.reservations other
            ≡ cond (holder_eq holder other) (Some held) (get holder_eq self.old.reservations other) }
        ensures sessions { self.new.sessions ≡ self.old.sessions }
        ensures room { spare self.new.reservations ≡ spare self.old.reservations }
    {
        if let Some(place) = self.reservations.get_mut(&holder) {
            *place = held;
        }
    }

    // Writes over a session that is there.
    fn write_session(&mut self, session: Session, rounds: Rounds)
        requires { IsSome (get session_eq self.old.sessions session) }
        ensures updates { (other : Session) → get session_eq self.new.sessions other
            ≡ cond (session_eq session other) (Some rounds) (get session_eq self.old.sessions other) }
        ensures reservations { self.new.reservations ≡ self.old.reservations }
        ensures room { spare self.new.sessions ≡ spare self.old.sessions }
    {
        if let Some(place) = self.sessions.get_mut(&session) {
            *place = rounds;
        }
    }

    // Adds to a reservation, for which there is room.
    fn add(&mut self, holder: Holder, amount: u64) -> Option<Before>
        requires room { (0 < spare self.old.reservations) × (0 < spare self.old.sessions) }
        requires placed { IsPlaced self.old }
        requires fits { standing (stored_of self.old) holder + amount < 2 ^ 64 }
        requires total_fits { ((stored_of self.old).of (session_of holder)).total + amount < 2 ^ 64 }
        requires few { ((stored_of self.old).of (session_of holder)).over < 2 ^ 63 }
        ensures stored { stored_of self.new ≡ (added (stored_of self.old) holder amount).0 }
        ensures before { result ≡ (added (stored_of self.old) holder amount).1 }
        ensures placed { IsPlaced self.new }
        ensures room { (spare self.old.reservations ≤ spare self.new.reservations + 1)
            × (spare self.old.sessions ≤ spare self.new.sessions + 1) }
    {
        if amount == 0 {
            return None;
        }
        let before = self.before(holder);
        let Rounds { total, over } = before.rounds;
        let held = Held {
            amount: before.standing() + amount,
            round: over + 1,
        };
        let rounds = Rounds {
            total: total + amount,
            over,
        };
        self.reservations.insert(holder, held).unwrap();
        self.sessions.insert(holder.session(), rounds).unwrap();
        Some(before)
    }

    // Ends a reservation.
    fn end(&mut self, holder: Holder) -> Option<Before>
        requires placed { IsPlaced self.old }
        requires part { standing (stored_of self.old) holder ≤ ((stored_of self.old).of (session_of holder)).total }
        ensures stored { stored_of self.new ≡ (ended_of (stored_of self.old) holder).0 }
        ensures before { result ≡ (ended_of (stored_of self.old) holder).1 }
        ensures placed { IsPlaced self.new }
        ensures room { (spare self.new.reservations ≡ spare self.old.reservations)
            × (spare self.new.sessions ≡ spare self.old.sessions) }
    {
        let before = self.before(holder);
        let amount = before.standing();
        if amount == 0 {
            return None;
        }
        let Before { held, rounds } = before;
        self.write(holder, Held { amount: 0, ..held });
        let total = rounds.total - amount;
        self.write_session(holder.session(), Rounds { total, ..rounds });
        Some(before)
    }

    // Ends all reservations of a session.
    fn end_all(&mut self, session: Session) -> Option<Before>
        requires placed { IsPlaced self.old }
        requires few { ((stored_of self.old).of session).over < 2 ^ 63 }
        ensures stored { stored_of self.new ≡ (all_ended_of (stored_of self.old) session).0 }
        ensures before { result ≡ (all_ended_of (stored_of self.old) session).1 }
        ensures placed { IsPlaced self.new }
        ensures room { (spare self.new.reservations ≡ spare self.old.reservations)
            × (spare self.new.sessions ≡ spare self.old.sessions) }
    {
        let rounds = self.rounds(session);
        if rounds.total == 0 {
            return None;
        }
        let over = rounds.over + 1;
        self.write_session(session, Rounds { total: 0, over });
        let held = Held {
            amount: 0,
            round: 0,
        };
        Some(Before { held, rounds })
    }

    /// Puts back what the last operation wrote over.
    pub(crate) fn put_back(&mut self, op: Op, before: Option<Before>)
        requires placed { IsPlaced self.old }
        requires marked { IsMarked (stored_of self.old) op before }
        ensures stored { stored_of self.new ≡ undone (stored_of self.old) op before }
        ensures placed { IsPlaced self.new }
        ensures room { (spare self.new.reservations ≡ spare self.old.reservations)
            × (spare self.new.sessions ≡ spare self.old.sessions) }
    {
        let Some(before) = before else {
            return;
        };
        match op {
            Op::Reserve {
                account,
                session,
                group,
                ..
            }
            | Op::Debit {
                account,
                session,
                group,
                ..
            } => self.put_back_one(
                Holder {
                    account,
                    session,
                    group,
                },
                before,
            ),
            Op::Release { account, session } => {
                self.write_session(Session { account, session }, before.rounds);
            }
            Op::Charge { .. } | Op::Refund { .. } => {}
        }
    }

    // Puts back a reservation and its session.
    fn put_back_one(&mut self, holder: Holder, before: Before)
        requires placed { IsPlaced self.old }
        requires marked { 0 < ((stored_of self.old).at holder).round }
        ensures stored { stored_of self.new
            ≡ with_rounds (with_held (stored_of self.old) holder before.held) (session_of holder) before.rounds }
        ensures placed { IsPlaced self.new }
        ensures room { (spare self.new.reservations ≡ spare self.old.reservations)
            × (spare self.new.sessions ≡ spare self.old.sessions) }
    {
        self.write(holder, before.held);
        self.write_session(holder.session(), before.rounds);
    }

    /// Carries an operation out that had this outcome, and tells what it wrote over.
    pub(crate) fn carry_out(&mut self, op: Op, outcome: Outcome) -> Option<Before>
        requires room { (0 < spare self.old.reservations) × (0 < spare self.old.sessions) }
        requires placed { IsPlaced self.old }
        requires can { CanCarryOut (stored_of self.old) op outcome }
        ensures stored { stored_of self.new ≡ (step_of (stored_of self.old) op outcome).0 }
        ensures before { result ≡ (step_of (stored_of self.old) op outcome).1 }
        ensures placed { IsPlaced self.new }
        ensures room { (spare self.old.reservations ≤ spare self.new.reservations + 1)
            × (spare self.old.sessions ≤ spare self.new.sessions + 1) }
    {
        match op {
            Op::Reserve {
                account,
                session,
                group,
                ..
            } => self.add(
                Holder {
                    account,
                    session,
                    group,
                },
                outcome.amount(),
            ),
            Op::Debit {
                account,
                session,
                group,
                ..
            } => self.end(Holder {
                account,
                session,
                group,
            }),
            Op::Release { account, session } => self.end_all(Session { account, session }),
            Op::Charge { .. } | Op::Refund { .. } => None,
        }
    }
}
