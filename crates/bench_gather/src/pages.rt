//! Whether the journal of each page is what the log booked on its accounts.
ghost use Rattle.std.specs.Prelude.{◌≡◌, ◌<◌, ◌++◌, ℕ, IfOk, OnOk, filter, length, map, slice_index_or, []};
ghost use Rattle.std.specs.Bool.{Decides};
ghost use Rattle.bench_parts.specs.Views.{kept_in};
ghost use Rattle.bench_spec.specs.Booked.{booked, booked_in};
ghost use Rattle.bench_gather.specs.Checks.{is_on_page, is_same_booked, is_same_op, is_same_outcome, journal_of};
ghost use Rattle.bench_gather.specs.Ordered.{entries_at, entries_by};

use crate::booked::booked_in;
use acct_book::Page;
use acct_totals::{Booked, Op, Outcome};
use bench_item::Entry;
use bench_merge::Placed;
use bench_parts::{Lent, entry_of, is_still};
use std::alloc::{AllocError, Global};
use tab_law::LawBook;

/// Adds those that are on a page, of so many.
fn add_booked(
    all: &mut Vec<Booked>,
    booked: &[Booked],
    pages: u64,
    page: u64,
) -> Result<(), AllocError>
    requires { 0 < pages }
    ensures { OnOk result (all.new.items ≡ all.old.items ++ filter (is_on_page pages page) booked.now) }
{
    for one in booked {
        if one.op.account() % pages == page {
            all.push(*one)?;
        }
    }
    Ok(())
}

/// What of this was booked on a page, of so many.
fn booked_on(
    alloc: Global,
    booked: &[Booked],
    pages: u64,
    page: u64,
) -> Result<Vec<Booked>, AllocError>
    requires { 0 < pages }
    ensures { IfOk result (λ own. own.items ≡ filter (is_on_page pages page) booked.now) }
{
    let mut own = Vec::new(alloc);
    add_booked(&mut own, booked, pages, page)?;
    Ok(own)
}

/// Adds what an entry booked.
fn add_entry(
    alloc: Global,
    all: &mut Vec<Booked>,
    laws: &LawBook,
    entry: &Entry,
) -> Result<(), AllocError>
    ensures { OnOk result (all.new.items ≡ all.old.items ++ booked_in laws.now entry.now) }
{
    let booked = booked_in(alloc, laws, entry)?;
    all.extend_from_slice(&booked)?;
    Ok(())
}

/// Adds what the entry at a place booked, if one stands there. Where no machine moved nothing was booked.
#[tactic(auto, using(crate::proofs::BookLemmas::still_books))]
fn add_at(
    alloc: Global,
    all: &mut Vec<Booked>,
    laws: &LawBook,
    parts: &[Lent<'_>],
    at: Placed,
) -> Result<(), AllocError>
    ensures { OnOk result (all.new.items ≡ all.old.items ++ booked laws.now (entries_at (map kept_in parts.now) at)) }
{
    if is_still(parts, at.part, at.place) {
        return Ok(());
    }
    match entry_of(alloc, parts, at.part, at.place)? {
        None => Ok(()),
        Some(entry) => add_entry(alloc, all, laws, &entry),
    }
}

/// What the log of an order booked.
fn booked_by(
    alloc: Global,
    laws: &LawBook,
    parts: &[Lent<'_>],
    order: &[Placed],
) -> Result<Vec<Booked>, AllocError>
    ensures { IfOk result (λ all. all.items ≡ booked laws.now (entries_by (map kept_in parts.now) order.now)) }
{
    let mut all = Vec::new(alloc);
    for at in order {
        add_at(alloc, &mut all, laws, parts, *at)?;
    }
    Ok(all)
}

/// Whether two operations are one.
fn is_same_op(one: &Op, other: &Op) -> bool
    ensures { result ≡ is_same_op one.now other.now }
{
    match (one, other) {
        (
            Op::Reserve {
                account: a,
                session: b,
                group: c,
                amount: d,
            },
            Op::Reserve {
                account,
                session,
                group,
                amount,
            },
        ) => a == account && b == session && c == group && d == amount,
        (
            Op::Debit {
                account: a,
                session: b,
                group: c,
                used: d,
            },
            Op::Debit {
                account,
                session,
                group,
                used,
            },
        ) => a == account && b == session && c == group && d == used,
        (
            Op::Release {
                account: a,
                session: b,
            },
            Op::Release { account, session },
        ) => a == account && b == session,
        (
            Op::Charge {
                account: a,
                amount: b,
            },
            Op::Charge { account, amount },
        )
        | (
            Op::Refund {
                account: a,
                amount: b,
            },
            Op::Refund { account, amount },
        ) => a == account && b == amount,
        _ => false,
    }
}

/// Whether two outcomes are one.
fn is_same_outcome(one: &Outcome, other: &Outcome) -> bool
    ensures { result ≡ is_same_outcome one.now other.now }
{
    match (one, other) {
        (
            Outcome::Done {
                amount: a,
                unpaid: b,
            },
            Outcome::Done { amount, unpaid },
        ) => a == amount && b == unpaid,
        (Outcome::Refused, Outcome::Refused) => true,
        _ => false,
    }
}

/// Whether two operations with their outcomes are one.
fn is_same(one: &Booked, other: &Booked) -> bool
    ensures { result ≡ is_same_booked one.now other.now }
{
    let op = is_same_op(&one.op, &other.op);
    let outcome = is_same_outcome(&one.outcome, &other.outcome);
    op && outcome
}

/// Whether a journal is this.
fn is_journal(booked: &[Booked], journal: &[Booked]) -> bool
    ensures { Decides result (booked.now ≡ journal.now) }
{
    if booked.len() != journal.len() {
        return false;
    }
    for place in 0..booked.len() {
        if !is_same(&booked[place], &journal[place]) {
            return false;
        }
    }
    true
}

/// Whether each page, of so many, has what the log booked on it.
pub(crate) fn are_booked(
    alloc: Global,
    laws: &LawBook,
    parts: &[Lent<'_>],
    order: &[Placed],
    pages: &[Page],
) -> Result<bool, AllocError>
    ensures { IfOk result (λ same. Decides same ((page : ℕ) → page < length pages.now
        → filter (is_on_page (length pages.now) page)
        (booked laws.now (entries_by (map kept_in parts.now) order.now))
        ≡ slice_index_or (map journal_of pages.now) page [])) }
{
    let count = pages.len() as u64;
    let booked = booked_by(alloc, laws, parts, order)?;
    for page in 0..pages.len() {
        let own = booked_on(alloc, &booked, count, page as u64)?;
        if !is_journal(&own, pages[page].journal()) {
            return Ok(false);
        }
    }
    Ok(true)
}
