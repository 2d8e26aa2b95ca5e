//! The operations of deeds, and the outcomes that the account book allows to them.

ghost use Rattle.std.specs.Prelude.{◌≡◌, ◌≤◌, ◌+◌, ◌-◌, ◌++◌, ◌∷◌, [], fold, filter, filter_map, length, max};
ghost use Rattle.std.specs.Prelude.{replicate, IfOk};
ghost use Rattle.std.specs.Prelude.{OnOk, OnErr, vec_len, vec_capacity};
ghost use Rattle.acct_book.specs.Book.{after, with_book};
ghost use Rattle.acct_totals.specs.declared.op.Outcome.TheVariants.{Refused};
ghost use Rattle.charge_session.specs.Deeds.{op_of};
ghost use Rattle.bench_spec.specs.Booked.{is_booking, ops_of, outcomes_for, outcomes_of};
ghost use Rattle.bench_move.specs.Moves.{Holds, ops_for, without_last};

use crate::roles::Roles;
use acct_book::Page;
use acct_totals::{Op, Outcome};
use base_codes::DeedCode;
use bench_item::{MachineItem, Moved, Series};
use charge_session::{Want, op_of};
use std::alloc::{AllocError, Global};
use tab_law::Deed;

/// Adds the operations of deeds that came of this want.
fn add_ops(ops: &mut Vec<Op>, want: &Want, deeds: &[Deed]) -> Result<(), AllocError>
    ensures { OnOk result (ops.new.items ≡ ops.old.items ++ filter_map (op_of want.now) deeds.now) }
{
    for deed in deeds {
        if let Some(op) = op_of(deed, want) {
            ops.push(op)?;
        }
    }
    Ok(())
}

/// The operations of deeds that came of an item that asked this: none where it asked nothing.
pub(crate) fn ops_of(
    alloc: Global,
    want: &Option<Want>,
    deeds: &[Deed],
) -> Result<Vec<Op>, AllocError>
    ensures { IfOk result (λ ops. ops.items ≡ ops_of want.now deeds.now) }
{
    let mut ops = Vec::new(alloc);
    if let Some(want) = want {
        add_ops(&mut ops, want, deeds)?;
    }
    Ok(ops)
}

impl Roles {
    /// The operations of the account book that the deeds of a move ask for that an item led to, in order.
    pub fn ops_for(
        &self,
        alloc: Global,
        item: &MachineItem,
        moved: &Moved,
    ) -> Result<Series<Op>, AllocError>
        ensures { IfOk result (λ ops. ops ≡ ops_for self.now.laws item.now moved.now) }
    {
        let want = self.want(item, &moved.before);
        let ops = ops_of(alloc, &want, moved.deeds.as_slice())?;
        Ok(Series::new(ops))
    }
}

/// Whether a deed is one of the book.
fn is_booking(deed: &Deed) -> bool
    ensures { result ≡ is_booking deed.now }
{
    DeedCode::Reserve.number() == deed.code
        || DeedCode::Debit.number() == deed.code
        || DeedCode::Release.number() == deed.code
        || DeedCode::Charge.number() == deed.code
        || DeedCode::Refund.number() == deed.code
}

/// The outcomes of the book's deeds where nothing was asked: each is refused.
fn refused(alloc: Global, deeds: &[Deed]) -> Result<Vec<Outcome>, AllocError>
    ensures { IfOk result (λ outcomes. outcomes.items ≡ replicate (length (filter is_booking deeds.now)) Refused) }
{
    let mut outcomes = Vec::new(alloc);
    for deed in deeds {
        if is_booking(deed) {
            outcomes.push(Outcome::Refused)?;
        }
    }
    Ok(outcomes)
}

/// Makes room for operations.
fn make_room(page: &mut Page, count: usize) -> Result<(), AllocError>
    ensures ok { OnOk result (page.new ≡ with_book page.old page.old.book (max page.old.room count)) }
    ensures err { OnErr result (page.new ≡ page.old) }
{
    match page.reserve_room(count) {
        Ok(()) => Ok(()),
        Err(_) => Err(AllocError),
    }
}

/// Books operations, for which there is room, and adds their outcomes.
fn apply_all(page: &mut Page, ops: &[Op], outcomes: &mut Vec<Outcome>)
    requires room { length ops.now ≤ page.old.room }
    requires memory { vec_len outcomes.old + length ops.now ≤ vec_capacity outcomes.old }
    ensures page { page.new ≡ with_book page.old (fold after page.old.book ops.now) (page.old.room - length ops.now) }
    ensures outcomes { outcomes.new.items ≡ outcomes.old.items ++ outcomes_of page.old.book ops.now }
{
    for op in ops {
        match page.apply(*op) {
            Ok(outcome) => outcomes.push(outcome).unwrap(),
            Err(_) => unreachable!(),
        }
    }
}

/// Takes the last operations back.
fn take_back(page: &mut Page, count: usize)
    requires { count ≤ length page.old.book.journal }
    ensures { page.new ≡ with_book page.old (without_last page.old.book count) page.old.room }
{
    for _ in 0..count {
        page.take_back();
    }
}

/// The outcomes that a page allows to operations, the last of them apart: those before it are booked for it, and taken
/// back.
fn outcomes_with(
    alloc: Global,
    page: &mut Page,
    earlier: &[Op],
    last: Op,
) -> Result<Vec<Outcome>, AllocError>
    ensures outcomes { IfOk result (λ outcomes. outcomes.items ≡ outcomes_of page.old.book (earlier.now ++ last ∷ [])) }
    ensures page { page.new ≡ with_book page.old page.old.book page.new.room }
{
    let mut outcomes = Vec::with_capacity(alloc, earlier.len().saturating_add(1))?;
    make_room(page, earlier.len())?;
    apply_all(page, earlier, &mut outcomes);
    let outcome = page.outcome(last);
    take_back(page, earlier.len());
    outcomes.push(outcome)?;
    Ok(outcomes)
}

/// The outcomes that a page allows to operations, one after the other.
fn page_outcomes(alloc: Global, page: &mut Page, ops: &[Op]) -> Result<Vec<Outcome>, AllocError>
    ensures outcomes { IfOk result (λ outcomes. outcomes.items ≡ outcomes_of page.old.book ops.now) }
    ensures page { page.new ≡ with_book page.old page.old.book page.new.room }
{
    match ops.split_last() {
        None => Ok(Vec::new(alloc)),
        Some((last, earlier)) => outcomes_with(alloc, page, earlier, *last),
    }
}

/// The outcomes of deeds that came of an item that asked this, which are these operations.
pub(crate) fn outcomes_for(
    alloc: Global,
    page: &mut Page,
    want: &Option<Want>,
    deeds: &[Deed],
    ops: &[Op],
) -> Result<Vec<Outcome>, AllocError>
    requires { ops.now ≡ ops_of want.now deeds.now }
    ensures outcomes { IfOk result (λ outcomes. outcomes.items ≡ outcomes_for page.old.book want.now deeds.now) }
    ensures page { page.new ≡ with_book page.old page.old.book page.new.room }
{
    match want {
        None => refused(alloc, deeds),
        Some(_) => page_outcomes(alloc, page, ops),
    }
}

/// Makes room for operations on a page.
pub fn make_page_room(page: &mut Page, count: usize) -> Result<(), AllocError>
    ensures ok { OnOk result (count ≤ page.new.room) }
    ensures page { Holds page.old page.new page.old.book }
{
    match page.reserve_room(count) {
        Ok(()) => Ok(()),
        Err(_) => Err(AllocError),
    }
}

/// Books operations, for which there is room.
pub fn book_ops(page: &mut Page, ops: &[Op])
    requires { length ops.now ≤ page.old.room }
    ensures { Holds page.old page.new (fold after page.old.book ops.now) }
{
    match page.apply_all(ops) {
        Ok(()) => {}
        Err(_) => unreachable!(),
    }
}
