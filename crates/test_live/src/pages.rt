//! The pages of the account book, each behind its lock.
use acct_book::{Op, Page};
use acct_pages::Pages;
use std::alloc::AllocError;
use std::sync::Wait;
use std::thread::join;

const PAGES: u64 = 3;

/// On page 1 of three.
const ACCOUNT: u64 = 100;

const GIVEN: u64 = 10_000;

const TURNS: u64 = 1_000;

/// Opens the account, where the page is its own.
fn open(page: &mut Page) -> bool {
    let (number, count) = page.number();
    count == PAGES && ACCOUNT % PAGES == number && page.open_account(ACCOUNT, GIVEN).is_ok()
}

/// Charges one unit.
fn charge(page: &mut Page) -> bool {
    let op = Op::Charge {
        account: ACCOUNT,
        amount: 1,
    };
    page.apply(op).is_ok()
}

/// Charges one unit again and again. Says whether each was booked.
fn charge_often(rt: &impl Wait, pages: &Pages) -> bool {
    let mut all = true;
    for _turn in 0..TURNS {
        let number = pages.page_of(ACCOUNT);
        if !pages.with_page(rt, number, charge) {
            all = false;
        }
    }
    all
}

/// What the account has debited.
fn debited(page: &Page) -> Option<u64> {
    match page.totals(ACCOUNT) {
        None => None,
        Some(totals) => Some(totals.debited),
    }
}

#[test]
fn each_page_has_its_number_and_its_lock(rt: HostRuntime) -> Result<(), AllocError> {
    let pages = Pages::new(rt.alloc(), PAGES)?;
    assert!(rt; pages.count() == PAGES);
    for number in 0..PAGES {
        let seen = pages.with_page(&rt, number, |page| page.number());
        assert!(rt; seen == (number, PAGES));
    }
    // Under the lock of one page another can be had.
    let inner = pages.with_page(
        &rt,
        0,
        |_page| pages.with_page(&rt, 2, |page| page.number()),
    );
    assert!(rt; inner == (2, PAGES));
    Ok(())
}

#[test]
fn accounts_have_the_page_of_their_number(rt: HostRuntime) -> Result<(), AllocError> {
    let pages = Pages::new(rt.alloc(), PAGES)?;
    for (account, page) in [(1, 1), (3, 0), (100, 1), (u64::MAX, 0)] {
        assert!(rt; pages.page_of(account) == page);
    }
    Ok(())
}

#[test]
fn what_two_threads_book_on_a_page_is_all_there(rt: HostRuntime) -> Result<(), AllocError> {
    let pages = Pages::new(rt.alloc(), PAGES)?;
    assert!(rt; pages.with_page(&rt, pages.page_of(ACCOUNT), open));
    let (one, other) = join(
        &rt,
        || charge_often(&rt, &pages),
        || charge_often(&rt, &pages),
    );
    assert!(rt; one && other);
    let kept = pages.into_pages();
    assert!(rt; kept.len() == 3);
    assert!(rt; debited(&kept[1]) == Some(2 * TURNS) && debited(&kept[0]) == None);
    assert!(rt; kept[1].journal().len() == 2_000 && kept[2].journal().is_empty());
    Ok(())
}
