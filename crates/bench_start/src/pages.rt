//! The pages of the account book.
ghost use Rattle.std.specs.Prelude.{◌≡◌, ◌<◌, ◌%◌, [], None, IfOk, OnOk, false, map};
ghost use Rattle.acct_book.specs.Book.{opened as with_account, refusal_of, with_book};
ghost use Rattle.bench_item.specs.Past.{any_after};
ghost use Rattle.bench_open.specs.Given.{opened_as};
ghost use Rattle.bench_spec.specs.Opening.{is_bad_account};
ghost use Rattle.bench_start.specs.Starting.{page_at_start, pages_at_start};

use acct_book::{OpenError, Page};
use bench_open::Account;
use std::alloc::{AllocError, Global};

/// Opens an account on its page, which does not refuse it.
fn open_account(page: &mut Page, account: Account) -> Result<(), AllocError>
    requires some { 0 < account.id }
    requires here { account.id % page.old.pages ≡ page.old.number }
    requires free { refusal_of page.old.book account.id account.given ≡ None }
    ensures { OnOk result (page.new
        ≡ with_book page.old (with_account page.old.book account.id account.given) page.old.room) }
{
    match page.open_account(account.id, account.given) {
        Ok(()) => Ok(()),
        Err(OpenError::NoMemory) => Err(AllocError),
        Err(OpenError::TooLarge | OpenError::Add(_)) => unreachable!(),
    }
}

/// A page of the account book, of so many, with its accounts.
fn open_page(
    alloc: Global,
    count: u64,
    number: u64,
    accounts: &[Account],
) -> Result<Page, AllocError>
    requires here { number < count }
    requires accounts { any_after (is_bad_account count) [] (map opened_as accounts.now) ≡ false }
    ensures { IfOk result (λ page. page ≡ page_at_start count (map opened_as accounts.now) number) }
{
    let mut page = Page::numbered(alloc, number, count);
    for account in accounts {
        if account.id % count == number {
            open_account(&mut page, *account)?;
        }
    }
    Ok(page)
}

/// The pages of the account book, so many, each with its accounts: those whose number, divided by the count of pages,
/// leaves its own.
pub fn open_pages(alloc: Global, count: u64, accounts: &[Account]) -> Result<Vec<Page>, AllocError>
    requires { any_after (is_bad_account count) [] (map opened_as accounts.now) ≡ false }
    ensures { IfOk result (λ pages. pages.items ≡ pages_at_start count (map opened_as accounts.now)) }
{
    let mut pages = Vec::new(alloc);
    for number in 0..count {
        let page = open_page(alloc, count, number, accounts)?;
        pages.push(page)?;
    }
    Ok(pages)
}
