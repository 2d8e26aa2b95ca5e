//! Whether accounts can be opened.
ghost use Rattle.std.specs.Prelude.{◌≡◌, ◌==◌, ◌%◌, ◌<◌, ◌≤◌, [], filter, length, map};
ghost use Rattle.std.specs.List.{list_any};
ghost use Rattle.bench_item.specs.Past.{any_after};
ghost use Rattle.bench_spec.specs.Opening.{is_bad_account};
ghost use Rattle.bench_open.specs.Given.{opened_as};

use crate::account::Account;
use acct_book::{MAX_ACCOUNTS, MAX_GIVEN};

/// Whether an account of that number is among these.
fn is_there(past: &[Account], id: u64) -> bool
    ensures { result ≡ list_any (λ other. id == other.id) past.now }
{
    past.iter().any(|other| id == other.id)
}

/// How many of these are on that page, of so many.
fn count_on(pages: u64, page: u64, past: &[Account]) -> usize
    requires { 0 < pages }
    ensures count { result ≡ length (filter (λ other. other.id % pages == page) past.now) }
    ensures few { result ≤ length past.now }
{
    let mut count = 0;
    for other in past {
        if other.id % pages == page {
            count += 1;
        }
    }
    count
}

/// Whether an account can't be opened behind these: it has no number, is there already, is given too much, or finds
/// its page full.
fn is_bad_account(pages: u64, past: &[Account], account: Account) -> bool
    requires { 0 < pages }
    ensures { result ≡ is_bad_account pages (map opened_as past.now) (opened_as account) }
{
    if account.id == 0 {
        return true;
    }
    if is_there(past, account.id) {
        return true;
    }
    if account.given > MAX_GIVEN {
        return true;
    }
    count_on(pages, account.id % pages, past) >= MAX_ACCOUNTS
}

/// Whether an account can't be opened behind those before it. It is looked for in these one by one; there are at most
/// as many as the pages take.
pub(crate) fn has_bad_account(pages: u64, accounts: &[Account]) -> bool
    requires { 0 < pages }
    ensures { result ≡ any_after (is_bad_account pages) [] (map opened_as accounts.now) }
{
    for (i, account) in accounts.iter().enumerate() {
        if is_bad_account(pages, &accounts[..i], *account) {
            return true;
        }
    }
    false
}
