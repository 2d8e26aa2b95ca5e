//! The pages, each behind its lock.
ghost use Rattle.std.specs.Prelude.{◌≡◌, ◌<◌, ◌%◌, IfOk, vec_len};
ghost use Rattle.std.specs.Fn.{FnOnceReturnsAtMut};
ghost use Rattle.acct_book.specs.Book.{Paged};

use acct_book::Page;
use base_lock::hold;
use std::alloc::{AllocError, Global};
use std::marker::Model;
use std::sync::{Mutex, MutexGuard, Wait};

/// Lends a page to the closure.
fn lend<T, F: FnOnce(&mut Page) -> T>(page: &mut Page, f: F) -> T
    requires { F.IsAlwaysCallable f }
    ensures { FnOnceReturnsAtMut F.FnOnce f page.old result page.new }
{
    f(page)
}

/// The pages of an account book, numbered from 0, each behind a lock of its own. A contract sees how many there are:
/// what a page has booked may change at any time, and whenever its lock is free its totals are those of its journal.
pub struct Pages {
    locks: Vec<Mutex<Page>>,
    // Has room for all pages, for them to be given back without memory.
    room: Vec<Page>,
}

impl Drop for Pages {
    fn drop(self) {
        let Pages { locks, room } = self;
    }
}

impl Model for Pages {
    ghost use Rattle.std.specs.Prelude.{◌≡◌, ◌≤◌, ◌<◌, ℕ, [], vec_len, vec_capacity};

    ghost Value = { ℕ };

    ghost view = { λ p. vec_len p.locks };

    ghost invariant = { λ p. (0 < vec_len p.locks) × (p.room.items ≡ []) × (vec_len p.locks ≤ vec_capacity p.room) };
}

impl Pages {
    /// Pages that were made, each put behind its lock. Page `k` of them is to have that number.
    pub fn keep(alloc: Global, pages: Vec<Page>) -> Result<Pages, AllocError>
        requires { 0 < vec_len pages }
        ensures { IfOk result (λ kept. kept ≡ vec_len pages) }
    {
        let count = pages.len();
        let room = Vec::with_capacity(alloc, count)?;
        let mut locks = Vec::with_capacity(alloc, count)?;
        for page in pages {
            locks.push(Mutex::new(page))?;
        }
        Ok(Pages { locks, room })
    }

    /// So many pages without accounts.
    pub fn new(alloc: Global, count: u64) -> Result<Pages, AllocError>
        requires { 0 < count }
        ensures { IfOk result (λ kept. kept ≡ count) }
    {
        let mut pages = Vec::new(alloc);
        for number in 0..count {
            pages.push(Page::numbered(alloc, number, count))?;
        }
        Pages::keep(alloc, pages)
    }

    /// How many pages there are. Takes no memory.
    pub fn count(&self) -> u64
        ensures count { result ≡ self.now }
        ensures some { 0 < result }
    {
        self.locks.len() as u64
    }

    /// The number of the page that an account is on. Takes no memory.
    pub fn page_of(&self, account: u64) -> u64
        ensures page { result ≡ account % self.now }
        ensures there { result < self.now }
    {
        account % self.count()
    }

    /// Takes the lock of a page, lends the page to the closure and answers what that answers.
    /// Waits for the lock: the closure is to take no other one, and not this one again.
    pub fn with_page<R: Wait, T, F: FnOnce(&mut Page) -> T>(&self, rt: &R, number: u64, f: F) -> T
        requires there { number < self.now }
        requires callable { F.IsAlwaysCallable f }
        // The closure is called, once, on a page: the answer is its answer.
        ensures called { (old : Paged) × (new : Paged) × FnOnceReturnsAtMut F.FnOnce f old result new }
    {
        let mut page = hold(rt, &self.locks[number as usize]);
        lend(&mut page, f)
    }

    /// Takes the lock of a page. It is held as long as the guard is there.
    /// Waits for the lock: whoever holds it is to take no other one, and not this one again.
    pub fn lock<R: Wait>(&self, rt: &R, number: u64) -> MutexGuard<'_, Page>
        requires { number < self.now }
    {
        hold(rt, &self.locks[number as usize])
    }

    /// The pages without their locks, in order of their numbers. Takes no memory.
    pub fn into_pages(self) -> Vec<Page>
        ensures { vec_len result ≡ self }
    {
        let Pages { locks, mut room } = self;
        for lock in locks {
            room.push(lock.into_inner()).unwrap();
        }
        room
    }
}
