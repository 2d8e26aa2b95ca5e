//! What comes to a shard.
ghost use Rattle.std.specs.Prelude.{◌≡◌, ◌<◌, ◌≤◌, ◌∷◌, ◌-◌, [], None, Ok, IsOk, IfOk, OnOk, OnErr, IsTrue};
ghost use Rattle.std.specs.Prelude.{length, max, nat_lt, option_copied};
ghost use Rattle.bench_queue.specs.Inbox.{InboxState, items_in, next_in, nothing_in, put_in, unworked_one};
ghost use Rattle.bench_queue.specs.Inbox.{waiting_in, without_in, worked_one};

use bench_item::{MachineItem, Series};
use bench_log::KeptMachineItem;
use std::alloc::{AllocError, Global};
use std::marker::Model;

/// The items that came to a shard, in order. The oldest that waits is handled. All of them stay, so that each call
/// can be taken back without memory. A contract sees the plain items and how many were handled, and how many more
/// can be put without memory.
///
/// In: `reserve`, `put`, taken back by `unput`. Out: `work_one`, taken back by `unwork`.
/// Looks: `waiting`, `next`, `next_kept`, `items`.
pub struct Inbox {
    items: Vec<KeptMachineItem>,
    worked: usize,
    // So many items can be put without memory.
    room: usize,
}

// A derived `drop` is proved anew in each crate that holds an inbox; this one is a call.
impl Drop for Inbox {
    fn drop(self) {
        let Inbox {
            items,
            worked: _,
            room: _,
        } = self;
    }
}

impl Model for Inbox {
    ghost use Rattle.std.specs.Prelude.{◌+◌, ◌≤◌, vec_len, vec_capacity};
    ghost use Rattle.bench_queue.specs.Inbox.{InboxState};

    ghost Value = { InboxState };

    ghost view = { λ b. record { view = record { items = b.items.items; worked = b.worked }; room = b.room } };

    ghost invariant = { λ b. (b.worked ≤ vec_len b.items) × (vec_len b.items + b.room ≤ vec_capacity b.items) };
}

impl Inbox {
    /// Nothing came. Takes no memory.
    pub fn new(alloc: Global) -> Inbox
        ensures { result ≡ record { view = nothing_in; room = 0 } }
    {
        Inbox {
            items: Vec::new(alloc),
            worked: 0,
            room: 0,
        }
    }

    /// How many items wait.
    pub fn waiting(&self) -> usize
        ensures count { result ≡ waiting_in self.now.view }
        ensures counted { self.now.view.worked ≤ length self.now.view.items }
    {
        self.items.len() - self.worked
    }

    /// The oldest item that waits, if one does.
    pub fn next(&self, alloc: Global) -> Result<Option<MachineItem>, AllocError>
        ensures item { IfOk result (λ item. item ≡ next_in self.now.view) }
        ensures none { length self.now.view.items ≤ self.now.view.worked → result ≡ Ok None }
    {
        match self.items.get(self.worked) {
            None => Ok(None),
            Some(kept) => Ok(Some(kept.show(alloc)?)),
        }
    }

    /// The oldest item that waits as it is kept, if one does. Takes no memory.
    pub fn next_kept(&self) -> Option<&KeptMachineItem>
        ensures { option_copied result ≡ next_in self.now.view }
    {
        self.items.get(self.worked)
    }

    /// The items that wait, oldest first.
    pub fn items(&self, alloc: Global) -> Result<Series<MachineItem>, AllocError>
        ensures { IfOk result (λ items. items ≡ items_in self.now.view) }
    {
        let items = show_items(alloc, &self.items[self.worked..])?;
        Ok(Series::new(items))
    }

    /// Makes room for so many more items, which can then be put without fail.
    pub fn reserve(&mut self, n: usize) -> Result<(), AllocError>
        ensures ok { OnOk result (self.new ≡ record { view = self.old.view; room = max self.old.room n }) }
        // A refused call changes nothing.
        ensures err { OnErr result (self.new ≡ self.old) }
        ensures there { n ≤ self.old.room → IsOk result }
    {
        self.items.reserve(n)?;
        self.room = self.room.max(n);
        Ok(())
    }

    /// Puts an item in for which there is room. Takes no memory.
    pub fn put(&mut self, item: KeptMachineItem)
        requires { 0 < self.old.room }
        ensures put { self.new ≡ record { view = put_in self.old.view (item ∷ []); room = self.old.room - 1 } }
        ensures undone { without_in self.new.view 1 ≡ self.old.view }
    {
        self.items.push(item).unwrap();
        self.room -= 1;
    }

    /// So many items that came last, as far as they were not handled, never came. Takes no memory.
    pub fn unput(&mut self, n: usize)
        ensures { self.new ≡ record { view = without_in self.old.view n; room = self.old.room } }
    {
        let len = self.items.len().saturating_sub(n);
        self.items.truncate(len.max(self.worked));
    }

    /// The oldest item that waits is handled, where one waits; else changes nothing. Says which.
    pub fn work_one(&mut self) -> bool
        ensures is { result ≡ nat_lt self.old.view.worked (length self.old.view.items) }
        ensures worked { self.new ≡ record { view = worked_one self.old.view; room = self.old.room } }
        ensures undone { IsTrue result → unworked_one self.new.view ≡ self.old.view }
    {
        if self.worked >= self.items.len() {
            return false;
        }
        self.worked += 1;
        true
    }

    /// The item that was handled last, if one was, waits again.
    pub fn unwork(&mut self)
        ensures { self.new ≡ record { view = unworked_one self.old.view; room = self.old.room } }
    {
        self.worked = self.worked.saturating_sub(1);
    }
}

/// The plain items.
fn show_items(alloc: Global, kept: &[KeptMachineItem]) -> Result<Vec<MachineItem>, AllocError>
    ensures { IfOk result (λ plain. plain.items ≡ kept.now) }
{
    let mut plain = Vec::with_capacity(alloc, kept.len())?;
    for item in kept {
        plain.push(item.show(alloc)?)?;
    }
    Ok(plain)
}
