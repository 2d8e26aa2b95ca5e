//! What a source puts out.
ghost use Rattle.std.specs.Prelude.{◌≡◌, ◌<◌, ◌≤◌, ◌∷◌, ◌-◌, [], None, Ok, IsOk, IfOk, OnOk, OnErr, IsTrue, length};
ghost use Rattle.std.specs.Prelude.{max, option_copied};
ghost use Rattle.bench_queue.specs.Outbox.{IsCounted, OutboxState, can_lift, dropped_one, hand_out, has_hand};
ghost use Rattle.bench_queue.specs.Outbox.{items_out, lifted_one, next_out, nothing_out, put_out, undropped_one};
ghost use Rattle.bench_queue.specs.Outbox.{unlifted_one, waiting_out, without_out};

use bench_item::{Item, Series};
use bench_log::KeptItem;
use std::alloc::{AllocError, Global};
use std::marker::Model;

/// The items that a source put out, in order. The oldest that waits is lifted into the source's hand, which holds at
/// most one, and dropped from there. All of them stay, so that each call can be taken back without memory. A contract
/// sees the plain items, how many were lifted and how many dropped, and how many more can be put without memory.
///
/// In: `reserve`, `put`, `put_all`, taken back by `unput`. Out: `lift`, taken back by `unlift`; `drop_hand`, taken back
/// by `undrop`. Looks: `waiting`, `has_hand`, `next`, `next_kept`, `hand`, `hand_kept`, `items`.
pub struct Outbox {
    posts: Vec<KeptItem>,
    lifted: usize,
    dropped: usize,
    // So many items can be put without memory.
    room: usize,
}

// A derived `drop` is proved anew in each crate that holds an outbox; this one is a call.
impl Drop for Outbox {
    fn drop(self) {
        let Outbox {
            posts,
            lifted: _,
            dropped: _,
            room: _,
        } = self;
    }
}

impl Model for Outbox {
    ghost use Rattle.std.specs.Prelude.{◌+◌, ◌≤◌, vec_len, vec_capacity};
    ghost use Rattle.bench_queue.specs.Outbox.{IsCounted, OutboxState};

    ghost Value = { OutboxState };

    ghost view = { λ o.
        record { view = record { posts = o.posts.items; lifted = o.lifted; dropped = o.dropped }; room = o.room } };

    ghost invariant = { λ o. IsCounted (record { posts = o.posts.items; lifted = o.lifted; dropped = o.dropped })
        × (vec_len o.posts + o.room ≤ vec_capacity o.posts) };
}

impl Outbox {
    /// Nothing was put out. Takes no memory.
    pub fn new(alloc: Global) -> Outbox
        ensures { result ≡ record { view = nothing_out; room = 0 } }
    {
        Outbox {
            posts: Vec::new(alloc),
            lifted: 0,
            dropped: 0,
            room: 0,
        }
    }

    /// How many items wait.
    pub fn waiting(&self) -> usize
        ensures count { result ≡ waiting_out self.now.view }
        ensures counted { IsCounted self.now.view }
    {
        self.posts.len() - self.lifted
    }

    /// Whether an item lies in the hand.
    pub fn has_hand(&self) -> bool
        ensures { result ≡ has_hand self.now.view }
    {
        self.dropped < self.lifted
    }

    /// The oldest item that waits, if one does.
    pub fn next(&self, alloc: Global) -> Result<Option<Item>, AllocError>
        ensures item { IfOk result (λ item. item ≡ next_out self.now.view) }
        ensures none { length self.now.view.posts ≤ self.now.view.lifted → result ≡ Ok None }
    {
        match self.posts.get(self.lifted) {
            None => Ok(None),
            Some(kept) => Ok(Some(kept.show(alloc)?)),
        }
    }

    /// The oldest item that waits as it is kept, if one does. Takes no memory.
    pub fn next_kept(&self) -> Option<&KeptItem>
        ensures { option_copied result ≡ next_out self.now.view }
    {
        self.posts.get(self.lifted)
    }

    /// The item in the hand, if one lies there.
    pub fn hand(&self, alloc: Global) -> Result<Option<Item>, AllocError>
        ensures item { IfOk result (λ item. item ≡ hand_out self.now.view) }
        ensures none { self.now.view.lifted ≤ self.now.view.dropped → result ≡ Ok None }
    {
        let lifted = &self.posts[..self.lifted];
        match lifted.get(self.dropped) {
            None => Ok(None),
            Some(kept) => Ok(Some(kept.show(alloc)?)),
        }
    }

    /// The item in the hand as it is kept, if one lies there. Takes no memory.
    pub fn hand_kept(&self) -> Option<&KeptItem>
        ensures { option_copied result ≡ hand_out self.now.view }
    {
        let lifted = &self.posts[..self.lifted];
        lifted.get(self.dropped)
    }

    /// The items that wait, oldest first.
    pub fn items(&self, alloc: Global) -> Result<Series<Item>, AllocError>
        ensures { IfOk result (λ items. items ≡ items_out self.now.view) }
    {
        let items = show_items(alloc, &self.posts[self.lifted..])?;
        Ok(Series::new(items))
    }

    /// Makes room for so many more items, which can then be put without fail.
    pub fn reserve(&mut self, n: usize) -> Result<(), AllocError>
        ensures ok { OnOk result (self.new ≡ record { view = self.old.view; room = max self.old.room n }) }
        // A refused call changes nothing.
        ensures err { OnErr result (self.new ≡ self.old) }
        ensures there { n ≤ self.old.room → IsOk result }
    {
        self.posts.reserve(n)?;
        self.room = self.room.max(n);
        Ok(())
    }

    /// Puts an item out for which there is room. Takes no memory.
    pub fn put(&mut self, item: KeptItem)
        requires { 0 < self.old.room }
        ensures put { self.new ≡ record { view = put_out self.old.view (item ∷ []); room = self.old.room - 1 } }
        ensures undone { without_out self.new.view 1 ≡ self.old.view }
    {
        self.posts.push(item).unwrap();
        self.room -= 1;
    }

    /// Puts items out for which there is room. Takes no memory.
    pub fn put_all(&mut self, items: Vec<KeptItem>)
        requires { length items.items ≤ self.old.room }
        ensures put { self.new
            ≡ record { view = put_out self.old.view items.items; room = self.old.room - length items.items } }
        ensures undone { without_out self.new.view (length items.items) ≡ self.old.view }
    {
        let count = items.len();
        let mut items = items;
        self.posts.append(&mut items).unwrap();
        self.room -= count;
    }

    /// So many items that were put out last, as far as they were not lifted, were never put out. Takes no memory.
    pub fn unput(&mut self, n: usize)
        ensures { self.new ≡ record { view = without_out self.old.view n; room = self.old.room } }
    {
        let len = self.posts.len().saturating_sub(n);
        self.posts.truncate(len.max(self.lifted));
    }

    /// Lifts the oldest item that waits into the hand, where one waits and the hand is empty;
    /// else changes nothing. Says which.
    pub fn lift(&mut self) -> bool
        ensures is { result ≡ can_lift self.old.view }
        ensures lifted { self.new ≡ record { view = lifted_one self.old.view; room = self.old.room } }
        ensures undone { IsTrue result → unlifted_one self.new.view ≡ self.old.view }
    {
        if self.lifted >= self.posts.len() || self.dropped != self.lifted {
            return false;
        }
        self.lifted += 1;
        true
    }

    /// The item in the hand, if one lies there, waits again.
    pub fn unlift(&mut self)
        ensures { self.new ≡ record { view = unlifted_one self.old.view; room = self.old.room } }
    {
        if self.dropped < self.lifted {
            self.lifted -= 1;
        }
    }

    /// Drops the item in the hand, where one lies there; else changes nothing. Says which.
    pub fn drop_hand(&mut self) -> bool
        ensures is { result ≡ has_hand self.old.view }
        ensures dropped { self.new ≡ record { view = dropped_one self.old.view; room = self.old.room } }
        ensures undone { IsTrue result → undropped_one self.new.view ≡ self.old.view }
    {
        if self.dropped >= self.lifted {
            return false;
        }
        self.dropped += 1;
        true
    }

    /// The item that was dropped last, if the hand is empty and one was, lies in the hand again.
    pub fn undrop(&mut self)
        ensures { self.new ≡ record { view = undropped_one self.old.view; room = self.old.room } }
    {
        if self.dropped == self.lifted && self.dropped > 0 {
            self.dropped -= 1;
        }
    }
}

/// The plain items.
fn show_items(alloc: Global, kept: &[KeptItem]) -> Result<Vec<Item>, AllocError>
    ensures { IfOk result (λ plain. plain.items ≡ kept.now) }
{
    let mut plain = Vec::with_capacity(alloc, kept.len())?;
    for item in kept {
        plain.push(item.show(alloc)?)?;
    }
    Ok(plain)
}
