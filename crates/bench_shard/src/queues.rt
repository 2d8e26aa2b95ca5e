//! What comes to a shard, what is carried on from it, and pauses.
ghost use Rattle.std.specs.Prelude.{◌≡◌, ◌≤◌, ◌∷◌, [], None, Ok, IfOk, IfErr, OnOk, OnErr, IsTrue, false};
ghost use Rattle.std.specs.Prelude.{true, length, option_copied};
ghost use Rattle.bench_queue.specs.Inbox.{items_in, put_in, without_in};
ghost use Rattle.bench_queue.specs.Outbox.{can_lift, dropped_one, hand_out, has_hand, lifted_one};
ghost use Rattle.bench_queue.specs.Outbox.{next_out, undropped_one, unlifted_one};
ghost use Rattle.bench_spec.specs.Refusal.{is_crowded};
ghost use Rattle.bench_shard.specs.View.{put_error, with_inbox, with_outbox, with_paused};

use crate::fault::PutError;
use crate::state::ShardState;
use bench_item::{Item, MAX_WAITING, MachineItem};
use bench_log::{KeptItem, KeptMachineItem};
use std::alloc::{AllocError, Global};

impl ShardState {
    // Whether as many items wait as may.
    fn is_crowded(&self) -> bool
        ensures { result ≡ is_crowded (items_in self.now.inbox) }
    {
        self.waiting() >= MAX_WAITING
    }

    /// An item comes, behind the others. It is to be for this shard.
    pub fn put(&mut self, item: &MachineItem) -> Result<(), PutError>
        ensures ok { OnOk result (self.new ≡ with_inbox self.old (put_in self.old.inbox (item.now ∷ []))) }
        ensures free { OnOk result (is_crowded (items_in self.old.inbox) ≡ false) }
        ensures undone { OnOk result (with_inbox self.new (without_in self.new.inbox 1) ≡ self.old) }
        ensures fault { IfErr result (λ e. e ≡ put_error self.old) }
        // A refused call changes nothing.
        ensures err { OnErr result (self.new ≡ self.old) }
    {
        if self.is_crowded() {
            return Err(PutError::Full);
        }
        let kept = KeptMachineItem::keep(self.alloc, item)?;
        self.inbox.reserve(1)?;
        self.inbox.put(kept);
        Ok(())
    }

    /// The same of an item that is kept already.
    pub fn put_kept(&mut self, item: KeptMachineItem) -> Result<(), PutError>
        ensures ok { OnOk result (self.new ≡ with_inbox self.old (put_in self.old.inbox (item ∷ []))) }
        ensures free { OnOk result (is_crowded (items_in self.old.inbox) ≡ false) }
        ensures undone { OnOk result (with_inbox self.new (without_in self.new.inbox 1) ≡ self.old) }
        ensures fault { IfErr result (λ e. e ≡ put_error self.old) }
        ensures err { OnErr result (self.new ≡ self.old) }
    {
        if self.is_crowded() {
            return Err(PutError::Full);
        }
        self.inbox.reserve(1)?;
        self.inbox.put(item);
        Ok(())
    }

    /// The item that came last never came, unless it was handled. Takes no memory.
    pub fn unput(&mut self)
        ensures { self.new ≡ with_inbox self.old (without_in self.old.inbox 1) }
    {
        self.inbox.unput(1);
    }

    /// Whether an item lies in its hand.
    pub fn has_hand(&self) -> bool
        ensures { result ≡ has_hand self.now.outbox }
    {
        self.outbox.has_hand()
    }

    /// The oldest item that it put out and that waits, if one does.
    pub fn next_post(&self, alloc: Global) -> Result<Option<Item>, AllocError>
        ensures item { IfOk result (λ item. item ≡ next_out self.now.outbox) }
        ensures none { length self.now.outbox.posts ≤ self.now.outbox.lifted → result ≡ Ok None }
    {
        self.outbox.next(alloc)
    }

    /// The oldest item that it put out and that waits as it is kept, if one does. Takes no memory.
    pub fn next_post_kept(&self) -> Option<&KeptItem>
        ensures { option_copied result ≡ next_out self.now.outbox }
    {
        self.outbox.next_kept()
    }

    /// The item in its hand, if one lies there.
    pub fn hand(&self, alloc: Global) -> Result<Option<Item>, AllocError>
        ensures item { IfOk result (λ item. item ≡ hand_out self.now.outbox) }
        ensures none { self.now.outbox.lifted ≤ self.now.outbox.dropped → result ≡ Ok None }
    {
        self.outbox.hand(alloc)
    }

    /// The item in its hand as it is kept, if one lies there. Takes no memory.
    pub fn hand_kept(&self) -> Option<&KeptItem>
        ensures { option_copied result ≡ hand_out self.now.outbox }
    {
        self.outbox.hand_kept()
    }

    /// Lifts the oldest item that waits into the hand, where one waits and the hand is empty;
    /// else changes nothing. Says which.
    pub fn lift(&mut self) -> bool
        ensures is { result ≡ can_lift self.old.outbox }
        ensures lifted { self.new ≡ with_outbox self.old (lifted_one self.old.outbox) }
        ensures undone { IsTrue result → with_outbox self.new (unlifted_one self.new.outbox) ≡ self.old }
    {
        self.outbox.lift()
    }

    /// The item in the hand, if one lies there, waits again.
    pub fn unlift(&mut self)
        ensures { self.new ≡ with_outbox self.old (unlifted_one self.old.outbox) }
    {
        self.outbox.unlift();
    }

    /// Drops the item in the hand, where one lies there; else changes nothing. Says which.
    pub fn drop_hand(&mut self) -> bool
        ensures is { result ≡ has_hand self.old.outbox }
        ensures dropped { self.new ≡ with_outbox self.old (dropped_one self.old.outbox) }
        ensures undone { IsTrue result → with_outbox self.new (undropped_one self.new.outbox) ≡ self.old }
    {
        self.outbox.drop_hand()
    }

    /// The item that was dropped last, if the hand is empty and one was, lies in the hand again.
    pub fn undrop(&mut self)
        ensures { self.new ≡ with_outbox self.old (undropped_one self.old.outbox) }
    {
        self.outbox.undrop();
    }

    /// Stops: it handles nothing until it resumes.
    pub fn pause(&mut self)
        ensures { self.new ≡ with_paused self.old true }
    {
        self.paused = true;
    }

    /// Goes on.
    pub fn resume(&mut self)
        ensures { self.new ≡ with_paused self.old false }
    {
        self.paused = false;
    }
}
