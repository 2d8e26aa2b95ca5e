//! A shard's next item: what is to become of it is found out, and nothing changes.
ghost use Rattle.std.specs.Prelude.{◌≡◌, ◌↔◌, [], None, Some, IfOk, IfSome, IsSome, IsTrue, option_to_list};
ghost use Rattle.acct_book.specs.Book.{Book};
ghost use Rattle.acct_book.specs.Book.{with_book};
ghost use Rattle.bench_spec.specs.Booked.{want_of};
ghost use Rattle.bench_queue.specs.Inbox.{next_in};
ghost use Rattle.bench_shard.specs.Tasks.{IsTask, fate_of, want_by};
ghost use Rattle.bench_shard.specs.View.{number_for, state_for};
ghost use Rattle.bench_shard.specs.Works.{AreEffects, BecomesIn, Fits, IsWork};

use crate::state::ShardState;
use crate::task::{Fate, Task};
use crate::work::{Effects, Work};
use acct_book::Page;
use bench_item::{Handled, Item, MachineItem, Moved, Role, Series};
use bench_log::{KeptHandled, KeptItem, KeptMachineItem, KeptState};
use bench_move::{Decided, Roles};
use bench_post::busy_posts;
use charge_session::Want;
use std::alloc::{AllocError, Global};
use tab_call::Registry;
use tab_step::Stepped;

/// One item, or none, as a list.
fn list_of(alloc: Global, item: Option<Item>) -> Result<Vec<KeptItem>, AllocError>
    ensures { IfOk result (λ items. items.items ≡ option_to_list item) }
{
    let mut items = Vec::new(alloc);
    if let Some(item) = item {
        items.push(KeptItem::new(alloc, item)?)?;
    }
    Ok(items)
}

/// An item that leads to nothing.
fn no_effects(alloc: Global) -> Effects
    ensures { (result.posts.items ≡ []) × (result.ops ≡ []) }
{
    Effects {
        posts: Vec::new(alloc),
        ops: Series::empty(alloc),
    }
}

impl ShardState {
    // What an item asks of the account book to which that is to become, in its machine, which stands there. Only a
    // server's session asks something, so that others' registers are not read.
    fn want_by(
        &self,
        roles: &Roles,
        fate: Fate,
        item: &MachineItem,
        before: &KeptState,
    ) -> Option<Want>
        requires { before.now ≡ state_for self.now item.now.key }
        ensures { result ≡ want_by fate roles.now.laws self.now item.now }
    {
        match (fate, item.key.role) {
            (Fate::Moves, Role::Server) => roles.want(item, &before.show()),
            _ => None,
        }
    }

    // What is to become of an item, and what it asks.
    fn task_of(
        &self,
        alloc: Global,
        roles: &Roles,
        item: KeptMachineItem,
    ) -> Result<Task, AllocError>
        requires { next_in self.now.inbox ≡ Some item }
        ensures task { IfOk result (IsTask roles.now.laws self.now) }
        ensures item { IfOk result (λ task. task.item ≡ item) }
    {
        let found = self.find(alloc, item.key())?;
        let place = found.unwrap_or(self.machines());
        let number = self.number_for(place);
        let before = self.state_for(place)?;
        let fate = self.fate(found, item.plain(), &before);
        let want = self.want_by(roles, fate, item.plain(), &before);
        Ok(Task {
            item,
            number,
            before,
            fate,
            want,
        })
    }

    /// What it is to do next, if an item waits. `Task::page` says which page of the account book that needs.
    pub fn task(&self, alloc: Global, roles: &Roles) -> Result<Option<Task>, AllocError>
        ensures task { IfOk result (λ task. IfSome task (IsTask roles.now.laws self.now)) }
        ensures none { IfOk result (λ task. task ≡ None ↔ (next_in self.now.inbox ≡ None)) }
    {
        match self.inbox.next_kept() {
            None => Ok(None),
            Some(item) => Ok(Some(self.task_of(alloc, roles, item.copy()?)?)),
        }
    }

    // What an item leads to that is too busy.
    fn busy(&self, alloc: Global, roles: &Roles, item: &MachineItem) -> Result<Effects, AllocError>
        ensures { IfOk result (AreEffects roles.now.laws self.now item.now Handled.TooBusy) }
    {
        let post = busy_posts(alloc, roles.laws(), &self.peers, item)?;
        Ok(Effects {
            posts: list_of(alloc, post)?,
            ops: Series::empty(alloc),
        })
    }

    // What an item leads to that moved its machine.
    fn moved(
        &self,
        alloc: Global,
        roles: &Roles,
        item: &MachineItem,
        moved: &Moved,
    ) -> Result<Effects, AllocError>
        ensures { IfOk result (AreEffects roles.now.laws self.now item.now (Handled.Move moved.now)) }
    {
        let posts = roles.posts_for(alloc, &self.peers, item, moved)?;
        let ops = roles.ops_for(alloc, item, moved)?;
        Ok(Effects { posts, ops })
    }

    // What a handled item leads to.
    fn effects(
        &self,
        alloc: Global,
        roles: &Roles,
        item: &MachineItem,
        handled: &Handled,
    ) -> Result<Effects, AllocError>
        ensures { IfOk result (AreEffects roles.now.laws self.now item.now handled.now) }
    {
        match handled {
            Handled::TooBusy => self.busy(alloc, roles, item),
            Handled::Stale(_) => Ok(no_effects(alloc)),
            Handled::Move(moved) => self.moved(alloc, roles, item, moved),
        }
    }

    // The work on an item whose machine finds no room.
    fn prepare_busy(
        &self,
        alloc: Global,
        roles: &Roles,
        item: KeptMachineItem,
    ) -> Result<Work, AllocError>
        requires next { next_in self.now.inbox ≡ Some item }
        requires fate { fate_of self.now item ≡ Fate.Busy }
        ensures work { (book : Book) → IfOk result (IsWork roles.now book self.now) }
        ensures item { IfOk result (λ work. work.item ≡ item) }
    {
        let effects = self.busy(alloc, roles, item.plain())?;
        Ok(Work {
            item,
            handled: KeptHandled::too_busy(),
            effects,
        })
    }

    // The work on an item whose machine moves.
    fn prepare_move(
        &self,
        alloc: Global,
        roles: &Roles,
        registry: &Registry,
        page: &mut Page,
        number: u64,
        before: &KeptState,
        item: KeptMachineItem,
        want: &Option<Want>,
        room: &mut Stepped,
    ) -> Result<Work, AllocError>
        requires next { next_in self.now.inbox ≡ Some item }
        requires fate { fate_of self.now item ≡ Fate.Moves }
        requires number { number ≡ number_for self.now item.key }
        requires before { before.now ≡ state_for self.now item.key }
        requires want { want.now ≡ want_of roles.now.laws item before.now }
        requires laws { registry.now.book ≡ roles.now.laws }
        ensures work { IfOk result (IsWork roles.now page.old.book self.now) }
        ensures item { IfOk result (λ work. work.item ≡ item) }
        ensures page { page.new ≡ with_book page.old page.old.book page.new.room }
    {
        let decided = roles.decide(
            alloc,
            registry,
            &self.peers,
            page,
            number,
            before,
            item.plain(),
            want,
            room,
        )?;
        let Decided { moved, posts, ops } = decided;
        Ok(Work {
            item,
            handled: KeptHandled::of_move(alloc, moved)?,
            effects: Effects { posts, ops },
        })
    }

    /// Finds out what becomes of its oldest item, and what that leads to, and changes nothing. A move is decided by the
    /// registry's callbacks. The page is that of the account which the task asks for, any other where it asks for none;
    /// its book stays as it is. `room` is what a step is written into, for the caller to keep.
    pub fn prepare(
        &self,
        alloc: Global,
        roles: &Roles,
        registry: &Registry,
        page: &mut Page,
        task: Task,
        room: &mut Stepped,
    ) -> Result<Work, AllocError>
        requires task { IsTask roles.now.laws self.now task }
        requires laws { registry.now.book ≡ roles.now.laws }
        ensures work { IfOk result (IsWork roles.now page.old.book self.now) }
        ensures item { IfOk result (λ work. work.item ≡ task.item) }
        ensures page { page.new ≡ with_book page.old page.old.book page.new.room }
    {
        let Task {
            item,
            number,
            before,
            fate,
            want,
        } = task;
        match fate {
            Fate::Busy => self.prepare_busy(alloc, roles, item),
            Fate::Stale => Ok(Work {
                item,
                handled: KeptHandled::stale(before.state()),
                effects: no_effects(alloc),
            }),
            Fate::Moves => self.prepare_move(
                alloc, roles, registry, page, number, &before, item, &want, room,
            ),
        }
    }

    // Whether this becomes of the item of a task.
    fn becomes(
        &self,
        alloc: Global,
        roles: &Roles,
        page: &mut Page,
        task: &Task,
        handled: &Handled,
        room: &mut Stepped,
    ) -> Result<bool, AllocError>
        requires { IsTask roles.now.laws self.now task.now }
        ensures exact { IfOk result (λ yes. IsTrue yes
            ↔ BecomesIn roles.now page.old.book self.now task.now.item handled.now) }
        ensures page { page.new ≡ with_book page.old page.old.book page.new.room }
    {
        match handled {
            Handled::TooBusy => Ok(task.fate == Fate::Busy),
            Handled::Stale(state) => {
                Ok(task.fate == Fate::Stale && *state == task.before.state())
            }
            Handled::Move(moved) => {
                if task.fate != Fate::Moves {
                    return Ok(false);
                }
                roles.is_move(
                    alloc,
                    page,
                    task.number,
                    &task.before.show(),
                    task.item.plain(),
                    moved,
                    room,
                )
            }
        }
    }

    /// Whether this becomes of its oldest item, whatever the callbacks choose, and what that leads to:
    /// for a log that is run again. Asks no callback and changes nothing. Page and room are as for `prepare`.
    pub fn check(
        &self,
        alloc: Global,
        roles: &Roles,
        page: &mut Page,
        task: &Task,
        handled: &Handled,
        room: &mut Stepped,
    ) -> Result<Option<Effects>, AllocError>
        requires { IsTask roles.now.laws self.now task.now }
        ensures exact { IfOk result (λ effects. IsSome effects
            ↔ BecomesIn roles.now page.old.book self.now task.now.item handled.now) }
        ensures effects { IfOk result
            (λ effects. IfSome effects (AreEffects roles.now.laws self.now task.now.item handled.now)) }
        ensures fits { IfOk result (λ effects. IsSome effects → Fits self.now task.now.item handled.now) }
        ensures page { page.new ≡ with_book page.old page.old.book page.new.room }
    {
        if !self.becomes(alloc, roles, page, task, handled, room)? {
            return Ok(None);
        }
        Ok(Some(self.effects(alloc, roles, task.item.plain(), handled)?))
    }
}
