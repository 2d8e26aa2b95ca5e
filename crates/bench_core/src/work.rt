//! A shard handles its oldest item.
ghost use Rattle.std.specs.Prelude.{◌≡◌, ◌-◌, None, OnOk, OnErr};
ghost use Rattle.bench_item.specs.declared.step.Step.TheVariants as steps;
ghost use Rattle.bench_shard.specs.Tasks.{IsTask};
ghost use Rattle.bench_shard.specs.Works.{Fits};
ghost use Rattle.bench_spec.specs.Refusal.{refusal};
ghost use Rattle.bench_spec.specs.Taken.{Takes};
ghost use Rattle.bench_core.specs.Working.{IsDone, IsUnwritten, IsWritten};

use crate::keeping::Core;
use crate::room::make_room;
use acct_book::Page;
use bench_log::{KeptEntry, Log};
use bench_move::{Roles, book_ops, make_page_room};
use bench_shard::{Effects, ShardState, Task, Work};
use bench_undo::{Undo, UndoLog};
use std::alloc::{AllocError, Global};
use tab_call::Registry;
use tab_step::Stepped;

/// Writes what a shard is to do: all of it, or nothing where memory is refused.
pub(crate) fn write(
    number: u32,
    shard: &mut ShardState,
    place: u64,
    page: &mut Page,
    log: &mut Log,
    undo: &mut UndoLog,
    work: Work,
) -> Result<(), AllocError>
    requires { Fits shard.old work.item work.handled }
    ensures ok { OnOk result (IsWritten number place work shard.old shard.new page.old page.new log.old.entries
        log.new.entries undo.old.records undo.new.records) }
    ensures err { OnErr result (IsUnwritten shard.old shard.new page.old page.new log.old.entries log.new.entries
        undo.old.records undo.new.records) }
{
    let Work {
        item,
        handled,
        effects,
    } = work;
    let Effects { posts, ops } = effects;
    make_room(log, undo)?;
    make_page_room(page, ops.len())?;
    let record = shard.commit(item.plain(), &handled, posts)?;
    book_ops(page, ops.as_slice());
    log.put(KeptEntry::of_work(number, item, handled));
    undo.put(Undo::Worked {
        shard: number,
        record,
        page: place,
        booked: ops.len(),
    });
    Ok(())
}

/// Decides and writes what a shard is to do next.
fn do_task(
    alloc: Global,
    roles: &Roles,
    registry: &Registry,
    number: u32,
    shard: &mut ShardState,
    place: u64,
    page: &mut Page,
    log: &mut Log,
    undo: &mut UndoLog,
    task: Task,
    room: &mut Stepped,
) -> Result<(), AllocError>
    requires task { IsTask roles.now.laws shard.old task }
    requires laws { registry.now.book ≡ roles.now.laws }
    ensures ok { OnOk result (IsDone roles.now number place shard.old shard.new page.old page.new log.old.entries
        log.new.entries undo.old.records undo.new.records) }
    ensures err { OnErr result (IsUnwritten shard.old shard.new page.old page.new log.old.entries log.new.entries
        undo.old.records undo.new.records) }
{
    let work = shard.prepare(alloc, roles, registry, page, task, room)?;
    write(number, shard, place, page, log, undo, work)?;
    Ok(())
}

impl Core {
    /// A shard handles its oldest item, with the page of the account book that this needs.
    pub(crate) fn work(
        &mut self,
        registry: &Registry,
        shard: u32,
        room: &mut Stepped,
    ) -> Result<(), AllocError>
        requires laws { registry.now.book ≡ self.old.settings.node.laws }
        requires could { refusal self.old.settings self.old.log self.old.paused (steps.Work shard) ≡ None }
        ensures ok { OnOk result (Takes self.old self.new (steps.Work shard)) }
        ensures err { OnErr result (self.new ≡ self.old) }
    {
        let alloc = self.alloc;
        let task = match self.shards[shard as usize].task(alloc, &self.roles)? {
            Some(task) => task,
            None => unreachable!(),
        };
        let place = task.page(self.page_count).unwrap_or(0);
        do_task(
            alloc,
            &self.roles,
            registry,
            shard,
            &mut self.shards[shard as usize],
            place,
            &mut self.pages[place as usize],
            &mut self.log,
            &mut self.undo,
            task,
            room,
        )
    }
}
