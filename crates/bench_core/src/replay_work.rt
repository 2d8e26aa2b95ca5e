//! The entry of a shard's work is added as it is.
ghost use Rattle.std.specs.Prelude.{◌≡◌, [], None, IsErrOf, OnOk, OnErr};
ghost use Rattle.bench_item.specs.declared.step.Step.TheVariants as steps;
ghost use Rattle.bench_shard.specs.Tasks.{IsTask};
ghost use Rattle.bench_spec.specs.Legal.{MayFollow};
ghost use Rattle.bench_spec.specs.Refusal.{refusal};
ghost use Rattle.bench_spec.specs.Taken.{Replays};
ghost use Rattle.bench_core.specs.Replaying.{IsAnother, IsRedone};
ghost use Rattle.bench_core.specs.Working.{IsUnwritten, work_entry};

use crate::keeping::Core;
use crate::replay::ReplayError;
use crate::work::write;
use acct_book::Page;
use bench_carry::are_machine_items_same;
use bench_item::{Handled, MachineItem};
use bench_log::{KeptHandled, KeptMachineItem, Log};
use bench_move::Roles;
use bench_shard::{ShardState, Task, Work};
use bench_undo::UndoLog;
use std::alloc::Global;
use tab_step::Stepped;

/// Writes that this became of the shard's oldest item, where it is this one and that is so.
fn redo_task(
    alloc: Global,
    roles: &Roles,
    number: u32,
    shard: &mut ShardState,
    place: u64,
    page: &mut Page,
    log: &mut Log,
    undo: &mut UndoLog,
    task: &Task,
    item: MachineItem,
    handled: Handled,
    room: &mut Stepped,
) -> Result<(), ReplayError>
    requires task { IsTask roles.now.laws shard.old task.now }
    ensures ok { OnOk result (IsRedone roles.now number place item handled shard.old shard.new page.old page.new
        log.old.entries log.new.entries undo.old.records undo.new.records) }
    ensures illegal { IsErrOf result ReplayError.Illegal → IsAnother roles.now page.old.book shard.old item handled }
    ensures err { OnErr result (IsUnwritten shard.old shard.new page.old page.new log.old.entries log.new.entries
        undo.old.records undo.new.records) }
{
    if !are_machine_items_same(task.item.plain(), &item) {
        return Err(ReplayError::Illegal);
    }
    match shard.check(alloc, roles, page, task, &handled, room)? {
        None => Err(ReplayError::Illegal),
        Some(effects) => {
            let work = Work {
                item: KeptMachineItem::new(alloc, item)?,
                handled: KeptHandled::keep(alloc, &handled)?,
                effects,
            };
            write(number, shard, place, page, log, undo, work)?;
            Ok(())
        }
    }
}

impl Core {
    // Adds the entry of work of a shard that may work, if it is not paused.
    fn redo(
        &mut self,
        shard: u32,
        item: MachineItem,
        handled: Handled,
        room: &mut Stepped,
    ) -> Result<(), ReplayError>
        requires { refusal self.old.settings self.old.log [] (steps.Work shard) ≡ None }
        ensures ok { OnOk result (Replays self.old self.new (work_entry shard item handled)) }
        ensures illegal { IsErrOf result ReplayError.Illegal
            → MayFollow self.old.settings self.old.log (work_entry shard item handled) → ⊥ }
        ensures err { OnErr result (self.new ≡ self.old) }
    {
        let alloc = self.alloc;
        let task = match self.shards[shard as usize].task(alloc, &self.roles)? {
            Some(task) => task,
            None => unreachable!(),
        };
        let place = task.page(self.page_count).unwrap_or(0);
        redo_task(
            alloc,
            &self.roles,
            shard,
            &mut self.shards[shard as usize],
            place,
            &mut self.pages[place as usize],
            &mut self.log,
            &mut self.undo,
            &task,
            item,
            handled,
            room,
        )
    }

    // Adds the entry of a shard's work.
    pub(crate) fn replay_work(
        &mut self,
        shard: u32,
        item: MachineItem,
        handled: Handled,
        room: &mut Stepped,
    ) -> Result<(), ReplayError>
        ensures ok { OnOk result (Replays self.old self.new (work_entry shard item handled)) }
        ensures illegal { IsErrOf result ReplayError.Illegal
            → MayFollow self.old.settings self.old.log (work_entry shard item handled) → ⊥ }
        ensures err { OnErr result (self.new ≡ self.old) }
    {
        if self.unpaused_work_fault(shard).is_some() {
            return Err(ReplayError::Illegal);
        }
        self.redo(shard, item, handled, room)
    }
}
