//! An item is lifted from a source, or dropped where it is for.
ghost use Rattle.std.specs.Prelude.{◌≡◌, None, OnOk, OnErr};
ghost use Rattle.bench_item.specs.declared.step.Step.TheVariants as steps;
ghost use Rattle.bench_spec.specs.Refusal.{refusal};
ghost use Rattle.bench_spec.specs.Taken.{Takes};

use crate::keeping::Core;
use crate::room::make_room;
use bench_carry::{drop_at, hand_copy, lift_at, next_item};
use bench_item::Source;
use bench_log::KeptEntry;
use std::alloc::AllocError;

impl Core {
    /// The oldest item that waits at a source is lifted into its hand.
    pub(crate) fn lift(&mut self, source: Source) -> Result<(), AllocError>
        requires { refusal self.old.settings self.old.log self.old.paused (steps.Lift source) ≡ None }
        ensures ok { OnOk result (Takes self.old self.new (steps.Lift source)) }
        ensures err { OnErr result (self.new ≡ self.old) }
    {
        let item = next_item(&self.shards, &self.outboxes, &self.lines, source)?;
        let entry = KeptEntry::of_lift(source, item);
        make_room(&mut self.log, &mut self.undo)?;
        let undo = lift_at(
            &mut self.shards,
            &mut self.outboxes,
            &mut self.lines,
            source,
        );
        self.log.put(entry);
        self.undo.put(undo);
        Ok(())
    }

    /// The item in a source's hand is dropped where it is for.
    pub(crate) fn drop_item(&mut self, source: Source) -> Result<(), AllocError>
        requires { refusal self.old.settings self.old.log self.old.paused (steps.Drop source) ≡ None }
        ensures ok { OnOk result (Takes self.old self.new (steps.Drop source)) }
        ensures err { OnErr result (self.new ≡ self.old) }
    {
        let alloc = self.alloc;
        let item = match hand_copy(
            &self.shards,
            &self.outboxes,
            &self.lines,
            &self.carried,
            source,
        )? {
            Some(item) => item,
            None => unreachable!(),
        };
        make_room(&mut self.log, &mut self.undo)?;
        let undo = drop_at(
            alloc,
            &mut self.shards,
            &mut self.outboxes,
            &mut self.lines,
            &mut self.carried,
            &mut self.wheel,
            source,
            &item,
        )?;
        let entry = KeptEntry::of_drop(source, Some(item));
        self.log.put(entry);
        self.undo.put(undo);
        Ok(())
    }
}
