//! Timers that are due.
#![tactic(auto, using(crate::proofs::GoingLemmas::going))]

ghost use Rattle.std.specs.Prelude.{◌≡◌, OnOk, length};
ghost use Rattle.std.specs.List.{AllByRecursion as Each};
ghost use Rattle.bench_node.specs.Firings.{FireAll, Fires};
ghost use Rattle.bench_node.specs.Going.{Goes};
ghost use Rattle.role_tables.specs.Roles.{all_laws};

use crate::node::LiveNode;
use bench_item::Step;
use std::alloc::AllocError;
use tab_call::Registry;
use tick_wheel::Firing;

impl LiveNode {
    // A timer fires, where it can.
    fn fire(&mut self, registries: &[Registry], firing: &Firing) -> Result<(), AllocError>
        requires laws { Each (λ r. r.book ≡ all_laws) registries.now }
        requires count { length registries.now ≡ self.old.settings.node.shards }
        ensures fires { OnOk result (Fires self.old self.new firing.now) }
        ensures goes { Goes self.old self.new }
        ensures same { self.new.settings ≡ self.old.settings }
    {
        let step = Step::Fired {
            machine: firing.owner,
            generation: firing.generation,
        };
        match self.core.refusal(&step) {
            None => self.take(registries, step),
            Some(_) => Ok(()),
        }
    }

    /// Timers that are due fire, in their order: one that was armed anew or disarmed since, or for which the log has no
    /// room, is passed over. Want of memory ends it; what was done until then stays.
    pub fn fire_all(&mut self, registries: &[Registry], due: &[Firing]) -> Result<(), AllocError>
        requires laws { Each (λ r. r.book ≡ all_laws) registries.now }
        requires count { length registries.now ≡ self.old.settings.node.shards }
        ensures fire { OnOk result (FireAll self.old self.new due.now) }
        ensures goes { Goes self.old self.new }
        ensures same { self.new.settings ≡ self.old.settings }
    {
        'firings: for firing in due {
            self.fire(registries, firing)?;
        }
        Ok(())
    }
}
