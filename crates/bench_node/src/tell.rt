//! A desk tells.
#![tactic(auto, using(crate::proofs::GoingLemmas::going))]

ghost use Rattle.std.specs.Prelude.{◌≡◌, IfOk, length};
ghost use Rattle.std.specs.List.{AllByRecursion as Each};
ghost use Rattle.bench_node.specs.Going.{Goes};
ghost use Rattle.bench_node.specs.Telling.{IsTried, Tells, is_nearly_full};
ghost use Rattle.role_tables.specs.Roles.{all_laws};

use crate::node::LiveNode;
use bench_item::{MAX_ENTRIES, Step, StepFault};
use live_desk::Desk;
use std::alloc::AllocError;
use tab_call::Registry;

/// How many entries of the log are kept free for what is under way.
pub const KEPT_FREE: usize = 16_384;

impl LiveNode {
    // Whether so few entries are free that nothing more is told.
    fn is_nearly_full(&self) -> bool
        ensures { result ≡ is_nearly_full self.now }
    {
        self.core.place() > MAX_ENTRIES - KEPT_FREE
    }

    // Tells what is due: one that there is no room for is not told yet, one that can't be told is passed over. Says
    // whether the desk goes on.
    fn tell_due(&mut self, registries: &[Registry], step: Step) -> Result<bool, AllocError>
        requires laws { Each (λ r. r.book ≡ all_laws) registries.now }
        requires count { length registries.now ≡ self.old.settings.node.shards }
        ensures ok { IfOk result (λ goes_on. IsTried self.old self.new step goes_on) }
        ensures goes { Goes self.old self.new }
        ensures same { self.new.settings ≡ self.old.settings }
    {
        match self.core.refusal(&step) {
            None => {
                self.take(registries, step)?;
                Ok(true)
            }
            Some(fault) => Ok(!matches!(fault, StepFault::Full)),
        }
    }

    /// A desk tells its next text, where its time has come: one that there is no room for stays the next, one that
    /// can't be told is passed over. None is told where the log is nearly full. Says whether the desk went on.
    pub fn tell(&mut self, registries: &[Registry], desk: &mut Desk) -> Result<bool, AllocError>
        requires laws { Each (λ r. r.book ≡ all_laws) registries.now }
        requires count { length registries.now ≡ self.old.settings.node.shards }
        ensures tells { IfOk result (Tells self.old desk.old self.new desk.new) }
        ensures goes { Goes self.old self.new }
        ensures same { self.new.settings ≡ self.old.settings }
    {
        if self.is_nearly_full() {
            return Ok(false);
        }
        let Some(step) = desk.due(self.alloc, &self.core)? else {
            return Ok(false);
        };
        if !self.tell_due(registries, step)? {
            return Ok(false);
        }
        desk.go_on();
        Ok(true)
    }
}
