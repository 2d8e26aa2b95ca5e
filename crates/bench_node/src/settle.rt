//! All that waits is carried and handled.
#![tactic(auto, using(crate::proofs::GoingLemmas::going, crate::proofs::TimedLemmas::timing))]

ghost use Rattle.std.specs.Prelude.{◌≡◌, ◌⊎◌, ◌||◌, IfOk, OnOk, length};
ghost use Rattle.std.specs.List.{AllByRecursion as Each};
ghost use Rattle.bench_item.specs.declared.source.Source.TheVariants.{Clock};
ghost use Rattle.bench_item.specs.declared.step.Step.TheVariants as steps;
ghost use Rattle.bench_node.specs.Going.{Goes};
ghost use Rattle.bench_node.specs.Settled.{AreDesksStill, AreIdle, AreLinesStill, AreOthersStill, AreShardsStill};
ghost use Rattle.bench_node.specs.Settled.{IsFull, IsRefused, IsSettled, Says, Went};
ghost use Rattle.bench_node.specs.Timed.{IsTimed, LeavesTimers};
ghost use Rattle.role_tables.specs.Roles.{all_laws};

use crate::node::{LINE_PLACES, LiveNode};
use bench_item::{MAX_ENTRIES, MAX_WAITING, Source};
use std::alloc::AllocError;
use tab_call::Registry;
use tick_wheel::Wheel;

// Whether one of two is.
fn either(one: bool, other: bool) -> bool
    ensures { result ≡ (one || other) }
{
    one || other
}

impl LiveNode {
    // Carries what the connections put out on which something happened. Says whether something was.
    fn carry_busy(&mut self, timers: &mut Wheel) -> Result<bool, AllocError>
        ensures timed { OnOk result (IsTimed self.old timers.old self.new timers.new) }
        ensures says { IfOk result (λ went. Says went self.old self.new) }
        ensures goes { Goes self.old self.new }
        ensures same { self.new.settings ≡ self.old.settings }
    {
        let lines = self.core.lines();
        let mut went = false;
        'lines: for line in 1..LINE_PLACES as u32 {
            if line as usize > lines {
                return Ok(went);
            }
            if self.is_touched(line) {
                went = either(went, self.carry(timers, Source::Line(line))?);
            }
        }
        Ok(went)
    }

    // Carries what all connections put out. Says whether something was.
    fn carry_lines(&mut self, timers: &mut Wheel) -> Result<bool, AllocError>
        ensures timed { OnOk result (IsTimed self.old timers.old self.new timers.new) }
        ensures went { IfOk result (λ went. Went (AreLinesStill LINE_PLACES) went self.old self.new) }
        ensures goes { Goes self.old self.new }
        ensures same { self.new.settings ≡ self.old.settings }
    {
        let mut went = false;
        'lines: for line in 1..LINE_PLACES as u32 {
            if line as usize > self.core.lines() {
                return Ok(went);
            }
            went = either(went, self.carry(timers, Source::Line(line))?);
        }
        Ok(went)
    }

    // Carries what desks put out. Says whether something was.
    fn carry_desks(&mut self, timers: &mut Wheel) -> Result<bool, AllocError>
        ensures timed { OnOk result (IsTimed self.old timers.old self.new timers.new) }
        ensures went { IfOk result (λ went. Went (λ run. AreDesksStill run.settings.desks run) went self.old self.new) }
        ensures goes { Goes self.old self.new }
        ensures same { self.new.settings ≡ self.old.settings }
    {
        let mut went = false;
        'desks: for desk in 0..self.core.desks() {
            went = either(went, self.carry(timers, Source::Desk(desk))?);
        }
        Ok(went)
    }

    // Carries what shards put out. Says whether something was.
    fn carry_shards(&mut self, timers: &mut Wheel) -> Result<bool, AllocError>
        ensures timed { OnOk result (IsTimed self.old timers.old self.new timers.new) }
        ensures went { IfOk result (λ went. Went (λ run. AreShardsStill run.settings.node.shards run) went self.old
            self.new) }
        ensures goes { Goes self.old self.new }
        ensures same { self.new.settings ≡ self.old.settings }
    {
        let mut went = false;
        'shards: for shard in 0..self.core.shards() as u32 {
            went = either(went, self.carry(timers, Source::Shard(shard))?);
        }
        Ok(went)
    }

    // Has a shard handle what waits there, as far as it can. Says whether something was.
    fn work(&mut self, registries: &[Registry], shard: u32) -> Result<bool, AllocError>
        requires laws { Each (λ r. r.book ≡ all_laws) registries.now }
        requires count { length registries.now ≡ self.old.settings.node.shards }
        ensures timed { LeavesTimers self.old self.new }
        ensures went { IfOk result (λ went. Went (λ run. IsRefused run (steps.Work shard)) went self.old self.new) }
        ensures goes { Goes self.old self.new }
        ensures same { self.new.settings ≡ self.old.settings }
    {
        if !self.work_once(registries, shard)? {
            return Ok(false);
        }
        'items: for _ in 0..MAX_WAITING {
            if !self.work_once(registries, shard)? {
                return Ok(true);
            }
        }
        Ok(true)
    }

    // Has each shard handle what waits there. Says whether something was.
    fn work_all(&mut self, registries: &[Registry]) -> Result<bool, AllocError>
        requires laws { Each (λ r. r.book ≡ all_laws) registries.now }
        requires count { length registries.now ≡ self.old.settings.node.shards }
        ensures timed { LeavesTimers self.old self.new }
        ensures went { IfOk result (λ went. Went (λ run. AreIdle run.settings.node.shards run) went self.old self.new) }
        ensures goes { Goes self.old self.new }
        ensures same { self.new.settings ≡ self.old.settings }
    {
        let mut went = false;
        'shards: for shard in 0..self.core.shards() as u32 {
            went = either(went, self.work(registries, shard)?);
        }
        Ok(went)
    }

    // Carries and handles once what waits at each place, of the connections on those where something happened. Says
    // whether something was.
    fn pass(&mut self, registries: &[Registry], timers: &mut Wheel) -> Result<bool, AllocError>
        requires laws { Each (λ r. r.book ≡ all_laws) registries.now }
        requires count { length registries.now ≡ self.old.settings.node.shards }
        ensures timed { OnOk result (IsTimed self.old timers.old self.new timers.new) }
        ensures went { IfOk result (λ went. Went AreOthersStill went self.old self.new) }
        ensures goes { Goes self.old self.new }
        ensures same { self.new.settings ≡ self.old.settings }
    {
        let by_lines = self.carry_busy(timers)?;
        let by_clock = self.carry(timers, Source::Clock)?;
        let by_desks = self.carry_desks(timers)?;
        let by_shards = self.carry_shards(timers)?;
        let by_work = self.work_all(registries)?;
        Ok(either(
            either(either(either(by_lines, by_clock), by_desks), by_shards),
            by_work,
        ))
    }

    // The same, and where nothing was, carries what all connections put out.
    fn round(&mut self, registries: &[Registry], timers: &mut Wheel) -> Result<bool, AllocError>
        requires laws { Each (λ r. r.book ≡ all_laws) registries.now }
        requires count { length registries.now ≡ self.old.settings.node.shards }
        ensures timed { OnOk result (IsTimed self.old timers.old self.new timers.new) }
        ensures went { IfOk result (λ went. Went IsSettled went self.old self.new) }
        ensures goes { Goes self.old self.new }
        ensures same { self.new.settings ≡ self.old.settings }
    {
        if self.pass(registries, timers)? {
            return Ok(true);
        }
        self.carry_lines(timers)
    }

    /// Carries and handles all that waits, until nothing is left that can be, or the log is full: what a full inbox
    /// holds back stays where it is. What a shard armed or disarmed is armed or disarmed in `timers`, in ticks from
    /// their last moment on. Says whether something was carried or handled. Want of memory ends it; what was done until
    /// then stays.
    pub fn settle(
        &mut self,
        registries: &[Registry],
        timers: &mut Wheel,
    ) -> Result<bool, AllocError>
        requires laws { Each (λ r. r.book ≡ all_laws) registries.now }
        requires count { length registries.now ≡ self.old.settings.node.shards }
        ensures settled { OnOk result (IsSettled self.new ⊎ IsFull self.new) }
        ensures timed { OnOk result (IsTimed self.old timers.old self.new timers.new) }
        ensures says { IfOk result (λ moved. Says moved self.old self.new) }
        ensures goes { Goes self.old self.new }
        ensures same { self.new.settings ≡ self.old.settings }
    {
        let mut moved = false;
        let mut passes = 0;
        // Each pass but the last adds an entry, and a log has no more than these.
        'passes: while passes < MAX_ENTRIES {
            if !self.round(registries, timers)? {
                self.rest();
                return Ok(moved);
            }
            moved = true;
            passes += 1;
        }
        Ok(moved)
    }
}
