//! Why a step is refused, memory aside.
ghost use Rattle.std.specs.Prelude.{◌≡◌, ◌==◌, ℕ, List, [], Some, None, false, length};
ghost use Rattle.std.specs.Prelude.{nat_lt, slice_get, if◌then◌else◌};
ghost use Rattle.std.specs.FinMap as map;
ghost use Rattle.std.specs.Option.{option_map_or};
ghost use Rattle.bench_item.specs.Keys.{shard_of};
ghost use Rattle.bench_item.specs.declared.step.Step.TheVariants as steps;
ghost use Rattle.bench_spec.specs.Refusal.{refusal};
ghost use Rattle.bench_views.specs.Timers.{generation_of};
ghost use Rattle.bench_core.specs.Faults.{line_fault_or, shard_fault};
ghost use Rattle.bench_core.specs.Faults.{unpaused_shard_fault, work_fault, work_fault_or};

use crate::keeping::Core;
use bench_item::{MAX_MACHINES, StepFault};
use bench_shard::{ShardState, WorkFault};
use tick_wheel::Wheel;

/// A fault where something stands in the way, else what comes behind it.
pub(crate) fn held(holds: bool, fault: StepFault, rest: Option<StepFault>) -> Option<StepFault>
    ensures { result ≡ (if holds then Some fault else rest) }
{
    if holds { Some(fault) } else { rest }
}

/// A line's fault, or that the log is full.
fn line_fault_or(fault: Option<StepFault>, full: bool) -> Option<StepFault>
    ensures { result ≡ line_fault_or fault full }
{
    match fault {
        Some(fault) => Some(fault),
        None => held(full, StepFault::Full, None),
    }
}

/// A shard's fault as one of a step: which page it needs is no fault of a step.
fn work_fault(fault: WorkFault) -> StepFault
    ensures { result ≡ work_fault fault }
{
    match fault {
        WorkFault::Paused => StepFault::Paused,
        WorkFault::Nothing | WorkFault::NeedsPage(_) => StepFault::Nothing,
        WorkFault::Full => StepFault::Full,
        WorkFault::NoMemory => StepFault::NoMemory,
    }
}

/// A shard's fault, or that the log is full.
fn work_fault_or(fault: Option<WorkFault>, full: bool) -> Option<StepFault>
    ensures { result ≡ work_fault_or fault full }
{
    match fault {
        Some(fault) => Some(work_fault(fault)),
        None => held(full, StepFault::Full, None),
    }
}

/// Why the shard of that number does not work.
fn shard_fault(shards: &[ShardState], shard: u32, full: bool) -> Option<StepFault>
    ensures { result ≡ shard_fault (slice_get shards.now shard) full }
{
    match shards.get(shard as usize) {
        None => Some(StepFault::Unknown),
        Some(own) => work_fault_or(own.work_refusal(), full),
    }
}

/// Why the shard of that number would not work if it were not paused.
fn unpaused_shard_fault(shards: &[ShardState], shard: u32, full: bool) -> Option<StepFault>
    ensures { result ≡ unpaused_shard_fault (slice_get shards.now shard) full }
{
    match shards.get(shard as usize) {
        None => Some(StepFault::Unknown),
        Some(own) => work_fault_or(own.unpaused_refusal(), full),
    }
}

/// Whether there is the shard of a machine of that number.
fn has_shard(shards: &[ShardState], machine: u64) -> bool
    ensures { result ≡ nat_lt (shard_of machine) (length shards.now) }
{
    machine / (MAX_MACHINES as u64) < shards.len() as u64
}

/// Whether a machine's timer is armed with that generation.
fn is_armed(wheel: &Wheel, machine: u64, generation: u64) -> bool
    ensures { result ≡ option_map_or (λ g. g == generation) (generation_of (map.get wheel.now.armed machine)) false }
{
    match wheel.armed(machine) {
        None => false,
        Some(timer) => timer.generation == generation,
    }
}

impl Core {
    // Why no line is accepted.
    pub(crate) fn joined_fault(&self) -> Option<StepFault>
        ensures { result ≡ refusal self.now.settings self.now.log self.now.paused steps.Joined }
    {
        let crowded = self.lines.is_full();
        let full = self.log.is_full();
        let rest = held(crowded, StepFault::Full, None);
        held(full, StepFault::Full, rest)
    }

    // Why a line's dial is not acknowledged.
    pub(crate) fn dialled_fault(&self, line: u32) -> Option<StepFault>
        ensures { result ≡ refusal self.now.settings self.now.log self.now.paused (steps.Dialled line) }
    {
        let fault = self.lines.dialled_fault(line as u64);
        let full = self.log.is_full();
        line_fault_or(fault, full)
    }

    // Why no octets come on a line.
    pub(crate) fn came_fault(&self, line: u32) -> Option<StepFault>
        ensures { (piece : List ℕ)
            → result ≡ refusal self.now.settings self.now.log self.now.paused (steps.Came line piece) }
    {
        let fault = self.lines.came_fault(line as u64);
        let full = self.log.is_full();
        line_fault_or(fault, full)
    }

    // Why a line is not lost.
    pub(crate) fn lost_fault(&self, line: u32) -> Option<StepFault>
        ensures { result ≡ refusal self.now.settings self.now.log self.now.paused (steps.Lost line) }
    {
        let fault = self.lines.lost_fault(line as u64);
        let full = self.log.is_full();
        line_fault_or(fault, full)
    }

    // Why no timer fires.
    pub(crate) fn fired_fault(&self, machine: u64, generation: u64) -> Option<StepFault>
        ensures { result ≡ refusal self.now.settings self.now.log self.now.paused (steps.Fired machine generation) }
    {
        let there = has_shard(&self.shards, machine);
        let armed = is_armed(&self.wheel, machine, generation);
        let full = self.log.is_full();
        let late = held(full, StepFault::Full, None);
        let idle = held(!armed, StepFault::Nothing, late);
        held(!there, StepFault::Unknown, idle)
    }

    // Why a shard does not work.
    pub(crate) fn work_fault(&self, shard: u32) -> Option<StepFault>
        ensures { result ≡ refusal self.now.settings self.now.log self.now.paused (steps.Work shard) }
    {
        let full = self.log.is_full();
        shard_fault(&self.shards, shard, full)
    }

    // Why a shard would not work if none were paused.
    pub(crate) fn unpaused_work_fault(&self, shard: u32) -> Option<StepFault>
        ensures { result ≡ refusal self.now.settings self.now.log [] (steps.Work shard) }
    {
        let full = self.log.is_full();
        unpaused_shard_fault(&self.shards, shard, full)
    }
}
