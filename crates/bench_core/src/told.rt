//! Why a desk does not tell a machine an event, memory aside.
ghost use Rattle.std.specs.Prelude.{◌≡◌, ◌<◌, Some, length, slice_get};
ghost use Rattle.bench_item.specs.declared.step.Step.TheVariants as steps;
ghost use Rattle.bench_shard.specs.View.{ShardView};
ghost use Rattle.bench_spec.specs.Refusal.{refusal};

use crate::keeping::Core;
use crate::refusal::held;
use bench_item::{Key, Peers, StepFault};
use bench_move::may_tell;
use bench_shard::ShardState;
use tab_step::Event;

/// The configured peers, as the first shard knows them.
pub(crate) fn peers_of(shards: &[ShardState]) -> &Peers
    requires { 0 < length shards.now }
    ensures { (v : ShardView) → slice_get shards.now 0 ≡ Some v → result.now ≡ v.peers }
{
    shards[0].peers()
}

impl Core {
    // Why a desk does not tell a machine an event.
    pub(crate) fn told_fault(&self, desk: u32, key: &Key, event: &Event) -> Option<StepFault>
        ensures { result ≡ refusal self.now.settings self.now.log self.now.paused (steps.Told desk key.now event.now) }
    {
        let peers = peers_of(&self.shards);
        let there = desk < self.desk_count;
        let may = may_tell(self.roles.laws(), peers, key, event.kind);
        let full = self.log.is_full();
        let late = held(full, StepFault::Full, None);
        let strange = held(!may, StepFault::Unknown, late);
        held(!there, StepFault::Unknown, strange)
    }
}
