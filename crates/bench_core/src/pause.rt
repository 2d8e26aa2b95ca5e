//! A shard is paused, and goes on.
ghost use Rattle.std.specs.Prelude.{◌≡◌, false, true, nat_lt, slice_set, IsFalse, IsTrue};
ghost use Rattle.bench_spec.specs.Taken.{with_paused};

use crate::keeping::Core;

impl Core {
    /// A shard stops: it handles nothing until it goes on.
    /// Says whether there is one of that number; else nothing changes.
    pub fn pause(&mut self, shard: u32) -> bool
        ensures there { result ≡ nat_lt shard self.old.settings.node.shards }
        ensures paused { IsTrue result → self.new ≡ with_paused self.old (slice_set self.old.paused shard true) }
        ensures none { IsFalse result → self.new ≡ self.old }
    {
        if shard as usize >= self.shards.len() {
            return false;
        }
        self.shards[shard as usize].pause();
        true
    }

    /// A shard goes on. Says whether there is one of that number; else nothing changes.
    pub fn resume(&mut self, shard: u32) -> bool
        ensures there { result ≡ nat_lt shard self.old.settings.node.shards }
        ensures resumed { IsTrue result → self.new ≡ with_paused self.old (slice_set self.old.paused shard false) }
        ensures none { IsFalse result → self.new ≡ self.old }
    {
        if shard as usize >= self.shards.len() {
            return false;
        }
        self.shards[shard as usize].resume();
        true
    }
}
