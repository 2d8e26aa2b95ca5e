//! The last step is taken back.
ghost use Rattle.std.specs.Prelude.{◌≡◌, [], IsFalse, IsTrue};
ghost use Rattle.bench_spec.specs.Taken.{GoesBackTo};

use crate::keeping::Core;
use bench_carry::undo_at;

impl Core {
    /// Takes the last step back, where one was taken. Says whether.
    /// Which shards are paused stays as it is. Takes no memory.
    pub fn back(&mut self) -> bool
        ensures ok { IsTrue result → GoesBackTo self.old self.new }
        ensures none { IsFalse result → (self.old.log ≡ []) × (self.new ≡ self.old) }
    {
        let Some(undo) = self.undo.pop() else {
            return false;
        };
        undo_at(
            &mut self.shards,
            &mut self.outboxes,
            &mut self.lines,
            &mut self.carried,
            &mut self.pages,
            &mut self.wheel,
            undo,
        );
        let len = self.log.len().saturating_sub(1);
        self.log.truncate(len);
        true
    }
}
