//! A desk tells and looks.
ghost use Rattle.std.specs.Prelude.{◌≡◌, IfOk, OnErr, OnOk};
ghost use Rattle.bench_live.specs.Kept.{HasLooked, HasTold};

use crate::shared::Shared;
use bench_desk::{Desk, DeskFault, Look};
use bench_item::Key;
use std::alloc::Global;
use std::sync::{Arc, Wait};
use tab_step::Event;

/// A desk of a running bench. It belongs to one thread: what it kept and its counts are no other's.
pub struct LiveDesk {
    pub(crate) desk: Desk,
    pub(crate) shared: Arc<Shared, Global>,
}

impl Drop for LiveDesk {
    fn drop(self) {
        let LiveDesk { desk, shared } = self;
    }
}

impl LiveDesk {
    // The desk, without the bench.
    pub(crate) fn into_desk(self) -> Desk
        ensures { result ≡ self.desk }
    {
        let LiveDesk { desk, shared } = self;
        desk
    }

    /// What it kept, and its counts.
    pub fn desk(&self) -> &Desk
        ensures { result.now ≡ self.now.desk }
    {
        &self.desk
    }

    /// Tells a machine an event, under the lock of its shard: it keeps just that. Refused where there is no such
    /// machine or event, where the shard or the desk has no room, and for memory; the desk is then as it was.
    pub fn tell<R: Wait>(&mut self, rt: &R, key: &Key, event: &Event) -> Result<(), DeskFault>
        ensures told { OnOk result (HasTold self.old.desk self.new.desk key.now event.now) }
        ensures err { OnErr result (self.new.desk ≡ self.old.desk) }
    {
        self.shared.tell(rt, &mut self.desk, key, event)?;
        Ok(())
    }

    /// Looks at a machine, under the lock of its shard, and keeps what it saw: its state and registers, and how many of
    /// the desk's items wait in that shard and were handled there. All that it told the shard waits or was handled, and
    /// no less was handled than when it last looked there. Refused where there is no such machine, where the shard's
    /// counts contradict that, and for memory; the desk is then as it was.
    pub fn look<R: Wait>(&mut self, rt: &R, key: &Key) -> Result<Look, DeskFault>
        ensures looked { IfOk result (λ look. HasLooked self.old.desk self.new.desk key.now look) }
        ensures err { OnErr result (self.new.desk ≡ self.old.desk) }
    {
        let look = self.shared.look(rt, &mut self.desk, key)?;
        Ok(look)
    }
}
