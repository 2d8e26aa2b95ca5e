//! A desk tells and looks, under the lock of a shard.
ghost use Rattle.std.specs.Prelude.{◌≡◌, ◌<◌, ◌≤◌, IfErr, IfOk, None, OnErr, OnOk, unwrap_or};
ghost use Rattle.bench_desk.specs.Parts.{node_in};
ghost use Rattle.bench_item.specs.declared.limit.TheConstants.{MAX_SHARDS};
ghost use Rattle.bench_spec.specs.Settings.{Settings};
ghost use Rattle.bench_live.specs.Kept.{HasLooked, HasTold};
ghost use Rattle.bench_live.specs.Slots.{IsLookFault, tell_refusal_at};

use crate::shared::{ShardLock, Shared};
use crate::slot::Slot;
use base_lock::hold;
use bench_desk::{Desk, DeskFault, Look};
use bench_item::{Key, home};
use live_slot::draw;
use std::sync::Wait;
use std::sync::atomic::AtomicU64;
use tab_step::Event;

/// A desk tells a shard, whose lock is held, with stamps that are drawn now.
fn tell_under(
    slot: &mut Slot,
    desk: &mut Desk,
    stamps: &AtomicU64,
    key: &Key,
    event: &Event,
) -> Result<(), DeskFault>
    ensures told { OnOk result (HasTold desk.old desk.new key.now event.now) }
    // It is refused only for the first reason that holds, and for memory only where none does.
    ensures could { (settings : Settings) → settings.node ≡ node_in slot.old.part
        → OnOk result (tell_refusal_at settings slot.old.part desk.old key.now event.now.kind ≡ None) }
    ensures fault { (settings : Settings) → settings.node ≡ node_in slot.old.part
        → IfErr result (λ f. f
        ≡ unwrap_or (tell_refusal_at settings slot.old.part desk.old key.now event.now.kind) DeskFault.NoMemory) }
    ensures err { OnErr result ((desk.new ≡ desk.old) × (slot.new.part ≡ slot.old.part)) }
{
    let drawn = [draw(stamps), draw(stamps), draw(stamps)];
    slot.tell(desk, drawn, key, event)?;
    Ok(())
}

/// A desk looks at a shard, whose lock is held, with a stamp that is drawn now.
fn look_under(
    slot: &Slot,
    desk: &mut Desk,
    stamps: &AtomicU64,
    key: &Key,
) -> Result<Look, DeskFault>
    ensures looked { IfOk result (λ look. HasLooked desk.old desk.new key.now look) }
    // It is refused only for the first reason that holds, and for memory only where none does; the stamp is one that
    // was drawn.
    ensures fault { IfErr result (λ f. IsLookFault slot.now.part desk.old key.now f) }
    ensures err { OnErr result (desk.new ≡ desk.old) }
{
    let stamp = draw(stamps);
    match slot.look(desk, stamp, key) {
        Ok(look) => Ok(look),
        Err(fault) => Err(fault),
    }
}

impl Shared {
    // The lock of the shard of a machine, of so many.
    fn lock_of(&self, shards: usize, key: &Key) -> Option<&ShardLock>
        requires some { 0 < shards }
        requires few { shards ≤ MAX_SHARDS }
    {
        self.shards.get(home(shards, key))
    }

    /// A desk tells a machine an event, under the lock of its shard: it keeps just that. Refused where there is no such
    /// machine or event, where the shard or the desk has no room, and for memory; the desk is then as it was.
    pub fn tell<R: Wait>(
        &self,
        rt: &R,
        desk: &mut Desk,
        key: &Key,
        event: &Event,
    ) -> Result<(), DeskFault>
        ensures told { OnOk result (HasTold desk.old desk.new key.now event.now) }
        ensures err { OnErr result (desk.new ≡ desk.old) }
    {
        let Some(shard) = self.lock_of(desk.shards(), key) else {
            return Err(DeskFault::Unknown);
        };
        self.tell_at(rt, shard, desk, key, event)?;
        // Who is woken finds the lock free.
        shard.moved.notify_all();
        Ok(())
    }

    // A desk tells a shard, under its lock.
    fn tell_at<R: Wait>(
        &self,
        rt: &R,
        shard: &ShardLock,
        desk: &mut Desk,
        key: &Key,
        event: &Event,
    ) -> Result<(), DeskFault>
        ensures told { OnOk result (HasTold desk.old desk.new key.now event.now) }
        ensures err { OnErr result (desk.new ≡ desk.old) }
    {
        let mut slot = hold(rt, &shard.slot);
        tell_under(&mut slot, desk, &self.stamps, key, event)?;
        Ok(())
    }

    /// A desk looks at a machine, under the lock of its shard, and keeps what it saw.
    pub fn look<R: Wait>(&self, rt: &R, desk: &mut Desk, key: &Key) -> Result<Look, DeskFault>
        ensures looked { IfOk result (λ look. HasLooked desk.old desk.new key.now look) }
        ensures err { OnErr result (desk.new ≡ desk.old) }
    {
        let Some(shard) = self.lock_of(desk.shards(), key) else {
            return Err(DeskFault::Unknown);
        };
        let slot = hold(rt, &shard.slot);
        look_under(&slot, desk, &self.stamps, key)
    }
}
