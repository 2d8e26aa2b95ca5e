//! What comes to a shard's part: items, tells, looks.
ghost use Rattle.std.specs.Prelude.{◌≡◌, ◌∷◌, ◌&&◌, ◌||◌, [], None, true, IfErr, IfOk, IsTrue, OnErr, OnOk, slice_index};
ghost use Rattle.std.specs.Prelude.{unwrap_or};
ghost use Rattle.bench_desk.specs.Desks.{look_at, seen_as, with_kept};
ghost use Rattle.bench_desk.specs.Parts.{is_full, node_in, with_arrival};
ghost use Rattle.bench_item.specs.Keys.{home};
ghost use Rattle.bench_item.specs.declared.source.Source.TheVariants.{Desk as FromDesk};
ghost use Rattle.bench_spec.specs.Desks.{agrees, tell_kept};
ghost use Rattle.bench_spec.specs.Merged.{Saw};
ghost use Rattle.bench_spec.specs.Settings.{Settings};
ghost use Rattle.bench_live.specs.Slots.{HasArrived, is_for, is_home_of, look_refusal_at, tell_refusal_at};

use crate::slot::Slot;
use bench_desk::{Desk, DeskFault, Look, ShardPart};
use bench_item::{Key, Source, home};
use bench_log::KeptMachineItem;
use bench_shard::PutError;
use live_slot::Turn;
use tab_step::Event;

/// Whether a part is that of the shard of a machine, of so many.
fn is_home_of(part: &ShardPart, shards: usize, key: &Key) -> bool
    ensures is { result ≡ is_home_of part.now shards key.now }
    ensures here { IsTrue result → home shards key.now.name ≡ part.now.shard.number }
    ensures same { IsTrue result → part.now.shard.peers.shards ≡ shards }
{
    let shard = part.shard();
    let own = shard.peers().shards();
    own == shards && home(own, key) == shard.number()
}

impl Slot {
    /// An item comes from a source, behind the others. Nothing comes of one that is another shard's; where there is no
    /// room, that is kept in mind.
    pub fn arrive(&mut self, source: Source, item: &KeptMachineItem, stamp: u64) -> Turn
        ensures came { HasArrived result self.old.part self.new.part source stamp item.now }
        ensures wanted { self.new.wanted
            ≡ (self.old.wanted || (is_for self.old.part item.now && is_full self.old.part)) }
        ensures said { (self.new.called ≡ self.old.called) × (self.new.ending ≡ self.old.ending) }
    {
        let shards = self.part.shard().peers().shards();
        if !is_home_of(&self.part, shards, item.key()) {
            return Turn::Idle;
        }
        if self.part.is_full() {
            self.wanted = true;
            return Turn::Idle;
        }
        match self.part.arrive(source, stamp, item) {
            Ok(()) => Turn::Done,
            Err(PutError::Full | PutError::NoMemory) => Turn::NoMemory,
        }
    }

    /// A desk tells a machine an event, with the stamps of the Told, its Lift, and the Drop here. Refused as Unknown
    /// where the machine is another shard's, and else as `tell_in` of the desk is.
    pub fn tell(
        &mut self,
        desk: &mut Desk,
        stamps: [u64; 3],
        key: &Key,
        event: &Event,
    ) -> Result<(), DeskFault>
        // Just that item is put.
        ensures desk { OnOk result (desk.new
            ≡ with_kept desk.old (tell_kept desk.old.number stamps key.now event.now)) }
        ensures part { OnOk result (self.new.part
            ≡ with_arrival self.old.part (FromDesk desk.old.number) (slice_index stamps 2)
            (record { key = key.now; event = event.now; condition = None; session = [] })) }
        // It is refused only for the first reason that holds, and for memory only where none does.
        ensures could { (settings : Settings) → settings.node ≡ node_in self.old.part
            → OnOk result (tell_refusal_at settings self.old.part desk.old key.now event.now.kind ≡ None) }
        ensures fault { (settings : Settings) → settings.node ≡ node_in self.old.part
            → IfErr result (λ f. f
            ≡ unwrap_or (tell_refusal_at settings self.old.part desk.old key.now event.now.kind) DeskFault.NoMemory) }
        ensures err { OnErr result ((desk.new ≡ desk.old) × (self.new.part ≡ self.old.part)) }
        ensures said { (self.new.wanted ≡ self.old.wanted) × (self.new.called ≡ self.old.called)
            × (self.new.ending ≡ self.old.ending) }
    {
        if !is_home_of(&self.part, desk.shards(), key) {
            return Err(DeskFault::Unknown);
        }
        desk.tell_in(&mut self.part, stamps, key, event)?;
        Ok(())
    }

    /// A desk looks at a machine, and keeps what it saw with the stamp that was drawn for it. Refused as Unknown where
    /// the machine is another shard's, and else as `look_in` of the desk is.
    pub fn look(&self, desk: &mut Desk, stamp: u64, key: &Key) -> Result<Look, DeskFault>
        // The shard's state and registers, and the desk's counts there.
        ensures ok { IfOk result (λ look. seen_as stamp key.now look
            ≡ look_at self.now.part desk.old.number stamp key.now) }
        ensures kept { IfOk result (λ look. desk.new ≡ with_kept desk.old (Saw (seen_as stamp key.now look) ∷ [])) }
        // All that the desk told the shard waits there or was handled, and no less was handled than when it last
        // looked.
        ensures agreed { IfOk result (λ look. (settings : Settings) → settings.node.shards ≡ desk.old.shards
            → agrees settings desk.old.number desk.old.kept (seen_as stamp key.now look) ≡ true) }
        // It is refused only for the first reason that holds, and for memory only where none does.
        ensures could { (settings : Settings) → settings.node ≡ node_in self.now.part
            → IfOk result (λ look. look_refusal_at settings self.now.part desk.old stamp key.now ≡ None) }
        ensures fault { (settings : Settings) → settings.node ≡ node_in self.now.part
            → IfErr result (λ f. f
            ≡ unwrap_or (look_refusal_at settings self.now.part desk.old stamp key.now) DeskFault.NoMemory) }
        ensures err { OnErr result (desk.new ≡ desk.old) }
    {
        if !is_home_of(&self.part, desk.shards(), key) {
            return Err(DeskFault::Unknown);
        }
        desk.look_in(&self.part, stamp, key)
    }
}
