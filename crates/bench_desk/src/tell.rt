//! A desk tells a machine an event.
ghost use Rattle.std.specs.Prelude.{◌≡◌, [], false, None, IfErr, IfNone, OnOk, OnErr, slice_index, unwrap_or};
ghost use Rattle.bench_item.specs.Keys.{home};
ghost use Rattle.bench_item.specs.declared.source.Source.TheVariants.{Desk as FromDesk};
ghost use Rattle.bench_spec.specs.Desks.{tell_kept};
ghost use Rattle.bench_spec.specs.Settings.{Settings};
ghost use Rattle.bench_desk.specs.Desks.{is_desk_full, tell_refusal, with_kept};
ghost use Rattle.bench_desk.specs.Parts.{is_full, node_in, with_arrival};

use crate::desk::Desk;
use crate::fault::DeskFault;
use crate::note::{lift_entry, told_entry, told_item};
use crate::part::ShardPart;
use bench_item::{Key, Source, home};
use bench_move::may_tell;
use bench_parts::Note;
use std::alloc::AllocError;
use tab_step::Event;

impl Desk {
    // Why a tell is refused, memory aside.
    fn tell_refusal(&self, part: &ShardPart, key: &Key, event: &Event) -> Option<DeskFault>
        ensures refusal { (settings : Settings) → settings.node ≡ node_in part.now
            → result ≡ tell_refusal settings part.now self.now key.now event.now.kind }
        ensures room { IfNone result ((is_full part.now ≡ false) × (is_desk_full self.now.kept ≡ false)) }
    {
        if !may_tell(part.roles().laws(), part.shard().peers(), key, event.kind) {
            return Some(DeskFault::Unknown);
        }
        if part.is_full() || self.is_full() {
            return Some(DeskFault::Full);
        }
        None
    }

    // Tells what is not refused, unless memory is.
    fn told(
        &mut self,
        part: &mut ShardPart,
        stamps: [u64; 3],
        key: &Key,
        event: &Event,
    ) -> Result<(), AllocError>
        requires here { home self.old.shards key.now.name ≡ part.old.shard.number }
        requires same { part.old.shard.peers.shards ≡ self.old.shards }
        requires room { is_full part.old ≡ false }
        requires own_room { is_desk_full self.old.kept ≡ false }
        ensures desk { OnOk result (self.new
            ≡ with_kept self.old (tell_kept self.old.number stamps key.now event.now)) }
        ensures part { OnOk result (part.new ≡ with_arrival part.old (FromDesk self.old.number) (slice_index stamps 2)
            (record { key = key.now; event = event.now; condition = None; session = [] })) }
        ensures err { OnErr result ((self.new ≡ self.old) × (part.new ≡ part.old)) }
    {
        let [told, lifted, dropped] = stamps;
        let item = told_item(self.alloc, key, event)?;
        let did = told_entry(self.alloc, self.number, key, event)?;
        let carried = lift_entry(self.number, &item)?;
        self.notes.reserve(2)?;
        if part
            .arrive(Source::Desk(self.number), dropped, &item)
            .is_err()
        {
            return Err(AllocError);
        }
        self.notes
            .push(Note::Did {
                stamp: told,
                entry: did,
            })
            .unwrap();
        self.notes
            .push(Note::Did {
                stamp: lifted,
                entry: carried,
            })
            .unwrap();
        self.entries += 2;
        self.told[home(self.shards, key)] += 1;
        Ok(())
    }

    /// Tells a machine an event, in the shard that it is of, which is lent. The stamps were drawn for the Told, its
    /// Lift, and the Drop at the shard: the first two entries the desk keeps, the third stands in the shard's part.
    pub fn tell_in(
        &mut self,
        part: &mut ShardPart,
        stamps: [u64; 3],
        key: &Key,
        event: &Event,
    ) -> Result<(), DeskFault>
        requires here { home self.old.shards key.now.name ≡ part.old.shard.number }
        requires same { part.old.shard.peers.shards ≡ self.old.shards }
        // Just that item is put.
        ensures desk { OnOk result (self.new
            ≡ with_kept self.old (tell_kept self.old.number stamps key.now event.now)) }
        ensures part { OnOk result (part.new ≡ with_arrival part.old (FromDesk self.old.number) (slice_index stamps 2)
            (record { key = key.now; event = event.now; condition = None; session = [] })) }
        // It is refused only for the first reason that holds, and for memory only where none does.
        ensures could { (settings : Settings) → settings.node ≡ node_in part.old
            → OnOk result (tell_refusal settings part.old self.old key.now event.now.kind ≡ None) }
        ensures fault { (settings : Settings) → settings.node ≡ node_in part.old
            → IfErr result (λ f. f
            ≡ unwrap_or (tell_refusal settings part.old self.old key.now event.now.kind) DeskFault.NoMemory) }
        ensures err { OnErr result ((self.new ≡ self.old) × (part.new ≡ part.old)) }
    {
        if let Some(fault) = self.tell_refusal(part, key, event) {
            return Err(fault);
        }
        self.told(part, stamps, key, event)?;
        Ok(())
    }
}
