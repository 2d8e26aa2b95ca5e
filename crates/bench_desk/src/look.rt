//! A desk looks at a machine.
ghost use Rattle.std.specs.Prelude.{◌≡◌, ◌∷◌, [], None, true, IfNone, IfOk, IfErr, OnOk, OnErr, unwrap_or};
ghost use Rattle.bench_item.specs.Keys.{home};
ghost use Rattle.bench_spec.specs.Desks.{agrees};
ghost use Rattle.bench_spec.specs.Merged.{Saw, not_there};
ghost use Rattle.bench_spec.specs.Settings.{Settings};
ghost use Rattle.bench_desk.specs.Desks.{look_at, look_refusal, seen_as, state_in, with_kept};
ghost use Rattle.bench_desk.specs.Parts.{node_in};

use crate::desk::Desk;
use crate::fault::DeskFault;
use crate::note::keep_look;
use crate::part::ShardPart;
use bench_item::{Key, home};
use bench_move::may_look;
use bench_parts::Note;
use bench_shard::ShardState;
use std::alloc::{AllocError, Global};
use tab_law::PLACES;
use tab_step::MachineState;

/// What a desk is told of a machine.
#[derive(Clone, Copy)]
pub struct Look {
    /// The number of its state; 0 where it is not there yet.
    pub state: u8,
    /// Its registers; all 0 where it is not there yet.
    pub regs: [u64; PLACES],
    /// How many of the desk's items wait in its shard.
    pub waiting: u64,
    /// How many of them were handled there.
    pub handled: u64,
}

/// A machine that is not there.
fn not_there() -> MachineState
    ensures { result ≡ not_there }
{
    MachineState {
        state: 0,
        regs: [0; PLACES],
    }
}

/// Where a machine of the shard stands.
fn state_in(alloc: Global, shard: &ShardState, key: &Key) -> Result<MachineState, AllocError>
    ensures { IfOk result (λ state. state ≡ state_in shard.now key.now) }
{
    let Some(place) = shard.find(alloc, key)? else {
        return Ok(not_there());
    };
    match shard.state(place) {
        None => Ok(not_there()),
        Some(state) => Ok(state),
    }
}

impl Desk {
    // Keeps what it saw.
    fn keep_seen(
        &mut self,
        stamp: u64,
        key: &Key,
        stands: &MachineState,
        waiting: u64,
        handled: u64,
    ) -> Result<(), DeskFault>
        ensures ok { OnOk result (self.new ≡ with_kept self.old (Saw (record {
          stamp = stamp;
          key = key.now;
          stands = stands.now;
          waiting = waiting;
          handled = handled;
        }) ∷ [])) }
        ensures fault { IfErr result (λ f. f ≡ DeskFault.NoMemory) }
        ensures err { OnErr result (self.new ≡ self.old) }
    {
        let look = keep_look(self.alloc, stamp, key, stands, waiting, handled)?;
        self.notes.push(Note::Saw(look))?;
        self.seen[home(self.shards, key)] = handled;
        Ok(())
    }

    // Why a look is refused, memory aside.
    fn look_refusal(&self, part: &ShardPart, stamp: u64, key: &Key) -> Option<DeskFault>
        requires { part.now.shard.peers.shards ≡ self.now.shards }
        ensures refusal { (settings : Settings) → settings.node ≡ node_in part.now
            → result ≡ look_refusal settings part.now self.now stamp key.now }
        ensures agreed { IfNone result ((settings : Settings) → settings.node.shards ≡ self.now.shards
            → agrees settings self.now.number self.now.kept (look_at part.now self.now.number stamp key.now) ≡ true) }
    {
        if !may_look(part.shard().peers(), key) {
            return Some(DeskFault::Unknown);
        }
        let (waiting, handled) = part.counts(self.number());
        if !self.agrees(key, waiting, handled) {
            return Some(DeskFault::Disagree);
        }
        None
    }

    // Looks, unless memory is refused.
    fn seen(&mut self, part: &ShardPart, stamp: u64, key: &Key) -> Result<Look, DeskFault>
        ensures ok { IfOk result (λ look. seen_as stamp key.now look ≡ look_at part.now self.old.number stamp key.now) }
        ensures kept { IfOk result (λ look. self.new ≡ with_kept self.old (Saw (seen_as stamp key.now look) ∷ [])) }
        ensures fault { IfErr result (λ f. f ≡ DeskFault.NoMemory) }
        ensures err { OnErr result (self.new ≡ self.old) }
    {
        let (waiting, handled) = part.counts(self.number());
        let stands = state_in(self.alloc, part.shard(), key)?;
        self.keep_seen(stamp, key, &stands, waiting, handled)?;
        Ok(Look {
            state: stands.state,
            regs: stands.regs,
            waiting,
            handled,
        })
    }

    /// Looks at a machine, in the shard that it is of, which is lent,
    /// and keeps what it saw with the stamp that was drawn for it.
    pub fn look_in(&mut self, part: &ShardPart, stamp: u64, key: &Key) -> Result<Look, DeskFault>
        requires here { home self.old.shards key.now.name ≡ part.now.shard.number }
        requires same { part.now.shard.peers.shards ≡ self.old.shards }
        // The shard's state and registers, and the desk's counts there.
        ensures ok { IfOk result (λ look. seen_as stamp key.now look ≡ look_at part.now self.old.number stamp key.now) }
        ensures kept { IfOk result (λ look. self.new ≡ with_kept self.old (Saw (seen_as stamp key.now look) ∷ [])) }
        // All that the desk told the shard waits there or was handled,
        // and no less was handled than when it last looked.
        ensures agreed { IfOk result (λ look. (settings : Settings) → settings.node.shards ≡ self.old.shards
            → agrees settings self.old.number self.old.kept (seen_as stamp key.now look) ≡ true) }
        // It is refused only for the first reason that holds, and for memory only where none does.
        ensures could { (settings : Settings) → settings.node ≡ node_in part.now
            → IfOk result (λ look. look_refusal settings part.now self.old stamp key.now ≡ None) }
        ensures fault { (settings : Settings) → settings.node ≡ node_in part.now
            → IfErr result (λ f. f
            ≡ unwrap_or (look_refusal settings part.now self.old stamp key.now) DeskFault.NoMemory) }
        ensures err { OnErr result (self.new ≡ self.old) }
    {
        if let Some(fault) = self.look_refusal(part, stamp, key) {
            return Err(fault);
        }
        self.seen(part, stamp, key)
    }
}
