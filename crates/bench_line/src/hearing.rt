//! What happens to one connection.
ghost use Rattle.std.specs.Prelude.{◌≡◌, List, length, is_some, IfOk, IfErr, IfSome, MatchOption, OnOk, OnErr};

use crate::line::{Before, FramerBefore, Line};
use crate::round::{Round, fed};
use base_codes::DeedCode;
use bench_item::{Hears, LineEvent, LineItem, LineState, StepFault};
use dia_frame::{FrameFault, Framer};
use std::alloc::Global;
use std::mem;

/// What a piece comes to, apart from the connection: the framer behind it, what its messages make, and the fault that
/// ends it.
#[derive(Drop)]
struct Listened {
    framer: Framer,
    round: Round,
    ended: Option<FrameFault>,
}

impl Line {
    ghost use Rattle.dia_frame.specs.Framer.{can_hold};
    ghost use Rattle.bench_item.specs.Lines.{LineStep};
    ghost use Rattle.bench_item.specs.declared.opening.Opening.{Opening};
    ghost use Rattle.bench_item.specs.declared.line_state.LineState.{LineState};
    ghost use Rattle.bench_line.specs.Line.{acknowledged, lost, delivered, undialled, IsAlive, Stands};
    ghost use Rattle.bench_line.specs.Talk.{meaning, stream_of};
    ghost use Rattle.bench_line.specs.Rounds.{kept, IsHeard, IsHolding, Receives};
    ghost use Rattle.bench_line.specs.Before.{restored};

    /// Its dial is acknowledged.
    pub(crate) fn acknowledge<T: Hears>(
        &mut self,
        alloc: Global,
        rules: &T,
        line: u64,
    ) -> Result<(), StepFault>
        ensures ok { OnOk result (self.new
            ≡ acknowledged (meaning T.heard T.turned T.octets_of rules.now) line self.old) }
        ensures fault { IfErr result (λ f. f ≡ StepFault.NoMemory) }
        ensures err { OnErr result (self.new ≡ self.old) }
    {
        let post = rules.on_event(alloc, self.found(line), LineEvent::Acknowledged)?;
        self.put_out(alloc, post)?;
        self.state = LineState::Open;
        Ok(())
    }

    /// It is lost.
    pub(crate) fn lose<T: Hears>(
        &mut self,
        alloc: Global,
        rules: &T,
        line: u64,
    ) -> Result<(), StepFault>
        ensures ok { OnOk result (self.new ≡ lost (meaning T.heard T.turned T.octets_of rules.now) line self.old) }
        ensures fault { IfErr result (λ f. f ≡ StepFault.NoMemory) }
        ensures err { OnErr result (self.new ≡ self.old) }
    {
        let post = rules.on_event(alloc, self.found(line), self.loss())?;
        self.put_out(alloc, post)?;
        self.state = LineState::Closed;
        Ok(())
    }

    /// Octets came on it. Those that complete no message are held behind the rest, whatever its length.
    pub(crate) fn receive<T: Hears>(
        &mut self,
        alloc: Global,
        rules: &T,
        line: u64,
        piece: &[u8],
    ) -> Result<(Option<FrameFault>, Before), StepFault>
        ensures stands { IfOk result (λ r. (opening : Opening) (happened : List LineStep)
            → Stands (meaning T.heard T.turned T.octets_of rules.now) line self.old opening happened
            → self.old.state ≡ LineState.Open
            → Receives (meaning T.heard T.turned T.octets_of rules.now) line opening happened piece.now self.new r.0) }
        ensures outbox { IfOk result (λ r. r.1.outbox ≡ length self.old.outbox) }
        ensures undone { IfOk result (λ r. restored r.1 self.new ≡ self.old) }
        ensures fault { IfErr result (λ f. f ≡ StepFault.NoMemory) }
        ensures err { OnErr result (self.new ≡ self.old) }
    {
        match self.hold(piece)? {
            Some(before) => Ok((None, before)),
            None => self.complete(alloc, rules, line, piece),
        }
    }

    // Holds a piece, where it completes no message and shows no fault.
    fn hold(&mut self, piece: &[u8]) -> Result<Option<Before>, StepFault>
        ensures held { IfOk result (λ r. is_some r ≡ can_hold self.old.framer piece.now) }
        ensures ok { IfOk result (λ r. MatchOption r (self.new ≡ self.old)
            (λ _. IsHolding piece.now self.old self.new)) }
        ensures outbox { IfOk result (λ r. IfSome r (λ before. before.outbox ≡ length self.old.outbox)) }
        ensures undone { IfOk result (λ r. IfSome r (λ before. restored before self.new ≡ self.old)) }
        ensures fault { IfErr result (λ f. f ≡ StepFault.NoMemory) }
        ensures err { OnErr result (self.new ≡ self.old) }
    {
        let held = self.framer.rest_len();
        if !self.framer.hold(piece)? {
            return Ok(None);
        }
        let mut before = self.before();
        before.framer = FramerBefore::Rest(held);
        Ok(Some(before))
    }

    // Hears a piece that completes a message or shows a fault, with a framer beside its own.
    fn complete<T: Hears>(
        &mut self,
        alloc: Global,
        rules: &T,
        line: u64,
        piece: &[u8],
    ) -> Result<(Option<FrameFault>, Before), StepFault>
        ensures stands { IfOk result (λ r. (opening : Opening) (happened : List LineStep)
            → Stands (meaning T.heard T.turned T.octets_of rules.now) line self.old opening happened
            → self.old.state ≡ LineState.Open
            → Receives (meaning T.heard T.turned T.octets_of rules.now) line opening happened piece.now self.new r.0) }
        ensures outbox { IfOk result (λ r. r.1.outbox ≡ length self.old.outbox) }
        ensures undone { IfOk result (λ r. restored r.1 self.new ≡ self.old) }
        ensures fault { IfErr result (λ f. f ≡ StepFault.NoMemory) }
        ensures err { OnErr result (self.new ≡ self.old) }
    {
        let mut before = self.before();
        let Listened {
            framer,
            round,
            ended,
        } = self.listen(alloc, rules, line, piece)?;
        let next = Box::new(alloc, framer)?;
        let framer = self.keep(next, round)?;
        before.framer = FramerBefore::Whole(framer);
        Ok((ended, before))
    }

    // Hears a piece. The connection is as it was.
    fn listen<T: Hears>(
        &self,
        alloc: Global,
        rules: &T,
        line: u64,
        piece: &[u8],
    ) -> Result<Listened, StepFault>
        ensures heard { IfOk result (λ r. (opening : Opening) (happened : List LineStep)
            → IsAlive (meaning T.heard T.turned T.octets_of rules.now) line self.now opening happened
            → IsHeard (meaning T.heard T.turned T.octets_of rules.now) line self.now opening (stream_of happened)
            piece.now r.framer r.round r.ended) }
        ensures fault { IfErr result (λ f. f ≡ StepFault.NoMemory) }
    {
        let mut framer = self.framer.copy()?;
        let fault = fed(&mut framer, piece)?;
        let mut round = Round::of_frames(alloc, rules, self.found(line), &mut framer)?;
        let ended = round.end(alloc, rules, fault)?;
        Ok(Listened {
            framer,
            round,
            ended,
        })
    }

    // Keeps what was heard, and hands out the framer before it in the memory of the new one.
    fn keep(&mut self, framer: Box<Framer>, round: Round) -> Result<Box<Framer>, StepFault>
        ensures ok { OnOk result (self.new ≡ kept framer.value round self.old) }
        ensures before { IfOk result (λ f. f.value ≡ self.old.framer) }
        ensures fault { IfErr result (λ f. f ≡ StepFault.NoMemory) }
        ensures err { OnErr result (self.new ≡ self.old) }
    {
        let Round {
            at,
            mut posts,
            answers,
            closed,
        } = round;
        self.outbox.reserve(posts.len())?;
        self.sent.extend_from_slice(&answers)?;
        self.outbox.append(&mut posts).unwrap();
        self.greeted = at.greeted;
        if closed {
            self.state = LineState::Closed;
        }
        let mut before = framer;
        mem::swap(&mut self.framer, &mut *before);
        Ok(before)
    }

    /// A deed is dropped there. A closed connection does nothing.
    pub(crate) fn deliver<T: Hears>(
        &mut self,
        alloc: Global,
        rules: &T,
        item: &LineItem,
    ) -> Result<(), StepFault>
        ensures ok { OnOk result (self.new
            ≡ delivered (meaning T.heard T.turned T.octets_of rules.now) item.now self.old) }
        ensures fault { IfErr result (λ f. f ≡ StepFault.NoMemory) }
        ensures err { OnErr result (self.new ≡ self.old) }
    {
        if let LineState::Closed = self.state {
            return Ok(());
        }
        rules.write(alloc, item, &mut self.sent)?;
        if item.deed.code() == DeedCode::Close.number() {
            self.state = LineState::Closed;
        }
        Ok(())
    }

    /// The dial of that peer and generation is given up: the connection that it opened closes.
    pub(crate) fn undial(&mut self, peer: u64, generation: u64)
        ensures { self.new ≡ undialled peer generation self.old }
    {
        if self.is_of_dial(peer, generation) {
            self.state = LineState::Closed;
        }
    }
}
