//! A step of a connection is taken.
ghost use Rattle.std.specs.Prelude.{◌≡◌, ◌<◌, ◌≤◌, Err, IfErr, IfOk, IsSome, None, OnErr, OnOk, false, length, true};
ghost use Rattle.std.specs.Prelude.{unwrap_or};
ghost use Rattle.bench_item.specs.declared.limit.TheConstants.{MAX_LINES};
ghost use Rattle.bench_item.specs.declared.step.Step.TheVariants as steps;
ghost use Rattle.bench_spec.specs.Merged.{is_fed};
ghost use Rattle.live_parts.specs.LineParts.{joined_refusal, lift_refusal};
ghost use Rattle.bench_live.specs.Happened.{HasHappened, HasLifted, happen_refusal, happens};

use crate::shared::Shared;
use base_lock::hold;
use bench_item::{LineState, Source, Step, StepFault};
use live_parts::LinesPart;
use live_slot::{Hand, Turn, draw};
use std::alloc::AllocError;
use std::sync::Wait;
use std::sync::atomic::AtomicU64;

/// A connection is accepted, under the lock of the connections, with a stamp that is drawn now. Answers its number.
fn join_under(lines: &mut LinesPart, stamps: &AtomicU64) -> Result<u64, StepFault>
    ensures number { IfOk result (λ line. (0 < line) × (line ≤ MAX_LINES)) }
    ensures could { OnOk result (joined_refusal lines.old ≡ None) }
    ensures ok { OnOk result (HasHappened lines.old lines.new steps.Joined) }
    // It is refused only for the first reason that holds, and for memory only where none does.
    ensures fault { IfErr result (λ f. f ≡ unwrap_or (joined_refusal lines.old) StepFault.NoMemory) }
    ensures err { OnErr result (lines.new ≡ lines.old) }
{
    lines.joined(draw(stamps))
}

/// Something happens to a connection, under the lock of the connections, with a stamp that is drawn now.
fn happen_under(lines: &mut LinesPart, stamps: &AtomicU64, step: &Step) -> Result<(), StepFault>
    ensures could { OnOk result (happen_refusal lines.old step.now ≡ None) }
    ensures ok { OnOk result (HasHappened lines.old lines.new step.now) }
    // It is refused only for the first reason that holds, and for memory only where none does.
    ensures fault { IfErr result (λ f. f ≡ unwrap_or (happen_refusal lines.old step.now) StepFault.NoMemory) }
    ensures other { happens step.now ≡ false → result ≡ Err StepFault.Unknown }
    ensures err { OnErr result (lines.new ≡ lines.old) }
{
    let stamp = draw(stamps);
    match step {
        Step::Dialled(line) => lines.dialled(*line, stamp),
        Step::Came { line, piece } => lines.came(*line, piece.as_slice(), stamp),
        Step::Lost(line) => lines.lost(*line, stamp),
        Step::Joined
        | Step::Told { .. }
        | Step::Fired { .. }
        | Step::Lift(_)
        | Step::Drop(_)
        | Step::Work(_) => Err(StepFault::Unknown),
    }
}

/// Lifts the oldest item of a connection, under the lock of the connections, with a stamp that is drawn now.
fn lift_under(lines: &mut LinesPart, stamps: &AtomicU64, line: u32) -> Result<Hand, StepFault>
    ensures ok { IfOk result (λ hand. HasLifted lines.old lines.new line hand) }
    // It is refused only for the first reason that holds, and for memory only where none does.
    ensures fault { IfErr result (λ f. f ≡ unwrap_or (lift_refusal lines.old line) StepFault.NoMemory) }
    ensures err { OnErr result (lines.new ≡ lines.old) }
{
    let item = lines.lift(line, draw(stamps))?;
    Ok(Hand {
        item,
        key: None,
        is_named: true,
    })
}

/// Makes a hand for the connection at a place, where there is none.
fn make_hand(hands: &mut Vec<Option<Hand>>, place: usize) -> Result<(), AllocError> {
    let missing = place.saturating_add(1).saturating_sub(hands.len());
    for _more in 0..missing {
        hands.push(None)?;
    }
    Ok(())
}

impl Shared {
    /// Where a connection stands, if there is one of that number.
    pub fn state<R: Wait>(&self, rt: &R, line: u64) -> Option<LineState>
        ensures { line ≡ 0 → result ≡ None }
    {
        let lines = hold(rt, &self.lines);
        lines.lines().state(line)
    }

    /// How many connections there are.
    pub fn line_count<R: Wait>(&self, rt: &R) -> usize {
        let lines = hold(rt, &self.lines);
        lines.lines().count()
    }

    /// Copies what a connection sent from a place on, as much as there is and fits, to the front of `out`, and says how
    /// much that is.
    pub fn unsent<R: Wait>(&self, rt: &R, line: u64, from: usize, out: &mut [u8]) -> usize
        ensures { result ≤ length out.new }
    {
        let lines = hold(rt, &self.lines);
        lines.lines().unsent(line, from, out)
    }

    /// A connection is accepted. Answers its number.
    pub(crate) fn joined<R: Wait>(&self, rt: &R) -> Result<u64, StepFault>
        ensures { IfOk result (λ line. (0 < line) × (line ≤ MAX_LINES)) }
    {
        let mut lines = hold(rt, &self.lines);
        join_under(&mut lines, &self.stamps)
    }

    // Something happens to a connection.
    fn happen<R: Wait>(&self, rt: &R, step: &Step) -> Result<(), StepFault> {
        let mut lines = hold(rt, &self.lines);
        happen_under(&mut lines, &self.stamps, step)
    }

    // Lifts the oldest item of a connection into its hand.
    fn lift<R: Wait>(&self, rt: &R, hand: &mut Option<Hand>, line: u32) -> Result<(), StepFault>
        ensures full { IsSome hand.old → result ≡ Err StepFault.Nothing }
        ensures lifted { OnOk result (IsSome hand.new) }
        ensures err { OnErr result (hand.new ≡ hand.old) }
    {
        if hand.is_some() {
            return Err(StepFault::Nothing);
        }
        let mut lines = hold(rt, &self.lines);
        let own = lift_under(&mut lines, &self.stamps, line)?;
        *hand = Some(own);
        Ok(())
    }

    // Drops what a connection lifted, where it is for. Where who drops has no patience nothing comes of it while a
    // shard is at work.
    fn drop_held<R: Wait>(&self, rt: &R, line: u32, hand: &Hand, patient: bool) -> Turn {
        if !patient && self.is_busy(hand) {
            return Turn::Idle;
        }
        self.drop_item(rt, Source::Line(line), hand).0
    }

    // The same of what it lifted, if it did.
    fn put_down<R: Wait>(
        &self,
        rt: &R,
        hand: &mut Option<Hand>,
        line: u32,
        patient: bool,
    ) -> Result<(), StepFault>
        ensures empty { hand.old ≡ None → result ≡ Err StepFault.Nothing }
        ensures dropped { OnOk result (hand.new ≡ None) }
        ensures err { OnErr result (hand.new ≡ hand.old) }
    {
        let turn = match hand {
            None => return Err(StepFault::Nothing),
            Some(own) => self.drop_held(rt, line, own, patient),
        };
        match turn {
            Turn::Done => {
                *hand = None;
                Ok(())
            }
            Turn::Idle => Err(StepFault::Full),
            Turn::NoMemory => Err(StepFault::NoMemory),
        }
    }

    // Whether there is such a connection. Of one that has a hand that is known, and no lock is taken.
    fn has_line<R: Wait>(&self, rt: &R, hands: &[Option<Hand>], line: u32) -> bool {
        let has_hand = line != 0 && (line as usize) < hands.len();
        has_hand || self.state(rt, u64::from(line)).is_some()
    }

    // Lifts the oldest item of a connection, or drops what it lifted. There is to be such a connection.
    fn carry<R: Wait>(
        &self,
        rt: &R,
        hands: &mut Vec<Option<Hand>>,
        line: u32,
        lifts: bool,
        patient: bool,
    ) -> Result<(), StepFault> {
        if !self.has_line(rt, hands, line) {
            return Err(StepFault::Unknown);
        }
        if make_hand(hands, line as usize).is_err() {
            return Err(StepFault::NoMemory);
        }
        let Some(hand) = hands.get_mut(line as usize) else {
            return Err(StepFault::NoMemory);
        };
        if lifts {
            self.lift(rt, hand, line)
        } else {
            self.put_down(rt, hand, line, patient)
        }
    }

    /// Takes a step of a connection: what happens to it, and what is lifted from it, into its hand, and dropped. Each
    /// other step is refused as Unknown. Where who feeds has no patience a drop is refused while its shard is at work.
    pub fn take<R: Wait>(
        &self,
        rt: &R,
        hands: &mut Vec<Option<Hand>>,
        step: &Step,
        patient: bool,
    ) -> Result<(), StepFault>
        ensures fed { OnOk result (is_fed step.now ≡ true) }
        ensures other { is_fed step.now ≡ false → result ≡ Err StepFault.Unknown }
    {
        match step {
            Step::Joined => {
                self.joined(rt)?;
                Ok(())
            }
            Step::Dialled(_) | Step::Came { .. } | Step::Lost(_) => self.happen(rt, step),
            Step::Lift(Source::Line(line)) => self.carry(rt, hands, *line, true, patient),
            Step::Drop(Source::Line(line)) => self.carry(rt, hands, *line, false, patient),
            _ => Err(StepFault::Unknown),
        }
    }
}
