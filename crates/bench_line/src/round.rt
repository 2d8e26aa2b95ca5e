//! What the messages of one piece come to. It stands apart from the connection, which is as it was where memory runs
//! out.
ghost use Rattle.std.specs.Prelude.{◌≡◌, ◌++◌, [], ℕ, List, IfOk, IfErr, OnOk, None, false, option_to_list};
ghost use Rattle.dia_frame.specs.Framer.{Shows};

use bench_item::{Heard, Hears, Item, LineEvent, StepFault, Turn};
use bench_log::KeptItem;
use dia_frame::{FeedError, FrameFault, Framer};
use std::alloc::Global;
use std::marker::Model;

/// The connection behind the last message that was heard, and what the messages made it put out and answer.
#[derive(Drop)]
pub(crate) struct Round {
    pub(crate) at: Heard,
    pub(crate) posts: Vec<KeptItem>,
    pub(crate) answers: Vec<u8>,
    /// Whether it closes.
    pub(crate) closed: bool,
}

impl Model for Round {
    ghost use Rattle.bench_line.specs.Rounds.{RoundView};

    ghost Value = { RoundView };

    ghost view = { λ r. record { at = r.at; posts = r.posts.items; answers = r.answers.items; closed = r.closed } };
}

impl Round {
    ghost use Rattle.bench_line.specs.Rounds.{IsEnded, IsRound, IsTurned, no_round};
    ghost use Rattle.bench_line.specs.Talk.{meaning};

    /// No message was heard yet. Takes no memory.
    pub(crate) fn new(alloc: Global, at: Heard) -> Round
        ensures { result ≡ no_round at }
    {
        Round {
            at,
            posts: Vec::new(alloc),
            answers: Vec::new(alloc),
            closed: false,
        }
    }

    fn put_out(&mut self, alloc: Global, post: Option<Item>) -> Result<(), StepFault>
        ensures ok { OnOk result (self.new ≡ record self.old { posts = self.old.posts ++ option_to_list post }) }
        ensures fault { IfErr result (λ f. f ≡ StepFault.NoMemory) }
    {
        if let Some(item) = post {
            self.posts.push(KeptItem::new(alloc, item)?)?;
        }
        Ok(())
    }

    // Takes what is made of a message.
    fn take(&mut self, alloc: Global, turn: Turn) -> Result<(), StepFault>
        ensures ok { OnOk result (IsTurned turn self.old self.new) }
        ensures fault { IfErr result (λ f. f ≡ StepFault.NoMemory) }
    {
        let Turn {
            post,
            answer,
            greeted,
            closes,
        } = turn;
        self.put_out(alloc, post)?;
        self.answers.extend_from_slice(answer.as_slice())?;
        self.at.greeted = self.at.greeted.or(greeted);
        self.closed = closes;
        Ok(())
    }

    /// Hears a message.
    fn hear<T: Hears>(&mut self, alloc: Global, rules: &T, octets: &[u8]) -> Result<(), StepFault>
        ensures ok { OnOk result (IsTurned (T.heard rules.now self.old.at octets.now) self.old self.new) }
        ensures fault { IfErr result (λ f. f ≡ StepFault.NoMemory) }
    {
        let turn = rules.on_message(alloc, self.at, octets)?;
        self.take(alloc, turn)
    }

    /// Hears the messages that wait, up to the first that closes the connection.
    pub(crate) fn of_frames<T: Hears>(
        alloc: Global,
        rules: &T,
        at: Heard,
        framer: &mut Framer,
    ) -> Result<Round, StepFault>
        ensures round { IfOk result (IsRound (meaning T.heard T.turned T.octets_of rules.now) at framer.old.waiting) }
        ensures heard { IfOk result (λ r. r.closed ≡ false → framer.new ≡ record framer.old { waiting = [] }) }
        ensures fault { IfErr result (λ f. f ≡ StepFault.NoMemory) }
    {
        let mut round = Round::new(alloc, at);
        while let Some(frame) = framer.next_frame() {
            round.hear(alloc, rules, frame.as_slice())?;
            if round.closed {
                return Ok(round);
            }
        }
        Ok(round)
    }

    /// Ends the round at a fault of the stream, unless a message closed the connection before it. Answers the fault
    /// that ended it.
    pub(crate) fn end<T: Hears>(
        &mut self,
        alloc: Global,
        rules: &T,
        fault: Option<FrameFault>,
    ) -> Result<Option<FrameFault>, StepFault>
        ensures ok { IfOk result (IsEnded (meaning T.heard T.turned T.octets_of rules.now) fault self.old self.new) }
        ensures fault { IfErr result (λ f. f ≡ StepFault.NoMemory) }
    {
        if self.closed || fault.is_none() {
            return Ok(None);
        }
        let post = rules.on_event(alloc, self.at, LineEvent::Disconnected)?;
        self.put_out(alloc, post)?;
        self.closed = true;
        Ok(fault)
    }
}

/// Feeds a piece, and says which fault it shows.
pub(crate) fn fed(framer: &mut Framer, piece: &[u8]) -> Result<Option<FrameFault>, StepFault>
    ensures shows { IfOk result (λ fault. (limit : ℕ) (handed : List (List ℕ)) (stream : List ℕ)
        → Shows framer.old limit handed stream None → Shows framer.new limit handed (stream ++ piece.now) fault) }
    ensures fault { IfErr result (λ f. f ≡ StepFault.NoMemory) }
{
    match framer.feed(piece) {
        Ok(_) => Ok(None),
        Err(FeedError::Fault(fault)) => Ok(Some(fault)),
        Err(FeedError::NoMemory) => Err(StepFault::NoMemory),
    }
}
