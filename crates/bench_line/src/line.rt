//! One connection: how it is kept, and how it is seen.
ghost use Rattle.std.specs.Prelude.{◌≡◌, ◌++◌, length, IfErr, OnOk, OnErr, option_to_list, option_copied, slice_get};
ghost use Rattle.std.specs.Prelude.{nat_lt, ◌-◌};

use crate::limit::MAX_MESSAGE;
use crate::places::Call;
use bench_item::{Heard, Item, LineEvent, LineState, MAX_WAITING, Opening, StepFault};
use bench_log::KeptItem;
use dia_frame::Framer;
use std::alloc::Global;
use std::marker::Model;

/// What the framer of a connection was before a call.
#[derive(Drop)]
pub enum FramerBefore {
    /// The call left it.
    Same,
    /// The call put octets behind its rest, which had so many.
    Rest(usize),
    /// It was this.
    Whole(Box<Framer>),
}

impl FramerBefore {
    ghost use Rattle.bench_line.specs.Before.{framer_before};

    // The framer becomes what it was before.
    fn restore(self, framer: &mut Framer)
        ensures { framer.new ≡ framer_before self framer.old }
    {
        match self {
            FramerBefore::Same => {}
            FramerBefore::Rest(len) => framer.truncate_rest(len),
            FramerBefore::Whole(before) => *framer = Box::into_inner(before),
        }
    }
}

/// What a connection was before a call. Of what it put out and sent only the lengths are kept, since nothing before
/// them changes.
#[derive(Drop)]
pub struct Before {
    pub state: LineState,
    pub greeted: Option<u64>,
    pub framer: FramerBefore,
    pub outbox: usize,
    pub sent: usize,
}

/// A connection, from its opening on. A closed one stays readable.
pub(crate) struct Line {
    pub(crate) opening: Opening,
    pub(crate) state: LineState,
    pub(crate) framer: Framer,
    pub(crate) greeted: Option<u64>,
    // All that was ever put out. The first `lifted` items were lifted.
    pub(crate) outbox: Vec<KeptItem>,
    pub(crate) lifted: usize,
    pub(crate) sent: Vec<u8>,
}

// A derived `drop` is proved anew in each crate that holds a Line; this one is a call.
impl Drop for Line {
    fn drop(self) {
        let Line {
            opening: _,
            state: _,
            framer,
            greeted: _,
            outbox,
            lifted: _,
            sent,
        } = self;
    }
}

impl Model for Line {
    ghost use Rattle.bench_line.specs.Line.{LineView};

    ghost Value = { LineView };

    ghost view = { λ l. record {
      opening = l.opening;
      state = l.state;
      framer = l.framer;
      greeted = l.greeted;
      outbox = l.outbox.items;
      lifted = l.lifted;
      sent = l.sent.items;
    } };
}

impl Line {
    ghost use Rattle.bench_item.specs.Lines.{is_dial};
    ghost use Rattle.bench_line.specs.Line.{new_line, found, loss_of};
    ghost use Rattle.bench_line.specs.Before.{before_of, restored};
    ghost use Rattle.bench_line.specs.declared.line.FramerBefore.{FramerBefore};
    ghost use Rattle.bench_line.specs.Lines.{is_crowded, full_of, lifted_one};
    ghost use Rattle.bench_line.specs.Refusals.{refused_by};

    /// A connection that was just opened. Takes no memory.
    pub(crate) fn new(alloc: Global, opening: Opening) -> Line
        ensures { result ≡ new_line opening }
    {
        let state = match opening {
            Opening::Accepted => LineState::Open,
            Opening::Dialled { peer, .. } => LineState::Dialling { peer },
        };
        Line {
            opening,
            state,
            framer: Framer::new(alloc, MAX_MESSAGE),
            greeted: None,
            outbox: Vec::new(alloc),
            lifted: 0,
            sent: Vec::new(alloc),
        }
    }

    /// The connection of that number as a message or an event finds it.
    pub(crate) fn found(&self, line: u64) -> Heard
        ensures { result ≡ found line self.now }
    {
        Heard {
            line,
            opening: self.opening,
            greeted: self.greeted,
        }
    }

    /// Puts an item out, if there is one.
    pub(crate) fn put_out(&mut self, alloc: Global, post: Option<Item>) -> Result<(), StepFault>
        ensures ok { OnOk result (self.new ≡ record self.old { outbox = self.old.outbox ++ option_to_list post }) }
        ensures fault { IfErr result (λ f. f ≡ StepFault.NoMemory) }
        ensures err { OnErr result (self.new ≡ self.old) }
    {
        if let Some(item) = post {
            self.outbox.push(KeptItem::new(alloc, item)?)?;
        }
        Ok(())
    }

    /// What its loss is to it.
    pub(crate) fn loss(&self) -> LineEvent
        ensures { result ≡ loss_of self.now.state }
    {
        match self.state {
            LineState::Dialling { .. } => LineEvent::Refused,
            LineState::Open | LineState::Closed => LineEvent::Disconnected,
        }
    }

    /// Where it stands.
    pub(crate) fn state(&self) -> LineState
        ensures { result ≡ self.now.state }
    {
        self.state
    }

    /// From now on it stands so.
    pub(crate) fn stand(&mut self, state: LineState)
        ensures { self.new ≡ record self.old { state = state } }
    {
        self.state = state;
    }

    /// Whether a dial of that peer and generation opened it.
    pub(crate) fn is_of_dial(&self, peer: u64, generation: u64) -> bool
        ensures { result ≡ is_dial peer generation self.now.opening }
    {
        match self.opening {
            Opening::Accepted => false,
            Opening::Dialled {
                peer: p,
                generation: g,
            } => p == peer && g == generation,
        }
    }

    // Whether as many items wait as may.
    fn is_crowded(&self) -> bool
        ensures { result ≡ is_crowded self.now }
    {
        self.outbox.len().saturating_sub(self.lifted) >= MAX_WAITING
    }

    // That it is crowded, where it is.
    fn full(&self) -> Option<StepFault>
        ensures { result ≡ full_of self.now }
    {
        if self.is_crowded() {
            Some(StepFault::Full)
        } else {
            None
        }
    }

    /// Why it refuses a call, if it does.
    pub(crate) fn refusal(&self, call: Call) -> Option<StepFault>
        ensures { result ≡ refused_by call self.now }
    {
        match call {
            Call::Dialled => match self.state {
                LineState::Closed => Some(StepFault::Closed),
                LineState::Open => Some(StepFault::Nothing),
                LineState::Dialling { .. } => self.full(),
            },
            Call::Came => match self.state {
                LineState::Closed | LineState::Dialling { .. } => Some(StepFault::Closed),
                LineState::Open => self.full(),
            },
            Call::Lost => match self.state {
                LineState::Closed => Some(StepFault::Closed),
                LineState::Open | LineState::Dialling { .. } => self.full(),
            },
        }
    }

    /// All that it sent.
    pub(crate) fn sent(&self) -> &[u8]
        ensures { result.now ≡ self.now.sent }
    {
        &self.sent
    }

    /// An item that was put out, by its place from 0.
    pub(crate) fn item(&self, place: usize) -> Option<&KeptItem>
        ensures { option_copied result ≡ slice_get self.now.outbox place }
    {
        self.outbox.get(place)
    }

    /// How many items were lifted.
    pub(crate) fn lifted(&self) -> usize
        ensures { result ≡ self.now.lifted }
    {
        self.lifted
    }

    /// The oldest item that waits.
    pub(crate) fn next(&self) -> Option<&KeptItem>
        ensures { option_copied result ≡ slice_get self.now.outbox self.now.lifted }
    {
        self.outbox.get(self.lifted)
    }

    /// Lifts the oldest item that waits, if one does.
    pub(crate) fn lift(&mut self) -> bool
        ensures lifted { self.new ≡ lifted_one self.old }
        ensures is { result ≡ nat_lt self.old.lifted (length self.old.outbox) }
    {
        if self.lifted >= self.outbox.len() {
            return false;
        }
        self.lifted += 1;
        true
    }

    /// The last item that was lifted waits again.
    pub(crate) fn unlift(&mut self)
        ensures { self.new ≡ record self.old { lifted = self.old.lifted - 1 } }
    {
        self.lifted = self.lifted.saturating_sub(1);
    }

    /// What it is before a call that leaves its framer.
    pub(crate) fn before(&self) -> Before
        ensures { result ≡ before_of FramerBefore.Same self.now }
    {
        Before {
            state: self.state,
            greeted: self.greeted,
            framer: FramerBefore::Same,
            outbox: self.outbox.len(),
            sent: self.sent.len(),
        }
    }

    /// How many items were put out since.
    pub(crate) fn posted_since(&self, before: &Before) -> usize
        ensures { result ≡ length self.now.outbox - before.now.outbox }
    {
        self.outbox.len().saturating_sub(before.outbox)
    }

    /// It becomes what it was before a call.
    pub(crate) fn restore(&mut self, before: Before)
        ensures { self.new ≡ restored before self.old }
    {
        let Before {
            state,
            greeted,
            framer,
            outbox,
            sent,
        } = before;
        self.state = state;
        self.greeted = greeted;
        framer.restore(&mut self.framer);
        self.outbox.truncate(outbox);
        self.sent.truncate(sent);
    }
}
