//! The Framer: octets in, frames out.

ghost use Rattle.std.specs.Prelude.{◌≡◌, ◌∷◌, [], ◌++◌, length, take, List, ℕ, MatchOption, IfOk};
ghost use Rattle.std.specs.Prelude.{IfSome, OnErr, IsErrOf};
ghost use Rattle.std.specs.Prelude.{None, true, false, if◌then◌else◌};

use crate::cut::{cut_frames, fault_across, fault_of, is_part, room_of};
use crate::fault::{FeedError, FrameFault};
use base_list::Octets;
use std::alloc::{AllocError, Global};
use std::collections::VecDeque;
use std::marker::Model;

/// Takes the octets of a stream in any pieces and gives its messages (RFC 6733 section 3).
///
/// In: `feed`, `hold`. Out: `next_frame`. Looks: `rest`, `rest_len`. The feed that finds a fault keeps the frames
/// before it, which are still handed out.
pub struct Framer {
    alloc: Global,
    limit: usize,
    waiting: VecDeque<Octets>,
    rest: Vec<u8>,
    broken: bool,
}

// A derived `drop` is proved anew in each crate that holds a Framer; this one is a call.
impl Drop for Framer {
    fn drop(self) {
        let Framer {
            alloc: _,
            limit: _,
            waiting,
            rest,
            broken: _,
        } = self;
    }
}

impl Model for Framer {
    ghost use Rattle.std.specs.Prelude.{◌≤◌, vec_capacity};
    ghost use Rattle.dia_frame.specs.Framer.{FramerState};
    ghost use Rattle.dia_frame.specs.Whole.{room_of};

    ghost Value = { FramerState };

    ghost view = { λ f. record { limit = f.limit; waiting = f.waiting.items; rest = f.rest.items; broken = f.broken } };

    ghost invariant = { λ f. room_of f.limit f.rest.items ≤ vec_capacity f.rest };
}

impl Framer {
    ghost use Rattle.dia_frame.specs.Framer.{can_hold, Feeds, Holds, HoldsNext, MayNeedMemory, Shows};
    ghost use Rattle.dia_frame.specs.declared.fault.FeedError.{FeedError};

    /// A Framer for messages of at most `limit` octets. Takes no memory yet.
    pub fn new(alloc: Global, limit: usize) -> Framer
        ensures value { result ≡ record { limit = limit; waiting = []; rest = []; broken = false } }
        ensures start { Shows result limit [] [] None }
    {
        Framer {
            alloc,
            limit,
            waiting: VecDeque::new(alloc),
            rest: Vec::new(alloc),
            broken: false,
        }
    }

    /// Takes the next piece of the stream, and says how many frames wait. A faulty header is found
    /// with the octet that shows it: the first for the version, the fourth for the length. No octet
    /// from that header on is kept.
    ///
    /// Memory is asked for only where the piece completes a message, or brings the first octet of one
    /// or the fourth, with which there is room for the whole message.
    ///
    /// The time of all feeds together is in proportion to the octets fed, however small the pieces.
    pub fn feed(&mut self, piece: &[u8]) -> Result<usize, FeedError>
        // What each answer means.
        ensures feeds { Feeds self.old piece.now result self.new }

        // However the stream was cut: what was handed out, what waits and the rest are its frames.
        ensures joined { (limit : ℕ) (handed : List (List ℕ)) (stream : List ℕ) → Holds self.old limit handed stream
            → HoldsNext self.new limit handed (stream ++ piece.now) result }

        // A fault is told whatever the memory, unless there are frames to keep, and a message goes on in its room.
        ensures memory { IsErrOf result FeedError.NoMemory → MayNeedMemory self.old piece.now }
    {
        self.take(piece)
    }

    // Takes no more octets of the stream, because of this fault.
    fn break_off(&mut self, fault: FrameFault) -> FeedError
        ensures is { result ≡ FeedError.Fault fault }
        ensures broken { self.new ≡ record self.old { rest = []; broken = true } }
    {
        self.rest.clear();
        self.broken = true;
        FeedError::Fault(fault)
    }

    fn take(&mut self, piece: &[u8]) -> Result<usize, FeedError>
        ensures feeds { Feeds self.old piece.now result self.new }
        ensures memory { IsErrOf result FeedError.NoMemory → MayNeedMemory self.old piece.now }
    {
        if self.broken {
            return Err(FeedError::Fault(FrameFault::Broken));
        }
        if let Some(fault) = fault_across(self.limit, &self.rest, piece) {
            return Err(self.break_off(fault));
        }
        let held = self.rest.len();
        self.rest.extend_from_slice(piece)?;
        if let Err(refused) = cut_frames(
            self.alloc,
            self.limit,
            &mut self.rest,
            &mut self.waiting,
        ) {
            self.rest.truncate(held);
            return Err(FeedError::from(refused));
        }
        match fault_of(self.limit, &self.rest) {
            None => Ok(self.waiting.len()),
            Some(fault) => Err(self.break_off(fault)),
        }
    }

    // Whether a piece may be held.
    fn can_hold(&self, piece: &[u8]) -> bool
        ensures { result ≡ can_hold self.now piece.now }
    {
        !self.broken && is_part(self.limit, &self.rest, piece)
    }

    /// Takes a piece behind which no message is whole and no fault shows, as `feed` does, and says so; any other
    /// changes nothing. It is undone by `truncate_rest`, to as many octets as there were before.
    pub fn hold(&mut self, piece: &[u8]) -> Result<bool, AllocError>
        ensures held { IfOk result (λ held. held ≡ can_hold self.old piece.now) }
        ensures ok { IfOk result (λ held. self.new
            ≡ (if held then record self.old { rest = self.old.rest ++ piece.now } else self.old)) }
        ensures joined { IfOk result (λ held. (limit : ℕ) (handed : List (List ℕ)) (stream : List ℕ) → held ≡ true
            → Shows self.old limit handed stream None → Shows self.new limit handed (stream ++ piece.now) None) }
        // Memory is asked for only where the piece is held and begins a message, or shows how long it is.
        ensures memory { OnErr result ((can_hold self.old piece.now ≡ true) × MayNeedMemory self.old piece.now) }
        ensures err { OnErr result (self.new ≡ self.old) }
    {
        if !self.can_hold(piece) {
            return Ok(false);
        }
        match self.feed(piece) {
            Ok(_) => Ok(true),
            Err(_) => Err(AllocError),
        }
    }

    /// Keeps the first octets of the rest, as many as `len`. Takes no memory.
    pub fn truncate_rest(&mut self, len: usize)
        ensures { self.new ≡ record self.old { rest = take len self.old.rest } }
    {
        self.rest.truncate(len);
    }

    /// The oldest frame that waits. Takes no memory.
    pub fn next_frame(&mut self) -> Option<Octets>
        ensures oldest { MatchOption result
            ((self.old.waiting ≡ []) × (self.new ≡ self.old))
            (λ m. self.old ≡ record self.new { waiting = m ∷ self.new.waiting }) }
        ensures handed { IfSome result (λ m. (limit : ℕ) (handed : List (List ℕ)) (stream : List ℕ)
            → Holds self.old limit handed stream → Holds self.new limit (handed ++ m ∷ []) stream) }
    {
        self.waiting.pop_front()
    }

    /// The octets behind the last whole message, none after a fault. Takes no memory.
    pub fn rest(&self) -> &[u8]
        ensures { result.now ≡ self.now.rest }
    {
        self.rest.as_slice()
    }

    /// How many octets are held that are no whole message. Takes no memory.
    pub fn rest_len(&self) -> usize
        ensures { result ≡ length self.now.rest }
    {
        self.rest.len()
    }

    /// An equal Framer.
    pub fn copy(&self) -> Result<Framer, AllocError>
        ensures { IfOk result (λ f. f ≡ self.now) }
    {
        let mut waiting = VecDeque::with_capacity(self.alloc, self.waiting.len())?;
        for i in 0..self.waiting.len() {
            let frame = &self.waiting[i];
            waiting.push_back(frame.copy(self.alloc)?)?;
        }
        let mut rest = Vec::with_capacity(self.alloc, room_of(self.limit, &self.rest))?;
        rest.extend_from_slice(&self.rest)?;
        Ok(Framer {
            alloc: self.alloc,
            limit: self.limit,
            waiting,
            rest,
            broken: self.broken,
        })
    }
}
