//! All that is counted, entry by entry.
ghost use Rattle.std.specs.Prelude.{◌≡◌, OnErr, OnOk, IfOk, replicate, slice_index, slice_set};
ghost use Rattle.live_stats.specs.Tallies.{began_with, moved_by, noted, noted_by, noted_heard, noted_sent};
ghost use Rattle.live_stats.specs.Tallies.{sessions_after};
ghost use Rattle.live_stats.specs.Tallies.{states_after};

use crate::flow::{Flow, zeros};
use crate::seen::{Message, Seen, seen_in};
use base_list::Octets;
use base_times::more;
use bench_item::{Entry, MAX_LINES, Role};
use std::alloc::{AllocError, Global};
use std::marker::Model;

/// What stands on all accounts together.
#[derive(Clone, Copy, PartialEq, Eq)]
pub struct Sums {
    pub reserved: u128,
    pub debited: u128,
}

/// Counts over entries of a log: since the last line, but for where machines stand. A contract sees a `Tally`.
pub struct Stats {
    // The names of the states of a peer's machine.
    pub(crate) states: Vec<Octets>,
    // How many peers stand in each of them.
    pub(crate) peers: Vec<u64>,
    // How many sessions stand in another state than their first.
    pub(crate) sessions: u64,
    // When octets last came on each connection.
    pub(crate) came: Vec<u64>,
    // Requests that came, and the answers that this node sent.
    pub(crate) inward: Flow,
    // Requests that this node sent, and the answers that came.
    pub(crate) outward: Flow,
    // The moment of the last line.
    pub(crate) began: u64,
}

// A derived `drop` is proved anew in each crate that holds such a value; this one is a call.
impl Drop for Stats {
    fn drop(self) {
        let Stats {
            states,
            peers,
            sessions: _,
            came,
            inward,
            outward,
            began: _,
        } = self;
    }
}

impl Model for Stats {
    ghost use Rattle.live_stats.specs.Tallies.{Tally};

    ghost Value = { Tally };

    ghost view = { λ s. record {
      states = s.states.items;
      peers = s.peers.items;
      sessions = s.sessions;
      came = s.came.items;
      inward = s.inward;
      outward = s.outward;
      began = s.began;
    } };
}

/// The number at a place, 0 past the end.
fn number_at(numbers: &[u64], place: usize) -> u64
    ensures { result ≡ slice_index numbers.now place }
{
    match numbers.get(place) {
        Some(number) => *number,
        None => 0,
    }
}

/// Writes a number at a place; past the end nothing changes.
#[tactic(auto, using(std::proofs::lemmas::List::set_past))]
fn write_at(numbers: &mut [u64], place: usize, number: u64)
    ensures { numbers.new ≡ slice_set numbers.old place number }
{
    if place < numbers.len() {
        numbers[place] = number;
    }
}

/// How many machines stand in each state, once one of them moved.
fn move_one(states: &mut [u64], before: u8, after: u8)
    ensures { states.new ≡ states_after states.old before after }
{
    let left = number_at(states, usize::from(before)).saturating_sub(1);
    write_at(states, usize::from(before), left);
    let come = more(number_at(states, usize::from(after)));
    write_at(states, usize::from(after), come);
}

/// How many sessions stand in another state than their first, once one of them moved.
fn sessions_after(sessions: u64, before: u8, after: u8) -> u64
    ensures { result ≡ sessions_after sessions before after }
{
    if before == 0 && after != 0 {
        more(sessions)
    } else if before != 0 && after == 0 {
        sessions.saturating_sub(1)
    } else {
        sessions
    }
}

/// So many zeros, with a number at the first place.
fn first_of(alloc: Global, len: usize, number: u64) -> Result<Vec<u64>, AllocError>
    ensures { IfOk result (λ numbers. numbers.items ≡ slice_set (replicate len 0) 0 number) }
{
    let mut numbers = zeros(alloc, len)?;
    write_at(&mut numbers, 0, number);
    Ok(numbers)
}

/// The same texts in memory of their own.
fn copies(alloc: Global, texts: &[Octets]) -> Result<Vec<Octets>, AllocError>
    ensures { IfOk result (λ copies. copies.items ≡ texts.now) }
{
    let mut copies = Vec::new(alloc);
    for text in texts {
        copies.push(text.copy(alloc)?)?;
    }
    Ok(copies)
}

impl Stats {
    /// Nothing counted, at a moment, where so many peers stand in the first of these states.
    pub fn new(
        alloc: Global,
        states: &[Octets],
        peers: u64,
        moment: u64,
    ) -> Result<Stats, AllocError>
        ensures { IfOk result (λ stats. stats ≡ began_with states.now peers moment) }
    {
        Ok(Stats {
            states: copies(alloc, states)?,
            peers: first_of(alloc, states.len(), peers)?,
            sessions: 0,
            came: zeros(alloc, MAX_LINES + 1)?,
            inward: Flow::new(alloc)?,
            outward: Flow::new(alloc)?,
            began: moment,
        })
    }

    // A message came on a connection: at the moment when octets last came there.
    fn hear(&mut self, line: u32, message: Message) -> Result<(), AllocError>
        ensures ok { OnOk result (self.new ≡ noted_heard self.old line message) }
        ensures err { OnErr result (self.new ≡ self.old) }
    {
        let moment = number_at(&self.came, line as usize);
        match message {
            Message::Request { key } => self.inward.request(key, moment),
            Message::Answer { key, code } => {
                self.outward.answer(key, code, moment);
                Ok(())
            }
        }
    }

    // A message was handed to its connection.
    fn send(&mut self, message: Message, moment: u64) -> Result<(), AllocError>
        ensures ok { OnOk result (self.new ≡ noted_sent self.old message moment) }
        ensures err { OnErr result (self.new ≡ self.old) }
    {
        match message {
            Message::Request { key } => self.outward.request(key, moment),
            Message::Answer { key, code } => {
                self.inward.answer(key, code, moment);
                Ok(())
            }
        }
    }

    // A machine moved.
    fn moved(&mut self, role: Role, before: u8, after: u8)
        ensures { self.new ≡ moved_by self.old role before after }
    {
        match role {
            Role::Peer => move_one(&mut self.peers, before, after),
            Role::Client | Role::Server => {
                self.sessions = sessions_after(self.sessions, before, after);
            }
        }
    }

    // Counts what an entry says.
    fn count(&mut self, seen: Seen, moment: u64) -> Result<(), AllocError>
        ensures ok { OnOk result (self.new ≡ noted_by self.old seen moment) }
        ensures err { OnErr result (self.new ≡ self.old) }
    {
        match seen {
            Seen::Nothing => {}
            Seen::Came(line) => write_at(&mut self.came, line as usize, moment),
            Seen::Heard(line, message) => {
                self.hear(line, message)?;
            }
            Seen::Sent(message) => {
                self.send(message, moment)?;
            }
            Seen::Moved(role, before, after) => self.moved(role, before, after),
        }
        Ok(())
    }

    /// Counts an entry that was added to the log at a moment, in microseconds.
    pub fn note(&mut self, moment: u64, entry: &Entry) -> Result<(), AllocError>
        ensures ok { OnOk result (self.new ≡ noted self.old moment entry.now) }
        ensures err { OnErr result (self.new ≡ self.old) }
    {
        self.count(seen_in(entry), moment)
    }
}
