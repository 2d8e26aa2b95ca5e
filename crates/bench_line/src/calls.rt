//! What happens to connections.
ghost use Rattle.std.specs.Prelude.{◌≡◌, ◌+◌, List, IfOk, IfErr, OnOk, OnErr, None, unwrap_or, map};
ghost use Rattle.bench_line.specs.Line.{undialled};
ghost use Rattle.bench_line.specs.Dials.{states_of_dial};

use crate::change::Change;
use crate::line::Line;
use crate::lines::Lines;
use crate::places::Call;
use bench_item::{Hears, LineItem, LineState, StepFault};
use dia_frame::FrameFault;
use std::alloc::Global;

/// What octets came to.
#[derive(Drop)]
pub struct Came {
    /// How many items were put out.
    pub posted: usize,
    /// The fault that closed the connection, none where a message closed it before.
    pub ended: Option<FrameFault>,
    pub change: Change,
}

/// What an acknowledgement or a loss came to.
#[derive(Drop)]
pub struct Posted {
    /// How many items were put out.
    pub posted: usize,
    pub change: Change,
}

impl<T: Hears> Lines<T> {
    ghost use Rattle.bench_item.specs.Lines.{Acknowledged, Received, Gone, Delivered, Undialled};
    ghost use Rattle.bench_line.specs.Lines.{Past, AreLinesAfter, one_more, with_step};
    ghost use Rattle.bench_line.specs.Lines.{fault_at, put_out, dialled_refusal};
    ghost use Rattle.bench_line.specs.Lines.{came_refusal, lost_refusal};
    ghost use Rattle.bench_line.specs.Lines.{with_line, lifted_one};
    ghost use Rattle.bench_line.specs.Talk.{meaning};
    ghost use Rattle.bench_line.specs.Change.{taken_back};

    /// The dial of a connection was acknowledged.
    pub fn dialled(&mut self, line: u64) -> Result<Posted, StepFault>
        ensures free { OnOk result (dialled_refusal self.old.lines line ≡ None) }
        ensures stands { OnOk result ((pasts : List Past)
            → AreLinesAfter (meaning T.heard T.turned T.octets_of self.old.rules) self.old.lines pasts
            → AreLinesAfter (meaning T.heard T.turned T.octets_of self.old.rules) self.new.lines
            (with_step line Acknowledged pasts)) }
        ensures posted { IfOk result (λ r. put_out self.new.lines line ≡ put_out self.old.lines line + r.posted) }
        ensures lifted { OnOk result (map (λ l. l.lifted) self.new.lines ≡ map (λ l. l.lifted) self.old.lines) }
        ensures undone { IfOk result (λ r. taken_back r.change self.new.lines ≡ self.old.lines) }
        ensures rules { self.new.rules ≡ self.old.rules }
        ensures fault { IfErr result (λ f. f ≡ unwrap_or (dialled_refusal self.old.lines line) StepFault.NoMemory) }
        ensures err { OnErr result (self.new ≡ self.old) }
    {
        let place = self.find_for(line, Call::Dialled)?;
        let at = &mut self.lines[place];
        let before = at.before();
        at.acknowledge(self.alloc, &self.rules, line)?;
        let posted = at.posted_since(&before);
        let change = Change::Changed { line, before };
        Ok(Posted { posted, change })
    }

    /// Octets came on a connection. Those that complete a message, or show a fault, are heard; the fault closes it.
    pub fn came(&mut self, line: u64, piece: &[u8]) -> Result<Came, StepFault>
        ensures free { OnOk result (came_refusal self.old.lines line ≡ None) }
        ensures stands { OnOk result ((pasts : List Past)
            → AreLinesAfter (meaning T.heard T.turned T.octets_of self.old.rules) self.old.lines pasts
            → AreLinesAfter (meaning T.heard T.turned T.octets_of self.old.rules) self.new.lines
            (with_step line (Received piece.now) pasts)) }
        // The fault of the stream, unless a message closed the connection before it.
        ensures ended { IfOk result (λ r. (pasts : List Past)
            → AreLinesAfter (meaning T.heard T.turned T.octets_of self.old.rules) self.old.lines pasts
            → r.ended ≡ fault_at (meaning T.heard T.turned T.octets_of self.old.rules) line piece.now pasts) }
        ensures posted { IfOk result (λ r. put_out self.new.lines line ≡ put_out self.old.lines line + r.posted) }
        ensures lifted { OnOk result (map (λ l. l.lifted) self.new.lines ≡ map (λ l. l.lifted) self.old.lines) }
        ensures undone { IfOk result (λ r. taken_back r.change self.new.lines ≡ self.old.lines) }
        ensures rules { self.new.rules ≡ self.old.rules }
        ensures fault { IfErr result (λ f. f ≡ unwrap_or (came_refusal self.old.lines line) StepFault.NoMemory) }
        ensures err { OnErr result (self.new ≡ self.old) }
    {
        let place = self.find_for(line, Call::Came)?;
        let at = &mut self.lines[place];
        let (ended, before) = at.receive(self.alloc, &self.rules, line, piece)?;
        let posted = at.posted_since(&before);
        let change = Change::Changed { line, before };
        Ok(Came {
            posted,
            ended,
            change,
        })
    }

    /// A connection was lost, or its dial refused.
    pub fn lost(&mut self, line: u64) -> Result<Posted, StepFault>
        ensures free { OnOk result (lost_refusal self.old.lines line ≡ None) }
        ensures stands { OnOk result ((pasts : List Past)
            → AreLinesAfter (meaning T.heard T.turned T.octets_of self.old.rules) self.old.lines pasts
            → AreLinesAfter (meaning T.heard T.turned T.octets_of self.old.rules) self.new.lines
            (with_step line Gone pasts)) }
        ensures posted { IfOk result (λ r. put_out self.new.lines line ≡ put_out self.old.lines line + r.posted) }
        ensures lifted { OnOk result (map (λ l. l.lifted) self.new.lines ≡ map (λ l. l.lifted) self.old.lines) }
        ensures undone { IfOk result (λ r. taken_back r.change self.new.lines ≡ self.old.lines) }
        ensures rules { self.new.rules ≡ self.old.rules }
        ensures fault { IfErr result (λ f. f ≡ unwrap_or (lost_refusal self.old.lines line) StepFault.NoMemory) }
        ensures err { OnErr result (self.new ≡ self.old) }
    {
        let place = self.find_for(line, Call::Lost)?;
        let at = &mut self.lines[place];
        let before = at.before();
        at.lose(self.alloc, &self.rules, line)?;
        let posted = at.posted_since(&before);
        let change = Change::Changed { line, before };
        Ok(Posted { posted, change })
    }

    /// A deed is dropped to a connection: one that sends a message, or a Close. Where the connection is closed or
    /// unknown nothing is done.
    pub fn deliver(&mut self, item: &LineItem) -> Result<Change, StepFault>
        ensures stands { OnOk result ((pasts : List Past)
            → AreLinesAfter (meaning T.heard T.turned T.octets_of self.old.rules) self.old.lines pasts
            → AreLinesAfter (meaning T.heard T.turned T.octets_of self.old.rules) self.new.lines
            (with_step item.now.line (Delivered item.now) pasts)) }
        ensures lifted { OnOk result (map (λ l. l.lifted) self.new.lines ≡ map (λ l. l.lifted) self.old.lines) }
        ensures undone { IfOk result (λ change. taken_back change self.new.lines ≡ self.old.lines) }
        ensures rules { self.new.rules ≡ self.old.rules }
        ensures fault { IfErr result (λ f. f ≡ StepFault.NoMemory) }
        ensures err { OnErr result (self.new ≡ self.old) }
    {
        let Ok(place) = self.find(item.line) else {
            return Ok(Change::Nothing);
        };
        let at = &mut self.lines[place];
        let before = at.before();
        at.deliver(self.alloc, &self.rules, item)?;
        let line = item.line;
        Ok(Change::Changed { line, before })
    }

    /// The dial of that peer and generation is given up: a connection that it opened closes.
    pub fn undial(&mut self, peer: u64, generation: u64) -> Result<Change, StepFault>
        ensures lines { OnOk result (self.new.lines ≡ map (undialled peer generation) self.old.lines) }
        ensures stands { OnOk result ((pasts : List Past)
            → AreLinesAfter (meaning T.heard T.turned T.octets_of self.old.rules) self.old.lines pasts
            → AreLinesAfter (meaning T.heard T.turned T.octets_of self.old.rules) self.new.lines
            (map (one_more (Undialled peer generation)) pasts)) }
        ensures lifted { OnOk result (map (λ l. l.lifted) self.new.lines ≡ map (λ l. l.lifted) self.old.lines) }
        ensures undone { IfOk result (λ change. taken_back change self.new.lines ≡ self.old.lines) }
        ensures rules { self.new.rules ≡ self.old.rules }
        ensures fault { IfErr result (λ f. f ≡ StepFault.NoMemory) }
        ensures err { OnErr result (self.new ≡ self.old) }
    {
        let states = states_of_dial(self.alloc, &self.lines, peer, generation)?;
        undial(&mut self.lines, peer, generation);
        Ok(Change::Undialled {
            peer,
            generation,
            states,
        })
    }

    /// Lifts the oldest item that waits on a connection, if one does. It stays readable. Takes no memory.
    pub fn lift(&mut self, line: u64) -> Change
        ensures lifted { self.new.lines ≡ with_line line lifted_one self.old.lines }
        ensures rules { self.new.rules ≡ self.old.rules }
        ensures stands { (pasts : List Past)
            → AreLinesAfter (meaning T.heard T.turned T.octets_of self.old.rules) self.old.lines pasts
            → AreLinesAfter (meaning T.heard T.turned T.octets_of self.old.rules) self.new.lines pasts }
        ensures undone { taken_back result self.new.lines ≡ self.old.lines }
    {
        let Ok(place) = self.find(line) else {
            return Change::Nothing;
        };
        let at = &mut self.lines[place];
        if at.lift() {
            return Change::Lifted { line };
        }
        Change::Nothing
    }
}

// Where the connections of a dial stand, in order.
fn states_of_dial(
    alloc: Global,
    lines: &[Line],
    peer: u64,
    generation: u64,
) -> Result<Vec<LineState>, StepFault>
    ensures ok { IfOk result (λ states. states.items ≡ states_of_dial peer generation lines.now) }
    ensures fault { IfErr result (λ f. f ≡ StepFault.NoMemory) }
{
    let mut states = Vec::new(alloc);
    for line in lines {
        if line.is_of_dial(peer, generation) {
            states.push(line.state())?;
        }
    }
    Ok(states)
}

// Closes the connections of a dial.
fn undial(lines: &mut [Line], peer: u64, generation: u64)
    ensures { lines.new ≡ map (undialled peer generation) lines.old }
{
    for line in lines.iter_mut() {
        line.undial(peer, generation);
    }
}
