//! All connections of a node: their opening, and how they are seen.
ghost use Rattle.std.specs.Prelude.{◌≡◌, ◌+◌, ◌++◌, ◌∷◌, [], List, length, IfOk, IfErr, OnOk, OnErr, None};
ghost use Rattle.std.specs.Prelude.{option_copied, unwrap_or, min, take, drop, map};

use crate::line::Line;
use bench_item::{Hears, LineState, MAX_LINES, Opening, StepFault};
use bench_log::KeptItem;
use std::alloc::Global;
use std::marker::Model;

/// All connections of a node, numbered from 1 in order of opening; a number is never used again. A contract sees the
/// rules and, of each connection, how it was opened, where it stands, what it put out and what it sent.
///
/// In: `joined`, `dial`, `dialled`, `came`, `lost`, `deliver`, `undial`. Out: `next` and `lift`. Looks: `state`,
/// `item`, `lifted`, `sent`, `unsent`. A call that is refused leaves all as it was; one that was taken can be taken
/// back by its `Change`.
pub struct Lines<T> {
    pub(crate) alloc: Global,
    pub(crate) rules: T,
    pub(crate) lines: Vec<Line>,
}

impl<T: Drop> Drop for Lines<T> {
    fn drop(self) {
        let Lines {
            alloc: _,
            rules,
            lines,
        } = self;
    }
}

impl<T> Model for Lines<T> {
    ghost use Rattle.bench_line.specs.Lines.{LinesView};

    ghost Value = { LinesView T };

    ghost view = { λ l. record { rules = l.rules; lines = l.lines.items } };
}

impl<T: Hears> Lines<T> {
    ghost use Rattle.bench_item.specs.declared.opening.Opening.TheVariants as openings;
    ghost use Rattle.bench_line.specs.Lines.{Past, AreLinesAfter, opened, opening_refusal};
    ghost use Rattle.bench_line.specs.Lines.{item_on, lifted_on, next_on, state_on, sent_on};
    ghost use Rattle.bench_line.specs.Line.{new_line};
    ghost use Rattle.bench_line.specs.Talk.{meaning};
    ghost use Rattle.bench_line.specs.Change.{taken_back};
    ghost use Rattle.bench_line.specs.declared.change.Change.{Change};

    /// No connections. Takes no memory.
    pub fn new(alloc: Global, rules: T) -> Lines<T>
        ensures value { result ≡ record { rules = rules; lines = [] } }
        ensures stands { AreLinesAfter (meaning T.heard T.turned T.octets_of rules) result.lines [] }
    {
        Lines {
            alloc,
            rules,
            lines: Vec::new(alloc),
        }
    }

    // Opens a connection, and answers its number.
    fn add(&mut self, opening: Opening) -> Result<u64, StepFault>
        ensures free { OnOk result (opening_refusal self.old.lines ≡ None) }
        ensures number { IfOk result (λ line. line ≡ length self.old.lines + 1) }
        ensures ok { OnOk result (self.new ≡ record self.old { lines = self.old.lines ++ new_line opening ∷ [] }) }
        ensures fault { IfErr result (λ f. f ≡ unwrap_or (opening_refusal self.old.lines) StepFault.NoMemory) }
        ensures err { OnErr result (self.new ≡ self.old) }
    {
        if self.lines.len() >= MAX_LINES {
            return Err(StepFault::Full);
        }
        let line = Line::new(self.alloc, opening);
        self.lines.push(line)?;
        Ok(self.lines.len() as u64)
    }

    /// The peer's side opened a connection. Answers its number. It is taken back by `Change::Opened`.
    pub fn joined(&mut self) -> Result<u64, StepFault>
        ensures free { OnOk result (opening_refusal self.old.lines ≡ None) }
        ensures number { IfOk result (λ line. line ≡ length self.old.lines + 1) }
        ensures stands { OnOk result ((pasts : List Past)
            → AreLinesAfter (meaning T.heard T.turned T.octets_of self.old.rules) self.old.lines pasts
            → AreLinesAfter (meaning T.heard T.turned T.octets_of self.old.rules) self.new.lines
            (opened openings.Accepted pasts)) }
        ensures lifted { OnOk result (map (λ l. l.lifted) self.new.lines
            ≡ map (λ l. l.lifted) self.old.lines ++ 0 ∷ []) }
        ensures undone { OnOk result (taken_back Change.Opened self.new.lines ≡ self.old.lines) }
        ensures rules { self.new.rules ≡ self.old.rules }
        ensures fault { IfErr result (λ f. f ≡ unwrap_or (opening_refusal self.old.lines) StepFault.NoMemory) }
        ensures err { OnErr result (self.new ≡ self.old) }
    {
        self.add(Opening::Accepted)
    }

    /// A dial opens a connection to the peer whose machine has that number. Answers its number. It is taken back by
    /// `Change::Opened`.
    pub fn dial(&mut self, peer: u64, generation: u64) -> Result<u64, StepFault>
        ensures free { OnOk result (opening_refusal self.old.lines ≡ None) }
        ensures number { IfOk result (λ line. line ≡ length self.old.lines + 1) }
        ensures stands { OnOk result ((pasts : List Past)
            → AreLinesAfter (meaning T.heard T.turned T.octets_of self.old.rules) self.old.lines pasts
            → AreLinesAfter (meaning T.heard T.turned T.octets_of self.old.rules) self.new.lines
            (opened (openings.Dialled peer generation) pasts)) }
        ensures lifted { OnOk result (map (λ l. l.lifted) self.new.lines
            ≡ map (λ l. l.lifted) self.old.lines ++ 0 ∷ []) }
        ensures undone { OnOk result (taken_back Change.Opened self.new.lines ≡ self.old.lines) }
        ensures rules { self.new.rules ≡ self.old.rules }
        ensures fault { IfErr result (λ f. f ≡ unwrap_or (opening_refusal self.old.lines) StepFault.NoMemory) }
        ensures err { OnErr result (self.new ≡ self.old) }
    {
        self.add(Opening::Dialled { peer, generation })
    }

    /// How many connections there are: they have the numbers from 1 on.
    pub fn count(&self) -> usize
        ensures { result ≡ length self.now.lines }
    {
        self.lines.len()
    }

    /// Where a connection stands, if there is one of that number. Takes no memory.
    pub fn state(&self, line: u64) -> Option<LineState>
        ensures { result ≡ state_on self.now.lines line }
    {
        let Ok(place) = self.find(line) else {
            return None;
        };
        let at = &self.lines[place];
        Some(at.state())
    }

    /// All that a connection sent, nothing where there is none of that number. Takes no memory.
    pub fn sent(&self, line: u64) -> &[u8]
        ensures { result.now ≡ sent_on self.now.lines line }
    {
        let Ok(place) = self.find(line) else {
            return &[];
        };
        let at = &self.lines[place];
        at.sent()
    }

    /// An item that a connection put out, by its place from 0; those that were lifted stay readable. Takes no memory.
    pub fn item(&self, line: u64, place: usize) -> Option<&KeptItem>
        ensures { option_copied result ≡ item_on self.now.lines line place }
    {
        let Ok(found) = self.find(line) else {
            return None;
        };
        let at = &self.lines[found];
        at.item(place)
    }

    /// How many items of a connection were lifted. Takes no memory.
    pub fn lifted(&self, line: u64) -> usize
        ensures { result ≡ lifted_on self.now.lines line }
    {
        let Ok(place) = self.find(line) else {
            return 0;
        };
        let at = &self.lines[place];
        at.lifted()
    }

    /// Copies what a connection sent from a place on, as much as there is and fits, to the front of `out`, and says how
    /// much that is. Takes no memory.
    pub fn unsent(&self, line: u64, from: usize, out: &mut [u8]) -> usize
        ensures count { result ≡ min (length (drop from (sent_on self.now.lines line))) (length out.old) }
        ensures octets { out.new ≡ take result (drop from (sent_on self.now.lines line)) ++ drop result out.old }
    {
        copy_from(self.sent(line), from, out)
    }

    /// The oldest item that waits on a connection, if one does. Takes no memory.
    pub fn next(&self, line: u64) -> Option<&KeptItem>
        ensures { option_copied result ≡ next_on self.now.lines line }
    {
        let Ok(place) = self.find(line) else {
            return None;
        };
        let at = &self.lines[place];
        at.next()
    }
}

// Copies octets from a place on, as many as there are and fit.
fn copy_from(octets: &[u8], from: usize, out: &mut [u8]) -> usize
    ensures count { result ≡ min (length (drop from octets.now)) (length out.old) }
    ensures octets { out.new ≡ take result (drop from octets.now) ++ drop result out.old }
{
    if from >= octets.len() {
        return 0;
    }
    let rest = &octets[from..];
    let count = rest.len().min(out.len());
    out[..count].copy_from_slice(&rest[..count]);
    count
}
