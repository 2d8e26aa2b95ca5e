//! What connections sent is drawn.
#![tactic(auto, using(crate::proofs::GoingLemmas::going, crate::proofs::DoingLemmas::doing))]

ghost use Rattle.std.specs.Prelude.{◌≡◌, ◌≤◌, IfOk, false, length, nat_lt};
ghost use Rattle.thread_node.specs.Nodes.{Does, Goes};

use crate::node::ThreadNode;
use crate::texts::{length_of, put_behind, reach};
use bench_item::{LineState, MAX_LINES};
use bench_live::InThreads;
use std::alloc::AllocError;

/// How many octets are drawn at once, and how often at most before others come.
const PIECE: usize = 4_096;

const MAX_PIECES: usize = 4_096;

impl<R: Copy, B: InThreads<R>> ThreadNode<R, B> {
    // How many connections there are.
    pub(crate) fn count(&self) -> usize {
        match &self.bench {
            None => 0,
            Some(bench) => bench.lines(&self.rt),
        }
    }

    // Where a connection stands, if it is there.
    pub(crate) fn state(&self, line: u64) -> Option<LineState> {
        match &self.bench {
            None => None,
            Some(bench) => bench.line(&self.rt, line),
        }
    }

    // Copies what a connection sent from a place on.
    fn peek(&self, line: u64, from: usize, piece: &mut [u8]) -> usize
        ensures { result ≤ length piece.new }
    {
        match &self.bench {
            None => 0,
            Some(bench) => bench.unsent(&self.rt, line, from, piece),
        }
    }

    // Draws a piece more of what a connection sent. Says how long it is.
    fn draw_piece(&mut self, line: u64) -> Result<usize, AllocError>
        ensures goes { Goes self.old self.new }
        ensures done { IfOk result (λ count. Does self.old self.new (nat_lt 0 count)) }
    {
        let mut piece = [0u8; PIECE];
        let from = length_of(&self.sent, line);
        let count = self.peek(line, from, &mut piece);
        put_behind(&mut self.sent, line, &piece[..count])
    }

    // Draws all that a connection sent. Says whether there was something.
    fn draw(&mut self, line: u64) -> Result<bool, AllocError>
        ensures goes { Goes self.old self.new }
        ensures done { IfOk result (λ done. Does self.old self.new done) }
    {
        let mut drawn = false;
        'pieces: for _ in 0..MAX_PIECES {
            let count = self.draw_piece(line)?;
            drawn |= count > 0;
            if count < PIECE {
                return Ok(drawn);
            }
        }
        Ok(drawn)
    }

    // The same of one that isn't known to be closed. What was closed before sends nothing more.
    fn draw_open(&mut self, line: u32) -> Result<bool, AllocError>
        ensures goes { Goes self.old self.new }
        ensures done { IfOk result (λ done. Does self.old self.new done) }
    {
        if !matches!(self.closed.get(line as usize), Some(false)) {
            return Ok(false);
        }
        if self.draw(u64::from(line))? {
            return Ok(true);
        }
        if !matches!(self.state(u64::from(line)), Some(LineState::Closed)) {
            return Ok(false);
        }
        // It may have sent more before it closed.
        let drawn = self.draw(u64::from(line))?;
        if !drawn {
            self.close(line);
        }
        Ok(drawn)
    }

    // A connection is closed, and all that it sent was drawn.
    fn close(&mut self, line: u32)
        ensures { self.new ≡ self.old }
    {
        if let Some(closed) = self.closed.get_mut(line as usize) {
            *closed = true;
        }
    }

    // Room for what so many connections sent.
    fn reach(&mut self, count: usize) -> Result<(), AllocError>
        ensures { Does self.old self.new false }
    {
        reach(self.alloc, &mut self.sent, count)
    }

    // Draws what a connection sent, if it was marked.
    fn draw_marked(&mut self, line: u32) -> Result<bool, AllocError>
        ensures goes { Goes self.old self.new }
        ensures done { IfOk result (λ done. Does self.old self.new done) }
    {
        match self.marks.get((line as usize).saturating_sub(1)) {
            Some(true) => self.draw_open(line),
            _ => Ok(false),
        }
    }

    // Draws what so many connections sent that are not closed. Says whether something was.
    fn draw_lines(&mut self, count: u32) -> Result<bool, AllocError>
        ensures goes { Goes self.old self.new }
        ensures done { IfOk result (λ done. Does self.old self.new done) }
    {
        let mut drawn = false;
        'lines: for line in 1..count.min(MAX_LINES as u32) + 1 {
            drawn |= self.draw_marked(line)?;
        }
        Ok(drawn)
    }

    // Marks the connections that sent more than was drawn, or are closed. Says how many there are.
    fn survey(&mut self) -> usize
        ensures { self.new ≡ self.old }
    {
        match &self.bench {
            None => 0,
            Some(bench) => bench.survey(&self.rt, &self.sent, &mut self.marks),
        }
    }

    /// Draws what connections sent that are not closed. Says whether something was.
    pub(crate) fn draw_all(&mut self) -> Result<bool, AllocError>
        ensures goes { Goes self.old self.new }
        ensures done { IfOk result (λ done. Does self.old self.new done) }
    {
        let count = self.survey().min(MAX_LINES);
        self.reach(count)?;
        self.draw_lines(count as u32)
    }
}
