//! A bench of one line: it sends octets that follow a rule, and checks those that come.
ghost use Rattle.std.specs.Prelude.{None};

use bench_net::Refusal;
use net_sockets::{Dial, Node};
use std::net::SocketAddr;

/// The octet at a place of every text.
fn octet_at(place: usize) -> u8 {
    (place % 251) as u8
}

/// One line, with the number 1. What it sends is the first octets of the one text: so many, or as many as came.
#[derive(Drop)]
pub struct Flow {
    /// How many octets it sends; where it echoes, as many as came.
    pub sends: usize,
    pub echoes: bool,
    /// How many octets it waits for: then it closes the line.
    pub wants: usize,
    /// Where it dials to, once.
    pub dial: Option<SocketAddr>,
    /// How many octets came, in how many pieces, and whether they are those of the text.
    pub came: usize,
    pub pieces: usize,
    pub is_right: bool,
    /// How many pieces it takes before it is full; more when `give` is called.
    pub room: usize,
    pub joined: usize,
    pub dialled: usize,
    pub lost: usize,
}

impl Flow {
    /// A line on which nothing happened.
    pub fn new(sends: usize, echoes: bool, wants: usize, dial: Option<SocketAddr>) -> Flow {
        Flow {
            sends,
            echoes,
            wants,
            dial,
            came: 0,
            pieces: 0,
            is_right: true,
            room: usize::MAX,
            joined: 0,
            dialled: 0,
            lost: 0,
        }
    }

    // How many octets were sent.
    fn sent(&self) -> usize {
        if self.echoes { self.came } else { self.sends }
    }

    // Checks the octets of a piece.
    fn check(&mut self, piece: &[u8]) {
        for octet in piece {
            if *octet != octet_at(self.came) {
                self.is_right = false;
            }
            self.came = self.came.saturating_add(1);
        }
    }
}

impl Node for Flow {
    ghost takes = { λ _ _ _ _. Unit {0} };

    ghost refuses = { λ _ _ _ _. Unit {0} };

    ghost joins = { λ _ _ _. Unit {0} };

    ghost dials = { λ _ _ _. Unit {0} };

    ghost opens = { λ _ _ _. Unit {0} };

    ghost refuses_opening = { λ _ _ _. Unit {0} };

    ghost sent = { λ _ _. None };

    ghost moves = { λ _ _. Unit {0} };

    fn is_over(&self) -> bool {
        self.lost > 0
    }

    fn joined(&mut self) -> Option<u64> {
        if self.joined > 0 {
            return None;
        }
        self.joined += 1;
        Some(1)
    }

    fn next_dial(&mut self) -> Option<Dial> {
        let address = self.dial.take()?;
        Some(Dial { line: 1, address })
    }

    fn dialled(&mut self, _line: u64) -> Result<(), Refusal> {
        self.dialled = self.dialled.saturating_add(1);
        Ok(())
    }

    fn is_closed(&self, _line: u64) -> bool {
        self.lost > 0 || self.came >= self.wants
    }

    fn came(&mut self, _line: u64, piece: &[u8]) -> Result<(), Refusal> {
        if self.lost > 0 {
            return Err(Refusal::Closed);
        }
        if self.pieces >= self.room {
            return Err(Refusal::Full);
        }
        self.check(piece);
        self.pieces = self.pieces.saturating_add(1);
        Ok(())
    }

    fn lost(&mut self, _line: u64) -> Result<(), Refusal> {
        if self.lost > 0 {
            return Err(Refusal::Closed);
        }
        self.lost = self.lost.saturating_add(1);
        Ok(())
    }

    fn unsent(&self, _line: u64, from: usize, buffer: &mut [u8]) -> usize {
        let sent = self.sent();
        if from >= sent {
            return 0;
        }
        let count = (sent - from).min(buffer.len());
        for (place, octet) in buffer[..count].iter_mut().enumerate() {
            *octet = octet_at(from + place);
        }
        count
    }
}
