//! A port in memory, which sends back what it hears.
ghost use Rattle.std.specs.Prelude.{◌≤◌, None};

use bench_net::{Port, Refusal};

/// How many octets a board holds.
pub const BOARD: usize = 512;

/// A port that keeps the octets that come, and sends them back.
#[derive(Drop)]
pub struct Board {
    octets: [u8; BOARD],
    len: usize,
    /// How many pieces came, and how many may.
    pub pieces: usize,
    pub room: usize,
    /// How often it was lost.
    pub lost: usize,
    ghost within: { len ≤ 512 },
}

impl Board {
    /// A board that takes so many pieces.
    pub fn new(room: usize) -> Board {
        Board {
            octets: [0; BOARD],
            len: 0,
            pieces: 0,
            room,
            lost: 0,
        }
    }

    /// All octets that came.
    pub fn octets(&self) -> &[u8] {
        &self.octets[..self.len]
    }
}

impl Port for Board {
    ghost takes = { λ _ _ _. Unit {0} };

    ghost refuses = { λ _ _ _. Unit {0} };

    ghost sent = { λ _. None };

    fn came(&mut self, piece: &[u8]) -> Result<(), Refusal> {
        if self.lost > 0 {
            return Err(Refusal::Closed);
        }
        if self.pieces >= self.room {
            return Err(Refusal::Full);
        }
        if piece.len() > BOARD - self.len {
            return Err(Refusal::NoMemory);
        }
        let end = self.len + piece.len();
        self.octets[self.len..end].copy_from_slice(piece);
        self.len = end;
        self.pieces += 1;
        Ok(())
    }

    fn lost(&mut self) -> Result<(), Refusal> {
        if self.lost > 0 {
            return Err(Refusal::Closed);
        }
        if self.pieces >= self.room {
            return Err(Refusal::Full);
        }
        self.lost += 1;
        Ok(())
    }

    fn unsent(&self, from: usize, buffer: &mut [u8]) -> usize {
        if from >= self.len {
            return 0;
        }
        let rest = &self.octets[from..self.len];
        let count = rest.len().min(buffer.len());
        buffer[..count].copy_from_slice(&rest[..count]);
        count
    }
}
