//! A reader and a writer in memory, of which a call fails or would have to wait.

use std::io;
use std::io::{ErrorKind, Read, Write};

/// Gives octets in pieces of a size. The calls from `first` on to `last`, from 1, answer `error`; then, where it ends,
/// the end, and else that it would have to wait.
#[derive(Drop)]
pub struct Pieces {
    pub octets: &'static [u8],
    pub size: usize,
    pub calls: usize,
    pub first: usize,
    pub last: usize,
    pub error: ErrorKind,
    pub ends: bool,
}

impl Pieces {
    /// Gives these octets in pieces of a size, and no call fails.
    pub fn new(octets: &'static [u8], size: usize) -> Pieces {
        Pieces {
            octets,
            size,
            calls: 0,
            first: 1,
            last: 0,
            error: ErrorKind::BrokenPipe,
            ends: false,
        }
    }
}

impl Read for Pieces {
    fn read(&mut self, buffer: &mut [u8]) -> io::Result<usize> {
        self.calls = self.calls.saturating_add(1);
        if self.first <= self.calls && self.calls <= self.last {
            return Err(io::Error::from(self.error));
        }
        if self.octets.is_empty() && !self.ends {
            return Err(io::Error::from(ErrorKind::WouldBlock));
        }
        let count = self.size.min(self.octets.len()).min(buffer.len());
        let (front, rest) = self.octets.split_at(count);
        buffer[..count].copy_from_slice(front);
        self.octets = rest;
        Ok(count)
    }
}

/// How many octets a writer holds.
pub const SLATE: usize = 512;

/// Takes octets, at most so many in a call. The calls from `first` on to `last`, from 1, answer `error`.
#[derive(Drop)]
pub struct Slate {
    octets: [u8; SLATE],
    len: usize,
    pub size: usize,
    pub calls: usize,
    pub first: usize,
    pub last: usize,
    pub error: ErrorKind,
}

impl Slate {
    /// Takes octets, at most so many in a call, and no call fails.
    pub fn new(size: usize) -> Slate {
        Slate {
            octets: [0; SLATE],
            len: 0,
            size,
            calls: 0,
            first: 1,
            last: 0,
            error: ErrorKind::BrokenPipe,
        }
    }

    /// The octets that it took.
    pub fn octets(&self) -> &[u8] {
        let len = self.len.min(SLATE);
        &self.octets[..len]
    }
}

impl Write for Slate {
    fn write(&mut self, octets: &[u8]) -> io::Result<usize> {
        self.calls = self.calls.saturating_add(1);
        if self.first <= self.calls && self.calls <= self.last {
            return Err(io::Error::from(self.error));
        }
        let from = self.len.min(SLATE);
        let count = self.size.min(octets.len()).min(SLATE - from);
        self.octets[from..from + count].copy_from_slice(&octets[..count]);
        self.len = from + count;
        Ok(count)
    }

    fn flush(&mut self) -> io::Result<()> {
        Ok(())
    }
}
