//! One socket and its line.

use bench_net::Pipe;
use mio::net::TcpStream;
use std::mem;

/// Where a socket stands.
#[derive(Drop)]
pub(crate) enum Stand {
    /// It is being dialled.
    Dialling(TcpStream),
    /// Octets are read and written.
    Open(TcpStream),
    /// It is closed, and its line is still to be told of the loss.
    Gone,
}

/// One socket and its line.
#[derive(Drop)]
pub(crate) struct Socket {
    pub(crate) line: u64,
    pub(crate) stand: Stand,
    pub(crate) pipe: Pipe,
    /// Whether something happened to it since it answered that it has nothing and takes nothing for now.
    pub(crate) is_ready: bool,
    /// Whether it takes nothing for now.
    pub(crate) is_blocked: bool,
}

impl Socket {
    /// A socket of that line.
    pub(crate) fn new(line: u64, stand: Stand) -> Socket {
        Socket {
            line,
            stand,
            pipe: Pipe::new(),
            is_ready: true,
            is_blocked: false,
        }
    }

    /// Something happened to it.
    pub(crate) fn wake(&mut self) {
        self.is_ready = true;
        self.is_blocked = false;
    }

    /// Its dial was acknowledged.
    pub(crate) fn open(&mut self) {
        let stand = mem::replace(&mut self.stand, Stand::Gone);
        self.stand = match stand {
            Stand::Dialling(stream) => Stand::Open(stream),
            Stand::Open(stream) => Stand::Open(stream),
            Stand::Gone => Stand::Gone,
        };
    }
}
