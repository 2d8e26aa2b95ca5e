//! The connections that are to be dialled.
ghost use Rattle.std.specs.Prelude.{◌≡◌, IfSome, true};
ghost use Rattle.bench_node.specs.Going.{is_dialling};
ghost use Rattle.bench_spec.specs.Taken.{shown};

use crate::node::PeerAddress;
use bench_item::LineState;
use live_desk::Core;
use std::alloc::{AllocError, Global};
use std::net::SocketAddr;

/// The connections that are to be dialled, oldest first, and where peers are.
#[derive(Drop)]
pub(crate) struct Dials {
    peers: Vec<PeerAddress>,
    lines: Vec<u32>,
    // How many of these were handed out.
    given: usize,
}

/// A connection that is to be dialled, and where to; nowhere where its peer has no usable address.
#[derive(Clone, Copy)]
pub(crate) struct WantedDial {
    pub(crate) line: u32,
    pub(crate) address: Option<SocketAddr>,
}

/// A connection that is to be dialled, and where to.
#[derive(Clone, Copy)]
pub struct NextDial {
    pub line: u32,
    pub address: SocketAddr,
}

impl Dials {
    pub(crate) fn new(alloc: Global, peers: Vec<PeerAddress>) -> Dials {
        Dials {
            peers,
            lines: Vec::new(alloc),
            given: 0,
        }
    }

    /// Where peers are.
    pub(crate) fn into_peers(self) -> Vec<PeerAddress>
        ensures { result ≡ self.peers }
    {
        let Dials {
            peers,
            lines,
            given: _,
        } = self;
        peers
    }

    /// Makes room for one more.
    pub(crate) fn reserve(&mut self) -> Result<(), AllocError> {
        self.lines.reserve(1)
    }

    /// Puts one behind the others, where there is room for it.
    pub(crate) fn put(&mut self, line: u32) {
        let _ = self.lines.push(line);
    }

    // Where the peer of that number is dialled.
    fn address_of(&self, machine: u64) -> Option<SocketAddr> {
        for peer in &self.peers {
            if peer.machine == machine {
                return peer.address;
            }
        }
        None
    }

    /// The oldest that is still being dialled.
    pub(crate) fn first(&self, core: &Core) -> Option<WantedDial>
        ensures { IfSome result (λ dial. is_dialling ((shown core.now).line_of dial.line) ≡ true) }
    {
        for place in self.given..self.lines.len() {
            let line = self.lines[place];
            if let Some(LineState::Dialling { peer }) = core.line(line) {
                let address = self.address_of(peer);
                return Some(WantedDial { line, address });
            }
        }
        None
    }

    /// That one, and those before it, were handed out.
    pub(crate) fn give(&mut self, line: u32) {
        for place in self.given..self.lines.len() {
            if self.lines[place] == line {
                self.given = place + 1;
                return;
            }
        }
    }
}
