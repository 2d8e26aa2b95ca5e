//! Who answers for the connections behind the sockets.
ghost use Rattle.std.specs.Prelude.{◌≡◌, ◌<◌, ◌≤◌, ◌+◌, ◌^◌, ℕ, List, None, Option, length, OnOk, OnErr, IfErr, IfSome};
ghost use Rattle.bench_net.specs.Events.{Event, Came, Lost};
ghost use Rattle.bench_net.specs.Texts.{Copies, Grows};
ghost use Rattle.bench_net.specs.declared.refusal.Refusal.{Refusal};

use bench_net::{Port, Refusal};
use std::net::SocketAddr;

/// A line whose connection is to be dialled, and where to.
#[derive(Clone, Copy, Debug)]
pub struct Dial {
    pub line: u64,
    pub address: SocketAddr,
}

/// A bench, as its sockets see it: lines by their numbers. What it takes and refuses on a line is as of a `Port`.
pub trait Node {
    /// What it is once it has taken a piece or the loss of a line.
    ghost takes: { Self → ℕ → Event → Self → Type 0 };

    /// When it refuses a piece or the loss of a line, and why.
    ghost refuses: { Self → ℕ → Event → Refusal → Type 0 };

    /// What it is once it has accepted a connection, by the number of its line.
    ghost joins: { Self → ℕ → Self → Type 0 };

    /// What it is once it has told that a line is to be dialled.
    ghost dials: { Self → ℕ → Self → Type 0 };

    /// What it is once it has taken that the dial of a line was acknowledged.
    ghost opens: { Self → ℕ → Self → Type 0 };

    /// When it refuses that, and why.
    ghost refuses_opening: { Self → ℕ → Refusal → Type 0 };

    /// All that a line sent, where that is known.
    ghost sent: { Self → ℕ → Option (List ℕ) };

    /// What it may become where it is asked what is to be dialled, and told that connections are accepted or dialled.
    ghost moves: { Self → Self → Type 0 };

    /// Whether the loop is to end.
    fn is_over(&self) -> bool;

    /// A connection was accepted. Answers its line's number; none where it isn't wanted.
    fn joined(&mut self) -> Option<u64>
        ensures taken { IfSome result (λ line. joins self.old line self.new) }
        ensures none { result ≡ None → self.new ≡ self.old }
        ensures moved { moves self.old self.new };

    /// The dial that is to be made next, if one is. It is told once.
    fn next_dial(&mut self) -> Option<Dial>
        ensures told { IfSome result (λ dial. dials self.old dial.line self.new) }
        ensures moved { moves self.old self.new };

    /// The dial of a line was acknowledged.
    fn dialled(&mut self, line: u64) -> Result<(), Refusal>
        ensures taken { OnOk result (opens self.old line self.new) }
        ensures refused { IfErr result (λ why. refuses_opening self.old line why) }
        ensures err { OnErr result (self.new ≡ self.old) }
        ensures moved { moves self.old self.new };

    /// Whether a line is closed: once all that it sent is out, its socket closes.
    fn is_closed(&self, line: u64) -> bool;

    /// Octets came on a line.
    fn came(&mut self, line: u64, piece: &[u8]) -> Result<(), Refusal>
        ensures taken { OnOk result (takes self.old line (Came piece.now) self.new) }
        ensures refused { IfErr result (λ why. refuses self.old line (Came piece.now) why) }
        ensures grows { Grows (sent self.old line) (sent self.new line) }
        ensures err { OnErr result (self.new ≡ self.old) };

    /// The connection of a line was lost, or its dial refused.
    fn lost(&mut self, line: u64) -> Result<(), Refusal>
        ensures taken { OnOk result (takes self.old line Lost self.new) }
        ensures refused { IfErr result (λ why. refuses self.old line Lost why) }
        ensures grows { Grows (sent self.old line) (sent self.new line) }
        ensures err { OnErr result (self.new ≡ self.old) };

    /// Copies what a line sent from a place on, as much as there is and fits, to the front of `buffer`, and says how
    /// much that is.
    fn unsent(&self, line: u64, from: usize, buffer: &mut [u8]) -> usize
        ensures within { result ≤ length buffer.new }
        ensures fits { from + result < 2 ^ 64 }
        ensures copies { Copies (sent self.now line) from buffer.new result };
}

/// A bench and the number of the line that a socket is about: that line's port.
#[derive(Drop)]
pub struct OnLine<N> {
    pub node: N,
    pub line: u64,
}

impl<N: Node> Port for OnLine<N> {
    ghost takes = { λ s event t. (t.line ≡ s.line) × N.takes s.node s.line event t.node };

    ghost refuses = { λ s event why. N.refuses s.node s.line event why };

    ghost sent = { λ s. N.sent s.node s.line };

    fn came(&mut self, piece: &[u8]) -> Result<(), Refusal> {
        self.node.came(self.line, piece)
    }

    fn lost(&mut self) -> Result<(), Refusal> {
        self.node.lost(self.line)
    }

    fn unsent(&self, from: usize, buffer: &mut [u8]) -> usize {
        self.node.unsent(self.line, from, buffer)
    }
}
