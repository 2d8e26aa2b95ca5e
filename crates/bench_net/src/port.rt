//! What a connection's octets are handed to, and what it sends.
ghost use Rattle.std.specs.Prelude.{◌≡◌, ◌<◌, ◌≤◌, ◌+◌, ◌^◌, ℕ, List, Option, length, OnOk, OnErr, IfErr};
ghost use Rattle.bench_net.specs.Events.{Event, Came, Lost};
ghost use Rattle.bench_net.specs.Texts.{Copies, Grows};
ghost use Rattle.bench_net.specs.declared.refusal.Refusal.{Refusal};

use crate::refusal::Refusal;

/// One connection of a bench, as a socket sees it.
pub trait Port {
    /// What it is once it has taken a piece or the loss.
    ghost takes: { Self → Event → Self → Type 0 };

    /// When it refuses a piece or the loss, and why.
    ghost refuses: { Self → Event → Refusal → Type 0 };

    /// All that it sent, where that is known.
    ghost sent: { Self → Option (List ℕ) };

    /// Octets came, at least one and at most `MAX_PIECE`.
    fn came(&mut self, piece: &[u8]) -> Result<(), Refusal>
        ensures taken { OnOk result (takes self.old (Came piece.now) self.new) }
        ensures refused { IfErr result (λ why. refuses self.old (Came piece.now) why) }
        ensures grows { Grows (sent self.old) (sent self.new) }
        ensures err { OnErr result (self.new ≡ self.old) };

    /// The connection was lost.
    fn lost(&mut self) -> Result<(), Refusal>
        ensures taken { OnOk result (takes self.old Lost self.new) }
        ensures refused { IfErr result (λ why. refuses self.old Lost why) }
        ensures grows { Grows (sent self.old) (sent self.new) }
        ensures err { OnErr result (self.new ≡ self.old) };

    /// Copies what was sent from a place on, as much as there is and fits, to the front of `buffer`, and says how much
    /// that is.
    fn unsent(&self, from: usize, buffer: &mut [u8]) -> usize
        ensures within { result ≤ length buffer.new }
        ensures fits { from + result < 2 ^ 64 }
        ensures copies { Copies (sent self.now) from buffer.new result };
}
