//! What the registers of a peer's machine hold.

ghost use Rattle.std.specs.Prelude.{◌≡◌};
ghost use Rattle.base_codes.specs.Places.{named, peer_registers};

/// The line that this node opened, 0 for none.
pub const I_LINE: usize = 0;

/// The line that the peer opened, 0 for none.
pub const R_LINE: usize = 1;

/// The generation of the last dial.
pub const DIAL: usize = 2;

/// 1 where the local host wins an election.
pub const WIN: usize = 3;

/// The Hop-by-Hop Identifier of the CER that was accepted.
pub const HOP_BY_HOP: usize = 4;

/// Its End-to-End Identifier.
pub const END_TO_END: usize = 5;

/// How many requests this machine made.
pub const REQUESTS: usize = 7;

/// The machine's number.
pub const MACHINE: usize = 14;

/// The timer's generation.
pub const TIMER: usize = 15;

/// Each register of these, by number and name.
pub fn places() -> [(usize, &'static str); 9]
    ensures { named result ≡ peer_registers }
{
    [
        (I_LINE, "line that this node opened"),
        (R_LINE, "line that the peer opened"),
        (DIAL, "generation of the dial"),
        (WIN, "local host wins"),
        (HOP_BY_HOP, "Hop-by-Hop Identifier of the CER"),
        (END_TO_END, "End-to-End Identifier of the CER"),
        (REQUESTS, "count of requests"),
        (MACHINE, "machine"),
        (TIMER, "generation of the timer"),
    ]
}
