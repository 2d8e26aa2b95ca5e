//! What the facts of a peer's events are. Facts that an event does not have are 0; a message of credit control has
//! those of
//! `session_fact`.

ghost use Rattle.std.specs.Prelude.{◌≡◌};
ghost use Rattle.base_codes.specs.Places.{named, peer_facts};

/// The peer's machine number.
pub const PEER: usize = 0;

/// The number of the line on which it came.
pub const LINE: usize = 1;

/// The Hop-by-Hop Identifier of a message; the generation of a dial.
pub const HOP_BY_HOP: usize = 2;

/// The End-to-End Identifier of a message.
pub const END_TO_END: usize = 3;

/// Of R-Conn-CER: 1 where the local host wins an election (RFC 6733 section 5.6.4).
pub const LOCAL_WINS: usize = 5;

/// Each fact of these, by number and name.
pub fn places() -> [(usize, &'static str); 5]
    ensures { named result ≡ peer_facts }
{
    [
        (PEER, "peer"),
        (LINE, "line"),
        (HOP_BY_HOP, "Hop-by-Hop Identifier"),
        (END_TO_END, "End-to-End Identifier"),
        (LOCAL_WINS, "local host wins"),
    ]
}
