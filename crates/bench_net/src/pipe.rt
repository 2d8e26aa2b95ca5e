//! What is kept of a connection between two calls of `pump`.
ghost use Rattle.std.specs.Prelude.{◌≡◌, ◌≤◌, ◌||◌, [], nat_lt};

/// How many octets a piece has at most.
pub const MAX_PIECE: usize = 4_096;

/// What is kept of a connection between two calls of `pump`: a piece or a loss that the port refused for now, and how
/// much of what the port sent went out.
#[derive(Drop)]
pub struct Pipe {
    pub(crate) room: [u8; MAX_PIECE],
    /// How many octets at the front of `room` are a piece that the port refused; mostly none.
    pub(crate) kept: usize,
    /// Whether the port is still to be told of the loss.
    pub(crate) losing: bool,
    /// How many octets of what the port sent went out.
    pub(crate) out: usize,
    ghost within: { kept ≤ 4096 },
}

impl Pipe {
    ghost use Rattle.bench_net.specs.Pipes.{waiting};

    /// Of a connection on which nothing came and nothing went out. Takes no memory.
    pub fn new() -> Pipe
        ensures waiting { waiting result ≡ [] }
        ensures out { result.out ≡ 0 }
    {
        Pipe {
            room: [0; MAX_PIECE],
            kept: 0,
            losing: false,
            out: 0,
        }
    }

    /// Whether a piece or the loss waits for the port.
    pub fn is_waiting(&self) -> bool
        ensures { result ≡ (nat_lt 0 self.now.kept || self.now.losing) }
    {
        self.kept > 0 || self.losing
    }

    /// How many octets of what the port sent went out, in all calls.
    pub fn out(&self) -> usize
        ensures { result ≡ self.now.out }
    {
        self.out
    }
}
