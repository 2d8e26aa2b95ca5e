//! What a call of `pump` came to.
ghost use Rattle.std.specs.Prelude.{◌≡◌};

use thiserror::Error;

/// How many octets were read and how many went out in a call.
#[derive(Clone, Copy, Debug, PartialEq, Eq)]
pub struct Pumped {
    pub read: u64,
    pub written: u64,
}

/// Why a call of `pump` ended before all was done.
#[derive(Clone, Copy, Debug, PartialEq, Eq, Error)]
pub enum PumpCode {
    /// A read failed. All that was read was handed on, and then the loss.
    #[error("a read failed")]
    ReadFault,
    /// A write failed. The port was told of the loss.
    #[error("a write failed")]
    WriteFault,
    /// `MAX_TURNS` reads and writes were made, or more than 2^63 of a kind before. The port was told of the loss.
    #[error("too many turns")]
    TurnsOver,
    /// The port has no room for what was read, or for the loss. The pipe keeps it.
    #[error("the port is full")]
    Full,
    /// The port has no memory for what was read, or for the loss. The pipe keeps it.
    #[error("out of memory")]
    NoMemory,
}

impl PumpCode {
    ghost use Rattle.bench_net.specs.Codes.{number_of};

    /// The number that stands for it where it is printed.
    pub fn number(self) -> u8
        ensures { result ≡ number_of self }
    {
        match self {
            PumpCode::ReadFault => 1,
            PumpCode::WriteFault => 2,
            PumpCode::TurnsOver => 3,
            PumpCode::Full => 4,
            PumpCode::NoMemory => 5,
        }
    }
}

/// Why a call of `pump` ended before all was done, and how many octets were read and went out in it.
#[derive(Clone, Copy, Debug, PartialEq, Eq, Error)]
#[error("{code}")]
pub struct PumpFault {
    pub code: PumpCode,
    pub read: u64,
    pub written: u64,
}
