//! Why a node went no further.
ghost use Rattle.std.specs.Prelude.{◌≡◌};
ghost use Rattle.live_report.specs.declared.fault.LifeFault.TheVariants.{NoMemory, NoSocket};
ghost use Rattle.net_sockets.specs.declared.sockets.SocketsFault.TheVariants as sockets;

use net_sockets::SocketsFault;
use std::alloc::AllocError;

/// Why a node went no further, or why there is no log of what it did.
#[derive(Clone, Copy, Debug, PartialEq, Eq)]
pub enum LifeFault {
    /// The system refuses a socket.
    NoSocket,
    /// The system refuses a thread.
    NoThread,
    /// Memory was refused.
    NoMemory,
    /// The logs of its threads are no legal log together, or have more entries than one may.
    Disagreed,
}

impl From<AllocError> for LifeFault {
    ghost from_gives = { λ _ e. e ≡ NoMemory };

    fn from(_e: AllocError) -> LifeFault {
        LifeFault::NoMemory
    }
}

impl From<SocketsFault> for LifeFault {
    ghost from_gives = { λ fault e. (fault ≡ sockets.Refused → e ≡ NoSocket)
        × (fault ≡ sockets.NoMemory → e ≡ NoMemory) };

    fn from(fault: SocketsFault) -> LifeFault {
        match fault {
            SocketsFault::Refused => LifeFault::NoSocket,
            SocketsFault::NoMemory => LifeFault::NoMemory,
        }
    }
}
