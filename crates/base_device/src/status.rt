//! How a run of the program ends.
ghost use Rattle.std.specs.Prelude.{◌≡◌};

/// How a run of the program ended.
#[derive(Clone, Copy, PartialEq, Eq)]
pub enum Status {
    /// The words were met, and nothing was refused.
    Done,
    /// The input holds something that is refused: characters, frames or messages.
    Refused,
    /// The words on the command line aren't understood.
    Usage,
    /// A read or a write failed, or went on past its bound.
    Fault,
    /// Memory ran out.
    NoMemory,
    /// What threads logged is no legal log together.
    Disagreed,
}

impl Status {
    ghost use Rattle.base_device.specs.Statuses.{code_of};

    /// The status that the process exits with.
    pub fn code(self) -> u8
        ensures { result ≡ code_of self }
    {
        match self {
            Status::Done => 0,
            Status::Refused => 1,
            Status::Usage => 2,
            Status::Fault => 3,
            Status::NoMemory => 4,
            Status::Disagreed => 5,
        }
    }
}
