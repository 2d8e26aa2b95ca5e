//! What a run tells, and whether that is a refusal.
ghost use Rattle.std.specs.Prelude.{◌≡◌, true};

use crate::status::Status;

/// What is told, and whether it is a refusal.
#[derive(Drop)]
pub struct Told {
    pub text: Vec<u8>,
    pub refused: bool,
}

impl Told {
    ghost use Rattle.base_device.specs.Tellings.{told_status};

    /// A refusal.
    pub fn refusal(text: Vec<u8>) -> Told
        ensures { result ≡ record { text = text; refused = true } }
    {
        Told {
            text,
            refused: true,
        }
    }

    /// The status of a run that tells it.
    pub fn status(&self) -> Status
        ensures { result ≡ told_status self.now.refused }
    {
        if self.refused {
            Status::Refused
        } else {
            Status::Done
        }
    }
}
