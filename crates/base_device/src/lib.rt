//! Devices: what octets come from and go to, with their calls counted and their faults told; and how a run ends.
#![tactic(auto)]

mod counting;
mod device;
mod inputs;
mod output;
mod status;
mod told;
mod whole;

pub use counting::Counting;
pub use device::{ByteSink, ByteSource, DeviceFailed};
pub use inputs::{FileSource, Inputs, OpenError};
pub use output::{MAX_IDLE_WRITES, WriteFault, tell, write_whole};
pub use status::Status;
pub use told::Told;
pub use whole::{InputError, MAX_READS, read_input, tell_not_opened, tell_unread};
