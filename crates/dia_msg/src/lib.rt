//! Messages of Diameter (RFC 6733 sections 3 and 6): octets to commands. Commands themselves are those of
//! `dia_command`, and how they are written is `dia_write`'s; this crate hands both on.
//!
//! | File | What it does |
//! |---|---|
//! | `check` | what the header says, without memory |
//! | `sorting` | the AVPs sorted by the format of the command, without memory |
//! | `services` | the instances of Multiple-Services-Credit-Control, without memory |
//! | `source` | the values of fields, and the rest, of the sorted AVPs |
//! | `build` | from sorted AVPs to a command |
//! | `read` | the call |
#![tactic(auto)]

mod build;
mod check;
mod fault;
mod read;
mod services;
mod sorting;
mod source;

pub use base_codes::ResultCode;
pub use dia_command::{
    AvpFormat, CapabilitiesExchangeAnswer, CapabilitiesExchangeRequest, Command, CommandKind,
    CreditControlAnswer, CreditControlRequest, DeviceWatchdogAnswer, DeviceWatchdogRequest,
    DisconnectPeerAnswer, DisconnectPeerRequest, ErrorAnswer, Flags, Header, ReAuthAnswer,
    ReAuthRequest, RequestType, RequestedAction, Text, TypedAvp, TypedAvps, format_of,
};
pub use dia_tree::MsgFault;
pub use dia_write::{Identity, error_answer, write_message};
pub use fault::MsgError;
pub use read::read_message;
