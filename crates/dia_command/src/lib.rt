//! Commands of Diameter as values (RFC 6733 sections 3 and 6, RFC 8506 section 3).
//!
//! | File | What it does |
//! |---|---|
//! | `header` | the 20 octets in front, both ways |
//! | `kind`, `format` | which commands there are, and their AVPs in order: the data that all else goes by |
//! | `value`, `text`, `typed` | values of AVPs |
//! | `command` | commands as values |
//! | `laws` | that header, fields and rest fix a command, and that what was read is written again |
#![tactic(auto)]

mod command;
mod format;
mod header;
mod kind;
mod laws;
mod text;
mod typed;
mod value;

pub use command::{
    CapabilitiesExchangeAnswer, CapabilitiesExchangeRequest, Command, CreditControlAnswer,
    CreditControlRequest, DeviceWatchdogAnswer, DeviceWatchdogRequest, DisconnectPeerAnswer,
    DisconnectPeerRequest, ErrorAnswer, ReAuthAnswer, ReAuthRequest,
};
pub use format::{AvpFormat, format_of};
pub use header::{Flags, Header, header_of};
pub use kind::{CommandKind, application_of};
pub use laws::{same_command, written_again};
pub use text::Text;
pub use typed::{TypedAvp, TypedAvps};
pub use value::{RequestType, RequestedAction};
