//! Which commands there are. A command comes by a kind, and a line in each function that lists the kinds.

ghost use Rattle.std.specs.Prelude.{◌≡◌};
ghost use Rattle.dia_command.specs.Format.{kind_coded, application_of};

/// The commands that are read and written (RFC 6733 section 3.1, RFC 8506 section 3);
/// `ErrorAnswer` is any answer that tells a fault (RFC 6733 section 7.2).
#[derive(Clone, Copy, PartialEq, Eq)]
pub enum CommandKind {
    CapabilitiesExchangeRequest,
    CapabilitiesExchangeAnswer,
    DeviceWatchdogRequest,
    DeviceWatchdogAnswer,
    DisconnectPeerRequest,
    DisconnectPeerAnswer,
    ReAuthRequest,
    ReAuthAnswer,
    CreditControlRequest,
    CreditControlAnswer,
    ErrorAnswer,
}

impl CommandKind {
    /// The kind of a command by its Command Code and flag R.
    pub fn coded(code: u32, request: bool) -> Option<CommandKind>
        ensures { result ≡ kind_coded code request }
    {
        match (code, request) {
            (257, true) => Some(CommandKind::CapabilitiesExchangeRequest),
            (257, false) => Some(CommandKind::CapabilitiesExchangeAnswer),
            (280, true) => Some(CommandKind::DeviceWatchdogRequest),
            (280, false) => Some(CommandKind::DeviceWatchdogAnswer),
            (282, true) => Some(CommandKind::DisconnectPeerRequest),
            (282, false) => Some(CommandKind::DisconnectPeerAnswer),
            (258, true) => Some(CommandKind::ReAuthRequest),
            (258, false) => Some(CommandKind::ReAuthAnswer),
            (272, true) => Some(CommandKind::CreditControlRequest),
            (272, false) => Some(CommandKind::CreditControlAnswer),
            _ => None,
        }
    }
}

/// The Application-Id of the messages with a Command Code that is known (RFC 6733 section 2.4, RFC 8506 section 1.3).
pub fn application_of(code: u32) -> u32
    ensures { result ≡ application_of code }
{
    match code {
        258 | 272 => 4,
        _ => 0,
    }
}
