//! Command Codes.
ghost use Rattle.std.specs.Prelude.{◌≡◌};
ghost use Rattle.base_codes.specs.CommandCodes.{number_of, name_of, coded};

/// A Command Code (RFC 6733 section 3.1, RFC 8506 section 3). A request and its answer share one.
#[derive(Clone, Copy, PartialEq, Eq)]
pub enum CommandCode {
    /// CER and CEA (RFC 6733 section 5.3).
    CapabilitiesExchange,
    /// RAR and RAA (RFC 6733 section 8.3).
    ReAuth,
    /// CCR and CCA (RFC 8506 section 3).
    CreditControl,
    /// DWR and DWA (RFC 6733 section 5.5).
    DeviceWatchdog,
    /// DPR and DPA (RFC 6733 section 5.4).
    DisconnectPeer,
}

impl CommandCode {
    /// The number in a message's header.
    pub fn number(self) -> u32
        ensures { result ≡ number_of self }
    {
        match self {
            CommandCode::CapabilitiesExchange => 257,
            CommandCode::ReAuth => 258,
            CommandCode::CreditControl => 272,
            CommandCode::DeviceWatchdog => 280,
            CommandCode::DisconnectPeer => 282,
        }
    }

    /// Its name in the standard, without Request or Answer.
    pub fn name(self) -> &'static str
        ensures { result.now ≡ name_of self }
    {
        match self {
            CommandCode::CapabilitiesExchange => "Capabilities-Exchange",
            CommandCode::ReAuth => "Re-Auth",
            CommandCode::CreditControl => "Credit-Control",
            CommandCode::DeviceWatchdog => "Device-Watchdog",
            CommandCode::DisconnectPeer => "Disconnect-Peer",
        }
    }

    /// The one with that number.
    #[tactic(auto, unfolding(crate::specs::CommandCodes::coded))]
    pub fn coded(number: u32) -> Option<CommandCode>
        ensures { result ≡ coded number }
    {
        Some(match number {
            257 => CommandCode::CapabilitiesExchange,
            258 => CommandCode::ReAuth,
            272 => CommandCode::CreditControl,
            280 => CommandCode::DeviceWatchdog,
            282 => CommandCode::DisconnectPeer,
            _ => return None,
        })
    }
}
