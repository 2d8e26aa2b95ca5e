//! Codes of deeds.
ghost use Rattle.std.specs.Prelude.{◌≡◌};
ghost use Rattle.base_codes.specs.DeedCodes.{number_of, name_of, coded};

/// What a machine has done outside itself. Numbers and names are this project's own.
#[derive(Clone, Copy, PartialEq, Eq)]
pub enum DeedCode {
    /// No row took the event; the arguments are its facts.
    Unlisted,
    /// A message for a peer's machine; facts.
    ToPeer,
    /// A message for a session's machine; facts.
    ToSession,
    /// Closes a line; 0 and the line.
    Close,
    /// Opens a connection to a peer; its machine's number and the dial's generation.
    Dial,
    /// Closes that dial's connection.
    Undial,
    /// Arms the machine's timer; generation and ticks.
    Arm,
    /// Disarms it.
    Disarm,
    /// Sends a CER; 0, line, both parts of its identifiers.
    SndCer,
    /// Sends a CEA; 0, line, Hop-by-Hop and End-to-End Identifier, Result-Code.
    SndCea,
    /// Sends a DWA; as Snd-CEA.
    SndDwa,
    /// Sends a DPR; as Snd-CER.
    SndDpr,
    /// Sends a DPA; as Snd-CEA.
    SndDpa,
    /// Sends a message of credit control; facts, the line among them.
    SndMsg,
    /// Ends an election (RFC 6733 section 5.6.4); 1 where the local host wins, and the responder's line.
    Elect,
    /// Sets units aside; amount and group.
    Reserve,
    /// Ends a reservation and pays; used units and group.
    Debit,
    /// Ends the session's reservations.
    Release,
    /// Pays units without a reservation; amount.
    Charge,
    /// Gives paid units back; amount.
    Refund,
    /// Tells the service: 1 granted, 2 ended.
    Service,
}

impl DeedCode {
    /// The number that a law emits and a log prints where it has no name.
    pub fn number(self) -> u16
        ensures { result ≡ number_of self }
    {
        match self {
            DeedCode::Unlisted => 1,
            DeedCode::ToPeer => 2,
            DeedCode::ToSession => 3,
            DeedCode::Close => 5,
            DeedCode::Dial => 6,
            DeedCode::Undial => 7,
            DeedCode::Arm => 8,
            DeedCode::Disarm => 9,
            DeedCode::SndCer => 10,
            DeedCode::SndCea => 11,
            DeedCode::SndDwa => 12,
            DeedCode::SndDpr => 13,
            DeedCode::SndDpa => 14,
            DeedCode::SndMsg => 15,
            DeedCode::Elect => 16,
            DeedCode::Reserve => 20,
            DeedCode::Debit => 21,
            DeedCode::Release => 22,
            DeedCode::Charge => 23,
            DeedCode::Refund => 24,
            DeedCode::Service => 30,
        }
    }

    /// Its name in tables and logs.
    pub fn name(self) -> &'static str
        ensures { result.now ≡ name_of self }
    {
        match self {
            DeedCode::Unlisted => "Unlisted",
            DeedCode::ToPeer => "To-Peer",
            DeedCode::ToSession => "To-Session",
            DeedCode::Close => "Close",
            DeedCode::Dial => "Dial",
            DeedCode::Undial => "Undial",
            DeedCode::Arm => "Arm",
            DeedCode::Disarm => "Disarm",
            DeedCode::SndCer => "Snd-CER",
            DeedCode::SndCea => "Snd-CEA",
            DeedCode::SndDwa => "Snd-DWA",
            DeedCode::SndDpr => "Snd-DPR",
            DeedCode::SndDpa => "Snd-DPA",
            DeedCode::SndMsg => "Snd-Msg",
            DeedCode::Elect => "Elect",
            DeedCode::Reserve => "Reserve",
            DeedCode::Debit => "Debit",
            DeedCode::Release => "Release",
            DeedCode::Charge => "Charge",
            DeedCode::Refund => "Refund",
            DeedCode::Service => "Service",
        }
    }

    /// The one with that number.
    #[tactic(auto, unfolding(crate::specs::DeedCodes::coded))]
    pub fn coded(number: u16) -> Option<DeedCode>
        ensures { result ≡ coded number }
    {
        Some(match number {
            1 => DeedCode::Unlisted,
            2 => DeedCode::ToPeer,
            3 => DeedCode::ToSession,
            5 => DeedCode::Close,
            6 => DeedCode::Dial,
            7 => DeedCode::Undial,
            8 => DeedCode::Arm,
            9 => DeedCode::Disarm,
            10 => DeedCode::SndCer,
            11 => DeedCode::SndCea,
            12 => DeedCode::SndDwa,
            13 => DeedCode::SndDpr,
            14 => DeedCode::SndDpa,
            15 => DeedCode::SndMsg,
            16 => DeedCode::Elect,
            20 => DeedCode::Reserve,
            21 => DeedCode::Debit,
            22 => DeedCode::Release,
            23 => DeedCode::Charge,
            24 => DeedCode::Refund,
            30 => DeedCode::Service,
            _ => return None,
        })
    }
}
