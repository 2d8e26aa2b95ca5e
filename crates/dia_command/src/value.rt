//! Values of AVPs that credit control names (RFC 8506 sections 8.3 and 8.41).

ghost use Rattle.std.specs.Prelude.{◌≡◌};
ghost use Rattle.dia_command.specs.Value.{type_number, type_coded, action_number, action_coded};

/// A CC-Request-Type (RFC 8506 section 8.3).
#[derive(Clone, Copy, PartialEq, Eq)]
pub enum RequestType {
    Initial,
    Update,
    Termination,
    Event,
}

impl RequestType {
    /// The number in the AVP, 1 to 4.
    pub fn number(self) -> u32
        ensures { result ≡ type_number self }
    {
        match self {
            RequestType::Initial => 1,
            RequestType::Update => 2,
            RequestType::Termination => 3,
            RequestType::Event => 4,
        }
    }

    /// The one with that number; there is none outside 1 to 4.
    #[tactic(auto, unfolding(crate::specs::Value::type_coded))]
    pub fn coded(number: u32) -> Option<RequestType>
        ensures { result ≡ type_coded number }
    {
        Some(match number {
            1 => RequestType::Initial,
            2 => RequestType::Update,
            3 => RequestType::Termination,
            4 => RequestType::Event,
            _ => return None,
        })
    }
}

/// A Requested-Action (RFC 8506 section 8.41). Outside EVENT requests any number is read and written back, as `Other`
/// where the standard names none; there `Other` never has a number below 4.
#[derive(Clone, Copy)]
pub enum RequestedAction {
    DirectDebiting,
    RefundAccount,
    CheckBalance,
    PriceEnquiry,
    Other(u32),
}

impl RequestedAction {
    /// The number in the AVP.
    pub fn number(self) -> u32
        ensures { result ≡ action_number self }
    {
        match self {
            RequestedAction::DirectDebiting => 0,
            RequestedAction::RefundAccount => 1,
            RequestedAction::CheckBalance => 2,
            RequestedAction::PriceEnquiry => 3,
            RequestedAction::Other(number) => number,
        }
    }

    /// The one with that number.
    #[tactic(auto, unfolding(crate::specs::Value::action_coded))]
    pub fn coded(number: u32) -> RequestedAction
        ensures { result ≡ action_coded number }
    {
        match number {
            0 => RequestedAction::DirectDebiting,
            1 => RequestedAction::RefundAccount,
            2 => RequestedAction::CheckBalance,
            3 => RequestedAction::PriceEnquiry,
            other => RequestedAction::Other(other),
        }
    }
}
