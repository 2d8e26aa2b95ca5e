//! Result-Codes.
ghost use Rattle.std.specs.Prelude.{◌≡◌};
ghost use Rattle.base_codes.specs.ResultCodes.{number_of, name_of};

use std::fmt;
use thiserror::Error;

/// A Result-Code (RFC 6733 section 7.1, RFC 8506 section 9).
#[derive(Clone, Copy, Debug, PartialEq, Eq, Error)]
pub enum ResultCode {
    Success,
    CommandUnsupported,
    TooBusy,
    ApplicationUnsupported,
    UnknownPeer,
    EndUserServiceDenied,
    CreditControlNotApplicable,
    CreditLimitReached,
    AvpUnsupported,
    UnknownSessionId,
    InvalidAvpValue,
    MissingAvp,
    NoCommonApplication,
    UnsupportedVersion,
    UnableToComply,
    InvalidAvpLength,
    InvalidMessageLength,
    UserUnknown,
    RatingFailed,
}

impl ResultCode {
    /// The value of the AVP Result-Code.
    pub fn number(self) -> u32
        ensures { result ≡ number_of self }
    {
        match self {
            ResultCode::Success => 2001,
            ResultCode::CommandUnsupported => 3001,
            ResultCode::TooBusy => 3004,
            ResultCode::ApplicationUnsupported => 3007,
            ResultCode::UnknownPeer => 3010,
            ResultCode::EndUserServiceDenied => 4010,
            ResultCode::CreditControlNotApplicable => 4011,
            ResultCode::CreditLimitReached => 4012,
            ResultCode::AvpUnsupported => 5001,
            ResultCode::UnknownSessionId => 5002,
            ResultCode::InvalidAvpValue => 5004,
            ResultCode::MissingAvp => 5005,
            ResultCode::NoCommonApplication => 5010,
            ResultCode::UnsupportedVersion => 5011,
            ResultCode::UnableToComply => 5012,
            ResultCode::InvalidAvpLength => 5014,
            ResultCode::InvalidMessageLength => 5015,
            ResultCode::UserUnknown => 5030,
            ResultCode::RatingFailed => 5031,
        }
    }

    /// Its name in the standard.
    pub fn name(self) -> &'static str
        ensures { result.now ≡ name_of self }
    {
        match self {
            ResultCode::Success => "DIAMETER_SUCCESS",
            ResultCode::CommandUnsupported => "DIAMETER_COMMAND_UNSUPPORTED",
            ResultCode::TooBusy => "DIAMETER_TOO_BUSY",
            ResultCode::ApplicationUnsupported => "DIAMETER_APPLICATION_UNSUPPORTED",
            ResultCode::UnknownPeer => "DIAMETER_UNKNOWN_PEER",
            ResultCode::EndUserServiceDenied => "DIAMETER_END_USER_SERVICE_DENIED",
            ResultCode::CreditControlNotApplicable => "DIAMETER_CREDIT_CONTROL_NOT_APPLICABLE",
            ResultCode::CreditLimitReached => "DIAMETER_CREDIT_LIMIT_REACHED",
            ResultCode::AvpUnsupported => "DIAMETER_AVP_UNSUPPORTED",
            ResultCode::UnknownSessionId => "DIAMETER_UNKNOWN_SESSION_ID",
            ResultCode::InvalidAvpValue => "DIAMETER_INVALID_AVP_VALUE",
            ResultCode::MissingAvp => "DIAMETER_MISSING_AVP",
            ResultCode::NoCommonApplication => "DIAMETER_NO_COMMON_APPLICATION",
            ResultCode::UnsupportedVersion => "DIAMETER_UNSUPPORTED_VERSION",
            ResultCode::UnableToComply => "DIAMETER_UNABLE_TO_COMPLY",
            ResultCode::InvalidAvpLength => "DIAMETER_INVALID_AVP_LENGTH",
            ResultCode::InvalidMessageLength => "DIAMETER_INVALID_MESSAGE_LENGTH",
            ResultCode::UserUnknown => "DIAMETER_USER_UNKNOWN",
            ResultCode::RatingFailed => "DIAMETER_RATING_FAILED",
        }
    }

    // What is printed of it.
    fn text(self) -> &'static str {
        match self {
            ResultCode::Success => "DIAMETER_SUCCESS: the request was done",
            ResultCode::CommandUnsupported =>
                "DIAMETER_COMMAND_UNSUPPORTED: this node does not know the command; see its code and flag R",
            ResultCode::TooBusy =>
                "DIAMETER_TOO_BUSY: this node has no room for the session; send the request to another",
            ResultCode::ApplicationUnsupported =>
                "DIAMETER_APPLICATION_UNSUPPORTED: the Application-Id is not the command's",
            ResultCode::UnknownPeer =>
                "DIAMETER_UNKNOWN_PEER: the Origin-Host is none that this node was told of",
            ResultCode::EndUserServiceDenied =>
                "DIAMETER_END_USER_SERVICE_DENIED: the service is not for this user",
            ResultCode::CreditControlNotApplicable =>
                "DIAMETER_CREDIT_CONTROL_NOT_APPLICABLE: the service needs no credit control",
            ResultCode::CreditLimitReached =>
                "DIAMETER_CREDIT_LIMIT_REACHED: the account does not cover the service",
            ResultCode::AvpUnsupported =>
                "DIAMETER_AVP_UNSUPPORTED: unknown AVP with flag M; the sender must leave it out or clear M",
            ResultCode::UnknownSessionId => "DIAMETER_UNKNOWN_SESSION_ID: there is no such session",
            ResultCode::InvalidAvpValue =>
                "DIAMETER_INVALID_AVP_VALUE: AVP data that its type does not allow",
            ResultCode::MissingAvp => "DIAMETER_MISSING_AVP: a required AVP is missing",
            ResultCode::NoCommonApplication =>
                "DIAMETER_NO_COMMON_APPLICATION: the peers have no application in common",
            ResultCode::UnsupportedVersion =>
                "DIAMETER_UNSUPPORTED_VERSION: the version is not 1; is the sender speaking Diameter?",
            ResultCode::UnableToComply =>
                "DIAMETER_UNABLE_TO_COMPLY: the message has over 128 AVPs in a list, over 4 levels of groups, \
                    or comes at the wrong time",
            ResultCode::InvalidAvpLength =>
                "DIAMETER_INVALID_AVP_LENGTH: an AVP is cut off, or has a size that its type does not have",
            ResultCode::InvalidMessageLength =>
                "DIAMETER_INVALID_MESSAGE_LENGTH: the Message Length is below 20, \
                    no multiple of 4 or not that of the message",
            ResultCode::UserUnknown => "DIAMETER_USER_UNKNOWN: there is no such account",
            ResultCode::RatingFailed => "DIAMETER_RATING_FAILED: the service can't be rated",
        }
    }
}

// By hand: a derived one writes in every arm, and each is proved to.
impl fmt::Display for ResultCode {
    fn fmt<W: fmt::Write>(&self, f: &mut fmt::Formatter<W>) -> fmt::Result {
        f.write_str(self.text())
    }
}
