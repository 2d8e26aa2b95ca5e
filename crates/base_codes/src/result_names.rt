//! Names of Result-Codes by number.
ghost use Rattle.std.specs.Prelude.{◌≡◌};
ghost use Rattle.base_codes.specs.ResultNames.{coded, other_name, result_name};

use crate::result_code::ResultCode;

/// The Result-Code of that number, where this project's code names it.
#[tactic(auto, unfolding(crate::specs::ResultNames::coded))]
fn coded(number: u32) -> Option<ResultCode>
    ensures { result ≡ coded number }
{
    Some(match number {
        2001 => ResultCode::Success,
        3001 => ResultCode::CommandUnsupported,
        3004 => ResultCode::TooBusy,
        3007 => ResultCode::ApplicationUnsupported,
        3010 => ResultCode::UnknownPeer,
        4010 => ResultCode::EndUserServiceDenied,
        4011 => ResultCode::CreditControlNotApplicable,
        4012 => ResultCode::CreditLimitReached,
        5001 => ResultCode::AvpUnsupported,
        5002 => ResultCode::UnknownSessionId,
        5004 => ResultCode::InvalidAvpValue,
        5005 => ResultCode::MissingAvp,
        5010 => ResultCode::NoCommonApplication,
        5011 => ResultCode::UnsupportedVersion,
        5012 => ResultCode::UnableToComply,
        5014 => ResultCode::InvalidAvpLength,
        5015 => ResultCode::InvalidMessageLength,
        5030 => ResultCode::UserUnknown,
        5031 => ResultCode::RatingFailed,
        _ => return None,
    })
}

// The other names.
#[tactic(auto, unfolding(crate::specs::ResultNames::other_name))]
fn other_name(number: u32) -> &'static str
    ensures { result.now ≡ other_name number }
{
    match number {
        1001 => "DIAMETER_MULTI_ROUND_AUTH",
        2002 => "DIAMETER_LIMITED_SUCCESS",
        3002 => "DIAMETER_UNABLE_TO_DELIVER",
        3003 => "DIAMETER_REALM_NOT_SERVED",
        3005 => "DIAMETER_LOOP_DETECTED",
        3006 => "DIAMETER_REDIRECT_INDICATION",
        3008 => "DIAMETER_INVALID_HDR_BITS",
        3009 => "DIAMETER_INVALID_AVP_BITS",
        4001 => "DIAMETER_AUTHENTICATION_REJECTED",
        4002 => "DIAMETER_OUT_OF_SPACE",
        4003 => "ELECTION_LOST",
        5003 => "DIAMETER_AUTHORIZATION_REJECTED",
        5006 => "DIAMETER_RESOURCES_EXCEEDED",
        5007 => "DIAMETER_CONTRADICTING_AVPS",
        5008 => "DIAMETER_AVP_NOT_ALLOWED",
        5009 => "DIAMETER_AVP_OCCURS_TOO_MANY_TIMES",
        5013 => "DIAMETER_INVALID_BIT_IN_HEADER",
        5016 => "DIAMETER_INVALID_AVP_BIT_COMBO",
        5017 => "DIAMETER_NO_COMMON_SECURITY",
        _ => "",
    }
}

/// The name of a Result-Code of RFC 6733 section 7.1 or RFC 8506 section 9; empty where the number has none.
pub fn result_name(number: u32) -> &'static str
    ensures { result.now ≡ result_name number }
{
    match coded(number) {
        Some(code) => code.name(),
        None => other_name(number),
    }
}
