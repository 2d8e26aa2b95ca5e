//! The AVPs of each command in the order in which they are written, as data.
//! An AVP of a command comes by a line in its list. The sections of the standards stand at the commands' structs.

ghost use Rattle.std.specs.Prelude.{◌≡◌};
ghost use Rattle.dia_command.specs.Format.{format_of};

use crate::kind::CommandKind;
use base_codes::avp_code;

/// One place in a command's format (RFC 6733 section 3.2): the AVP Code, whether the AVP must be there, and whether it
/// may be there several times. No AVP of a vendor has a place.
#[derive(Clone, Copy)]
pub struct AvpFormat {
    pub code: u32,
    pub required: bool,
    pub several: bool,
}

// How often an AVP stands in a command: whether it must be there, and whether several may be. { } and < > in a format.
const REQUIRED: (bool, bool) = (true, false);

// [ ]
const OPTIONAL: (bool, bool) = (false, false);

// 1* { }
const ONE_OR_MORE: (bool, bool) = (true, true);

// * [ ]
const ANY_NUMBER: (bool, bool) = (false, true);

macro_rules! avps {
    ($($often:ident $code:ident,)*) => {
        &[$(AvpFormat {
            code: avp_code::$code,
            required: $often.0,
            several: $often.1,
        }),*]
    };
}

const CAPABILITIES_EXCHANGE_REQUEST: &[AvpFormat] = avps![
    REQUIRED ORIGIN_HOST,
    REQUIRED ORIGIN_REALM,
    ONE_OR_MORE HOST_IP_ADDRESS,
    REQUIRED VENDOR_ID,
    REQUIRED PRODUCT_NAME,
    ANY_NUMBER AUTH_APPLICATION_ID,
];

const CAPABILITIES_EXCHANGE_ANSWER: &[AvpFormat] = avps![
    REQUIRED RESULT_CODE,
    REQUIRED ORIGIN_HOST,
    REQUIRED ORIGIN_REALM,
    ONE_OR_MORE HOST_IP_ADDRESS,
    REQUIRED VENDOR_ID,
    REQUIRED PRODUCT_NAME,
    ANY_NUMBER AUTH_APPLICATION_ID,
];

const DEVICE_WATCHDOG_REQUEST: &[AvpFormat] = avps![
    REQUIRED ORIGIN_HOST,
    REQUIRED ORIGIN_REALM,
];

const DEVICE_WATCHDOG_ANSWER: &[AvpFormat] = avps![
    REQUIRED RESULT_CODE,
    REQUIRED ORIGIN_HOST,
    REQUIRED ORIGIN_REALM,
];

const DISCONNECT_PEER_REQUEST: &[AvpFormat] = avps![
    REQUIRED ORIGIN_HOST,
    REQUIRED ORIGIN_REALM,
    REQUIRED DISCONNECT_CAUSE,
];

const DISCONNECT_PEER_ANSWER: &[AvpFormat] = avps![
    REQUIRED RESULT_CODE,
    REQUIRED ORIGIN_HOST,
    REQUIRED ORIGIN_REALM,
];

const RE_AUTH_REQUEST: &[AvpFormat] = avps![
    REQUIRED SESSION_ID,
    REQUIRED ORIGIN_HOST,
    REQUIRED ORIGIN_REALM,
    REQUIRED DESTINATION_REALM,
    REQUIRED DESTINATION_HOST,
    REQUIRED AUTH_APPLICATION_ID,
    REQUIRED RE_AUTH_REQUEST_TYPE,
];

const RE_AUTH_ANSWER: &[AvpFormat] = avps![
    REQUIRED SESSION_ID,
    REQUIRED RESULT_CODE,
    REQUIRED ORIGIN_HOST,
    REQUIRED ORIGIN_REALM,
];

// In an EVENT request Requested-Action must be there.
macro_rules! credit_control_request {
    ($requested_action:ident) => {
        avps![
            REQUIRED SESSION_ID,
            REQUIRED ORIGIN_HOST,
            REQUIRED ORIGIN_REALM,
            REQUIRED DESTINATION_REALM,
            REQUIRED AUTH_APPLICATION_ID,
            REQUIRED SERVICE_CONTEXT_ID,
            REQUIRED CC_REQUEST_TYPE,
            REQUIRED CC_REQUEST_NUMBER,
            ANY_NUMBER SUBSCRIPTION_ID,
            $requested_action REQUESTED_ACTION,
            OPTIONAL REQUESTED_SERVICE_UNIT,
            ANY_NUMBER USED_SERVICE_UNIT,
            OPTIONAL MULTIPLE_SERVICES_INDICATOR,
            ANY_NUMBER MULTIPLE_SERVICES_CREDIT_CONTROL,
        ]
    };
}

const CREDIT_CONTROL_ANSWER: &[AvpFormat] = avps![
    REQUIRED SESSION_ID,
    REQUIRED RESULT_CODE,
    REQUIRED ORIGIN_HOST,
    REQUIRED ORIGIN_REALM,
    REQUIRED AUTH_APPLICATION_ID,
    REQUIRED CC_REQUEST_TYPE,
    REQUIRED CC_REQUEST_NUMBER,
    OPTIONAL GRANTED_SERVICE_UNIT,
    OPTIONAL FINAL_UNIT_INDICATION,
    OPTIONAL CHECK_BALANCE_RESULT,
    ANY_NUMBER MULTIPLE_SERVICES_CREDIT_CONTROL,
];

const ERROR_ANSWER: &[AvpFormat] = avps![
    OPTIONAL SESSION_ID,
    REQUIRED ORIGIN_HOST,
    REQUIRED ORIGIN_REALM,
    REQUIRED RESULT_CODE,
    OPTIONAL FAILED_AVP,
];

/// The AVPs of a kind of command in the order in which they are written. In an EVENT request of credit control
/// Requested-Action must be there.
pub fn format_of(kind: CommandKind, event: bool) -> &'static [AvpFormat]
    ensures { result.now ≡ format_of kind event }
{
    match kind {
        CommandKind::CapabilitiesExchangeRequest => CAPABILITIES_EXCHANGE_REQUEST,
        CommandKind::CapabilitiesExchangeAnswer => CAPABILITIES_EXCHANGE_ANSWER,
        CommandKind::DeviceWatchdogRequest => DEVICE_WATCHDOG_REQUEST,
        CommandKind::DeviceWatchdogAnswer => DEVICE_WATCHDOG_ANSWER,
        CommandKind::DisconnectPeerRequest => DISCONNECT_PEER_REQUEST,
        CommandKind::DisconnectPeerAnswer => DISCONNECT_PEER_ANSWER,
        CommandKind::ReAuthRequest => RE_AUTH_REQUEST,
        CommandKind::ReAuthAnswer => RE_AUTH_ANSWER,
        CommandKind::CreditControlRequest if event => credit_control_request![REQUIRED],
        CommandKind::CreditControlRequest => credit_control_request![OPTIONAL],
        CommandKind::CreditControlAnswer => CREDIT_CONTROL_ANSWER,
        CommandKind::ErrorAnswer => ERROR_ANSWER,
    }
}
