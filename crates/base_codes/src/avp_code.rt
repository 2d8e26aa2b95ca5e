//! AVP Codes (RFC 6733 section 4.5, RFC 8506 section 8) of the AVPs that this project's code names. None has a vendor.

ghost use Rattle.std.specs.Prelude.{◌≡◌};
ghost use Rattle.base_codes.specs.AvpCodes.{avp_codes};
ghost use Rattle.base_codes.specs.Places.{named};

pub const HOST_IP_ADDRESS: u32 = 257;

pub const AUTH_APPLICATION_ID: u32 = 258;

pub const VENDOR_SPECIFIC_APPLICATION_ID: u32 = 260;

pub const SESSION_ID: u32 = 263;

pub const ORIGIN_HOST: u32 = 264;

pub const VENDOR_ID: u32 = 266;

pub const RESULT_CODE: u32 = 268;

pub const PRODUCT_NAME: u32 = 269;

pub const DISCONNECT_CAUSE: u32 = 273;

pub const FAILED_AVP: u32 = 279;

pub const DESTINATION_REALM: u32 = 283;

pub const RE_AUTH_REQUEST_TYPE: u32 = 285;

pub const DESTINATION_HOST: u32 = 293;

pub const ORIGIN_REALM: u32 = 296;

pub const CC_REQUEST_NUMBER: u32 = 415;

pub const CC_REQUEST_TYPE: u32 = 416;

pub const CC_SERVICE_SPECIFIC_UNITS: u32 = 417;

pub const CC_TIME: u32 = 420;

pub const CC_TOTAL_OCTETS: u32 = 421;

pub const CHECK_BALANCE_RESULT: u32 = 422;

pub const FINAL_UNIT_INDICATION: u32 = 430;

pub const GRANTED_SERVICE_UNIT: u32 = 431;

pub const RATING_GROUP: u32 = 432;

pub const REQUESTED_ACTION: u32 = 436;

pub const REQUESTED_SERVICE_UNIT: u32 = 437;

pub const SUBSCRIPTION_ID: u32 = 443;

pub const SUBSCRIPTION_ID_DATA: u32 = 444;

pub const USED_SERVICE_UNIT: u32 = 446;

pub const FINAL_UNIT_ACTION: u32 = 449;

pub const SUBSCRIPTION_ID_TYPE: u32 = 450;

pub const MULTIPLE_SERVICES_INDICATOR: u32 = 455;

pub const MULTIPLE_SERVICES_CREDIT_CONTROL: u32 = 456;

pub const SERVICE_CONTEXT_ID: u32 = 461;

/// Each of these, by number and name.
pub fn codes() -> [(u32, &'static str); 32]
    ensures { named result ≡ avp_codes }
{
    [
        (HOST_IP_ADDRESS, "Host-IP-Address"),
        (AUTH_APPLICATION_ID, "Auth-Application-Id"),
        (SESSION_ID, "Session-Id"),
        (ORIGIN_HOST, "Origin-Host"),
        (VENDOR_ID, "Vendor-Id"),
        (RESULT_CODE, "Result-Code"),
        (PRODUCT_NAME, "Product-Name"),
        (DISCONNECT_CAUSE, "Disconnect-Cause"),
        (FAILED_AVP, "Failed-AVP"),
        (DESTINATION_REALM, "Destination-Realm"),
        (RE_AUTH_REQUEST_TYPE, "Re-Auth-Request-Type"),
        (DESTINATION_HOST, "Destination-Host"),
        (ORIGIN_REALM, "Origin-Realm"),
        (CC_REQUEST_NUMBER, "CC-Request-Number"),
        (CC_REQUEST_TYPE, "CC-Request-Type"),
        (CC_SERVICE_SPECIFIC_UNITS, "CC-Service-Specific-Units"),
        (CC_TIME, "CC-Time"),
        (CC_TOTAL_OCTETS, "CC-Total-Octets"),
        (CHECK_BALANCE_RESULT, "Check-Balance-Result"),
        (FINAL_UNIT_INDICATION, "Final-Unit-Indication"),
        (GRANTED_SERVICE_UNIT, "Granted-Service-Unit"),
        (RATING_GROUP, "Rating-Group"),
        (REQUESTED_ACTION, "Requested-Action"),
        (REQUESTED_SERVICE_UNIT, "Requested-Service-Unit"),
        (SUBSCRIPTION_ID, "Subscription-Id"),
        (SUBSCRIPTION_ID_DATA, "Subscription-Id-Data"),
        (USED_SERVICE_UNIT, "Used-Service-Unit"),
        (FINAL_UNIT_ACTION, "Final-Unit-Action"),
        (SUBSCRIPTION_ID_TYPE, "Subscription-Id-Type"),
        (MULTIPLE_SERVICES_INDICATOR, "Multiple-Services-Indicator"),
        (
            MULTIPLE_SERVICES_CREDIT_CONTROL,
            "Multiple-Services-Credit-Control",
        ),
        (SERVICE_CONTEXT_ID, "Service-Context-Id"),
    ]
}
