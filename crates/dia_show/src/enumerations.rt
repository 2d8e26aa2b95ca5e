//! Names of the values of Enumerated AVPs (RFC 6733 section 4.3.1).
ghost use Rattle.std.specs.Prelude.{◌≡◌};
ghost use Rattle.dia_show.specs.Names.{entry_in, enumerated_name, disconnect_causes, re_auth_request_types};
ghost use Rattle.dia_show.specs.Names.{termination_causes, request_types, session_failovers, balance_results};
ghost use Rattle.dia_show.specs.Names.{failure_handlings, debiting_failure_handlings, requested_actions};
ghost use Rattle.dia_show.specs.Names.{final_unit_actions, subscription_id_types, service_indicators};
ghost use Rattle.dia_show.specs.Names.{equipment_info_types};

// RFC 6733 section 5.4.3.
#[tactic(auto, unfolding(crate::specs::Names::entry_in))]
fn disconnect_cause(value: u32) -> &'static str
    ensures { result.now ≡ entry_in disconnect_causes value }
{
    match value {
        0 => "REBOOTING",
        1 => "BUSY",
        2 => "DO_NOT_WANT_TO_TALK_TO_YOU",
        _ => "",
    }
}

// RFC 6733 section 8.12.
#[tactic(auto, unfolding(crate::specs::Names::entry_in))]
fn re_auth_request_type(value: u32) -> &'static str
    ensures { result.now ≡ entry_in re_auth_request_types value }
{
    match value {
        0 => "AUTHORIZE_ONLY",
        1 => "AUTHORIZE_AUTHENTICATE",
        _ => "",
    }
}

// RFC 6733 section 8.15.
#[tactic(auto, unfolding(crate::specs::Names::entry_in))]
fn termination_cause(value: u32) -> &'static str
    ensures { result.now ≡ entry_in termination_causes value }
{
    match value {
        1 => "DIAMETER_LOGOUT",
        2 => "DIAMETER_SERVICE_NOT_PROVIDED",
        3 => "DIAMETER_BAD_ANSWER",
        4 => "DIAMETER_ADMINISTRATIVE",
        5 => "DIAMETER_LINK_BROKEN",
        6 => "DIAMETER_AUTH_EXPIRED",
        7 => "DIAMETER_USER_MOVED",
        8 => "DIAMETER_SESSION_TIMEOUT",
        _ => "",
    }
}

// RFC 8506 section 8.3.
#[tactic(auto, unfolding(crate::specs::Names::entry_in))]
fn request_type(value: u32) -> &'static str
    ensures { result.now ≡ entry_in request_types value }
{
    match value {
        1 => "INITIAL_REQUEST",
        2 => "UPDATE_REQUEST",
        3 => "TERMINATION_REQUEST",
        4 => "EVENT_REQUEST",
        _ => "",
    }
}

// RFC 8506 section 8.4.
#[tactic(auto, unfolding(crate::specs::Names::entry_in))]
fn session_failover(value: u32) -> &'static str
    ensures { result.now ≡ entry_in session_failovers value }
{
    match value {
        0 => "FAILOVER_NOT_SUPPORTED",
        1 => "FAILOVER_SUPPORTED",
        _ => "",
    }
}

// RFC 8506 section 8.6.
#[tactic(auto, unfolding(crate::specs::Names::entry_in))]
fn balance_result(value: u32) -> &'static str
    ensures { result.now ≡ entry_in balance_results value }
{
    match value {
        0 => "ENOUGH_CREDIT",
        1 => "NO_CREDIT",
        _ => "",
    }
}

// RFC 8506 section 8.14.
#[tactic(auto, unfolding(crate::specs::Names::entry_in))]
fn failure_handling(value: u32) -> &'static str
    ensures { result.now ≡ entry_in failure_handlings value }
{
    match value {
        0 => "TERMINATE",
        1 => "CONTINUE",
        2 => "RETRY_AND_TERMINATE",
        _ => "",
    }
}

// RFC 8506 section 8.15.
#[tactic(auto, unfolding(crate::specs::Names::entry_in))]
fn debiting_failure_handling(value: u32) -> &'static str
    ensures { result.now ≡ entry_in debiting_failure_handlings value }
{
    match value {
        0 => "TERMINATE_OR_BUFFER",
        1 => "CONTINUE",
        _ => "",
    }
}

// RFC 8506 section 8.41.
#[tactic(auto, unfolding(crate::specs::Names::entry_in))]
fn requested_action(value: u32) -> &'static str
    ensures { result.now ≡ entry_in requested_actions value }
{
    match value {
        0 => "DIRECT_DEBITING",
        1 => "REFUND_ACCOUNT",
        2 => "CHECK_BALANCE",
        3 => "PRICE_ENQUIRY",
        _ => "",
    }
}

// RFC 8506 section 8.35.
#[tactic(auto, unfolding(crate::specs::Names::entry_in))]
fn final_unit_action(value: u32) -> &'static str
    ensures { result.now ≡ entry_in final_unit_actions value }
{
    match value {
        0 => "TERMINATE",
        1 => "REDIRECT",
        2 => "RESTRICT_ACCESS",
        _ => "",
    }
}

// RFC 8506 section 8.47.
#[tactic(auto, unfolding(crate::specs::Names::entry_in))]
fn subscription_id_type(value: u32) -> &'static str
    ensures { result.now ≡ entry_in subscription_id_types value }
{
    match value {
        0 => "END_USER_E164",
        1 => "END_USER_IMSI",
        2 => "END_USER_SIP_URI",
        3 => "END_USER_NAI",
        4 => "END_USER_PRIVATE",
        _ => "",
    }
}

// RFC 8506 section 8.40.
#[tactic(auto, unfolding(crate::specs::Names::entry_in))]
fn service_indicator(value: u32) -> &'static str
    ensures { result.now ≡ entry_in service_indicators value }
{
    match value {
        0 => "MULTIPLE_SERVICES_NOT_SUPPORTED",
        1 => "MULTIPLE_SERVICES_SUPPORTED",
        _ => "",
    }
}

// RFC 8506 section 8.50.
#[tactic(auto, unfolding(crate::specs::Names::entry_in))]
fn equipment_info_type(value: u32) -> &'static str
    ensures { result.now ≡ entry_in equipment_info_types value }
{
    match value {
        0 => "IMEISV",
        1 => "MAC",
        2 => "EUI64",
        3 => "MODIFIED_EUI64",
        _ => "",
    }
}

/// The name of a value of the Enumerated AVP of that code, empty where the standards have none.
#[tactic(auto, unfolding(crate::specs::Names::entry_in))]
pub fn enumerated_name(code: u32, value: u32) -> &'static str
    ensures { result.now ≡ enumerated_name code value }
{
    match code {
        273 => disconnect_cause(value),
        285 => re_auth_request_type(value),
        295 => termination_cause(value),
        416 => request_type(value),
        418 => session_failover(value),
        422 => balance_result(value),
        427 => failure_handling(value),
        428 => debiting_failure_handling(value),
        436 => requested_action(value),
        449 => final_unit_action(value),
        450 => subscription_id_type(value),
        455 => service_indicator(value),
        459 => equipment_info_type(value),
        _ => "",
    }
}
