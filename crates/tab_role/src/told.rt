//! What the facts of a session's event tell, as laws number them; at a client and at a server alike.

use base_codes::session_fact;

pub const PEER: u8 = session_fact::PEER as u8;

pub const LINE: u8 = session_fact::LINE as u8;

pub const HOP_BY_HOP: u8 = session_fact::HOP_BY_HOP as u8;

pub const END_TO_END: u8 = session_fact::END_TO_END as u8;

pub const TYPE: u8 = session_fact::REQUEST_TYPE as u8;

pub const NUMBER: u8 = session_fact::REQUEST_NUMBER as u8;

pub const ACCOUNT: u8 = session_fact::ACCOUNT as u8;

pub const USED: u8 = session_fact::USED as u8;

pub const WANT: u8 = session_fact::WANT as u8;

pub const UNIT: u8 = session_fact::UNIT as u8;

pub const ACTION_OR_CHECK: u8 = session_fact::ACTION_OR_CHECK as u8;

pub const RESULT: u8 = session_fact::RESULT_CODE as u8;

pub const FAILURE_HANDLING: u8 = session_fact::FAILURE_HANDLING as u8;

pub const GRANTED: u8 = session_fact::GRANTED as u8;

pub const FINAL: u8 = session_fact::FINAL as u8;

pub const SERVICES: u8 = session_fact::SERVICES as u8;
