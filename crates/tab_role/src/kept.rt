//! What the registers of a session's machine keep, as laws number them; at a client and at a server alike.

use base_codes::session_register;

pub const ACCOUNT: u8 = session_register::ACCOUNT as u8;

pub const NUMBER: u8 = session_register::REQUEST_NUMBER as u8;

pub const RESULT: u8 = session_register::RESULT_CODE as u8;

pub const GRANTED: u8 = session_register::GRANTED as u8;

pub const UNIT: u8 = session_register::UNIT as u8;

pub const FINAL: u8 = session_register::FINAL as u8;

pub const CHECK: u8 = session_register::CHECK as u8;

pub const FAILURE_HANDLING: u8 = session_register::FAILURE_HANDLING as u8;

pub const TYPE: u8 = session_register::REQUEST_TYPE as u8;

pub const PEER: u8 = session_register::PEER as u8;

pub const SERVICE: u8 = session_register::SERVICE as u8;

pub const MACHINE: u8 = session_register::MACHINE as u8;

pub const TIMER: u8 = session_register::TIMER as u8;

pub const SERVICES: u8 = session_register::SERVICES as u8;
