//! The numbers of the field and of this project, each with its name and once: Result-Codes, Command Codes, deeds, the
//! lengths of RFC 6733, and which fact and which register holds what.
//!
//! | Module | What it names |
//! |---|---|
//! | `application` | Application-Ids |
//! | `avp_code` | AVP Codes |
//! | `message_class` | classes of messages of credit control |
//! | `peer_fact`, `peer_register` | places of a peer's events and machine |
//! | `session_fact`, `session_register` | places of a session's events and machine, client or server |
//! | `slot` | places of one service of several, in facts and in registers |
#![tactic(auto)]

pub mod application;
pub mod avp_code;
mod command_code;
mod deed_code;
mod length;
pub mod message_class;
pub mod peer_fact;
pub mod peer_register;
mod result_code;
mod result_names;
pub mod session_fact;
pub mod session_register;
pub mod slot;

pub use command_code::CommandCode;
pub use deed_code::DeedCode;
pub use length::{AVP_HEADER_LEN, AVP_VENDOR_HEADER_LEN, HEADER_LEN, MAX_LENGTH, VERSION};
pub use result_code::ResultCode;
pub use result_names::result_name;
