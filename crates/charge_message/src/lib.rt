//! The messages of credit control that the deeds of a session's machine send (RFC 8506 section 3).
//!
//! | File | What it makes |
//! |---|---|
//! | `avp` | AVPs with flag M: numbers, amounts, groups |
//! | `service` | instances of Multiple-Services-Credit-Control |
//! | `reading` | what a deed's arguments say: session, type, numbers |
//! | `sender` | the AVPs of a message's session and sender |
//! | `request`, `answer` | the two calls |
#![tactic(auto)]

mod answer;
mod avp;
mod reading;
mod request;
mod sender;
mod service;

pub use answer::answer_message;
pub use request::request_message;
