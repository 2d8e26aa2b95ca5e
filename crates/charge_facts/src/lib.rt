//! What the messages of credit control say as facts of the events of a session's machine (RFC 8506).
//!
//! | File | What it does |
//! |---|---|
//! | `amount` | amounts of units in groups |
//! | `account` | the account that a request names |
//! | `facts` | which fact stands at which place |
//! | `request`, `answer` | the two calls |
#![tactic(auto)]

mod account;
mod amount;
mod answer;
mod facts;
mod request;

pub use answer::answer_facts;
pub use request::request_facts;
