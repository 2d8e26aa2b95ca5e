//! A log from octets to a reservation, which is legal: what octets mean, what lines, machines and the account book do, and
//! in which order, fit each other there.
//!
//! | File of `specs/` | What it has |
//! |---|---|
//! | `Log` | the log: a CER and a CCR come in one piece |
//! | `Examples` | what it says, computed: the session has its units |
#![tactic(auto)]

mod legal;

pub use legal::octet_log_is_legal;
