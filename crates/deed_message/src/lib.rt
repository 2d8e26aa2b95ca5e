//! What building a command from a deed shares: who the message speaks of, its header, and values that this node makes.
//!
//! | File | What it has |
//! |---|---|
//! | `names` | who sends, and the session |
//! | `header` | headers of requests and answers, and numbers of four octets |
#![tactic(auto)]

mod header;
mod names;

pub use dia_write::made;
pub use header::{answer_header, lowest, request_header};
pub use names::{Names, made_copy};
