//! Lists of stamps that were drawn side by side, put into one order.
//!
//! | File | What it has |
//! |---|---|
//! | `merging` | the order, or that there is none |
//! | `law` | parts that have an order have nothing that keeps them from it |
#![tactic(auto)]

mod law;
mod merging;

pub use law::order_or_clash;
pub use merging::{Placed, merge};
