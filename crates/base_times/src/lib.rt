//! Times in a fixed number of buckets, and which of them a share of all times doesn't pass; counters that stay at their
//! greatest value.
//!
//! | File | What it has |
//! |---|---|
//! | `count` | counters, alone and in a row |
//! | `bucket` | which times are counted together |
//! | `times` | how many times fell into each bucket, and percentiles |
#![tactic(auto)]

mod bucket;
mod count;
mod times;

pub use bucket::{BUCKETS, each_time_has_a_bucket};
pub use count::{clear, count_at, more};
pub use times::{Times, no_times_are_counted};
