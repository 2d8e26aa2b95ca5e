//! Numbers and octets as text: decimal and hexadecimal digits, written and read back.
#![tactic(auto)]

mod digits;
mod numbers;
mod text;

pub use digits::{Decoded, Stop, decode, digit_value, one_meaning, parts_mean_the_whole};
pub use numbers::number_of;
pub use text::{put_content, put_hex, put_number};
