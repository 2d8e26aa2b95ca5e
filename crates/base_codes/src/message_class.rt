//! The class of a message of credit control, by which the machine that it is for is known: the fact `CLASS`.

pub const REQUEST: u64 = 1;

pub const ANSWER: u64 = 2;

/// An answer that tells a fault.
pub const FAULT: u64 = 3;
