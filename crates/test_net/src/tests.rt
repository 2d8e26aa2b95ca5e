//! Calls of `pump` over memory.

mod faults;
mod kept;
mod waits;
