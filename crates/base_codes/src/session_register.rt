//! What the registers of a session's machine hold, at a client and at a server.

ghost use Rattle.std.specs.Prelude.{◌≡◌};
ghost use Rattle.base_codes.specs.Places.{named, session_registers};

/// The account, 0 for none.
pub const ACCOUNT: usize = 0;

/// The last CC-Request-Number + 1.
pub const REQUEST_NUMBER: usize = 1;

/// The last Result-Code.
pub const RESULT_CODE: usize = 2;

/// Granted units.
pub const GRANTED: usize = 3;

/// Their unit, as in the facts.
pub const UNIT: usize = 4;

/// 1 where they are the last.
pub const FINAL: usize = 5;

/// Check-Balance-Result + 1.
pub const CHECK: usize = 6;

/// Credit-Control-Failure-Handling or Direct-Debiting-Failure-Handling.
pub const FAILURE_HANDLING: usize = 7;

/// The last CC-Request-Type.
pub const REQUEST_TYPE: usize = 8;

/// The peer's machine number.
pub const PEER: usize = 9;

/// 1 while the service is granted, 2 once it is ended.
pub const SERVICE: usize = 10;

/// The machine's number.
pub const MACHINE: usize = 14;

/// The timer's generation.
pub const TIMER: usize = 15;

/// How many services the answer has.
pub const SERVICES: usize = 16;

/// Each register of these, by number and name.
pub fn places() -> [(usize, &'static str); 14]
    ensures { named result ≡ session_registers }
{
    [
        (ACCOUNT, "account"),
        (REQUEST_NUMBER, "CC-Request-Number + 1"),
        (RESULT_CODE, "Result-Code"),
        (GRANTED, "granted units"),
        (UNIT, "unit"),
        (FINAL, "final"),
        (CHECK, "Check-Balance-Result + 1"),
        (FAILURE_HANDLING, "failure handling"),
        (REQUEST_TYPE, "CC-Request-Type"),
        (PEER, "peer"),
        (SERVICE, "service"),
        (MACHINE, "machine"),
        (TIMER, "generation of the timer"),
        (SERVICES, "count of services"),
    ]
}
