//! What the facts of a session's events are, at a client and at a server. Facts that an event does not have are 0.

ghost use Rattle.std.specs.Prelude.{◌≡◌};
ghost use Rattle.base_codes.specs.Places.{named, session_facts};

/// The peer's machine number.
pub const PEER: usize = 0;

/// The number of the line on which it came.
pub const LINE: usize = 1;

/// The Hop-by-Hop Identifier; in a request of this node the sender's machine number.
pub const HOP_BY_HOP: usize = 2;

/// The End-to-End Identifier.
pub const END_TO_END: usize = 3;

/// 1 a CCR, 2 a CCA, 3 an error answer.
pub const CLASS: usize = 4;

/// CC-Request-Type (RFC 8506 section 8.3).
pub const REQUEST_TYPE: usize = 5;

/// CC-Request-Number + 1, 0 where there is none (RFC 8506 section 8.2).
pub const REQUEST_NUMBER: usize = 6;

/// The account, 0 for none.
pub const ACCOUNT: usize = 7;

/// Used units.
pub const USED: usize = 8;

/// Requested units.
pub const WANT: usize = 9;

/// 1 seconds, 2 octets, 3 service specific units, 0 where no units are told.
pub const UNIT: usize = 10;

/// Of a request Requested-Action + 1, of an answer Check-Balance-Result + 1 (RFC 8506 sections 8.41 and 8.6).
pub const ACTION_OR_CHECK: usize = 11;

/// Of an answer its Result-Code; of a server's event the verdict of the quote.
pub const RESULT_CODE: usize = 12;

/// Of Begin Credit-Control-Failure-Handling, of One Direct-Debiting-Failure-Handling (RFC 8506 sections 8.14 and 8.15).
pub const FAILURE_HANDLING: usize = 12;

/// Of an answer granted units; of a server's event the units that the quote offers.
pub const GRANTED: usize = 13;

/// 1 where these are the last units (RFC 8506 section 8.34).
pub const FINAL: usize = 14;

/// Of a server's event the used units that can be paid.
pub const PAY: usize = 15;

/// How many services the message has (Multiple-Services-Credit-Control, RFC 8506 section 8.16), 0 for none.
pub const SERVICES: usize = 16;

/// Each fact of these, by number and name.
pub fn places() -> [(usize, &'static str); 18]
    ensures { named result ≡ session_facts }
{
    [
        (PEER, "peer"),
        (LINE, "line"),
        (HOP_BY_HOP, "Hop-by-Hop Identifier"),
        (END_TO_END, "End-to-End Identifier"),
        (CLASS, "class"),
        (REQUEST_TYPE, "CC-Request-Type"),
        (REQUEST_NUMBER, "CC-Request-Number + 1"),
        (ACCOUNT, "account"),
        (USED, "used units"),
        (WANT, "requested units"),
        (UNIT, "unit"),
        (
            ACTION_OR_CHECK,
            "Requested-Action + 1 or Check-Balance-Result + 1",
        ),
        (RESULT_CODE, "Result-Code"),
        (FAILURE_HANDLING, "failure handling"),
        (GRANTED, "granted units"),
        (FINAL, "final"),
        (PAY, "units that can be paid"),
        (SERVICES, "count of services"),
    ]
}
