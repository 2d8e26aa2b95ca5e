//! The kinds of events of a client's machine.

ghost use Rattle.std.specs.Prelude.{◌≡◌, Some};
ghost use Rattle.base_list.specs.Named.{place_of};
ghost use Rattle.client_rules.specs.Kinds.{name_of, kinds};

/// A kind of events, in the order of the first appearance in the table: what the service tells its session, an answer
/// by its CC-Request-Type (RFC 8506 section 8.3), what went wrong, or the timer.
#[derive(Clone, Copy, PartialEq, Eq)]
pub enum ClientKind {
    /// The service asks for its first units.
    Begin,
    /// The service asks for a one-time event (RFC 8506 section 6).
    One,
    /// An answer to INITIAL_REQUEST came.
    CcaI,
    /// An answer came that is an error answer of the base protocol (RFC 6733 section 7.2).
    CcaFault,
    /// The request could not be sent.
    SendFail,
    /// The timer Tx fired (RFC 8506 section 13).
    Tx,
    /// The service asks for more units.
    More,
    /// The service has ended.
    End,
    /// An answer to UPDATE_REQUEST came.
    CcaU,
    /// An answer to TERMINATION_REQUEST came.
    CcaT,
    /// An answer to EVENT_REQUEST came.
    CcaE,
}

/// Their names.
pub(crate) const NAMES: [&str; 11] = [
    "Begin",
    "One",
    "CCA-I",
    "CCA-Fault",
    "Send-Fail",
    "Tx",
    "More",
    "End",
    "CCA-U",
    "CCA-T",
    "CCA-E",
];

impl ClientKind {
    /// Its name in tables.
    pub fn name(self) -> &'static str
        ensures { result.now ≡ name_of self }
    {
        NAMES[self as usize]
    }

    /// Its place in the kinds of a client's laws.
    pub fn place(self) -> u8
        ensures { place_of (name_of self) kinds ≡ Some result }
    {
        self as u8
    }
}
