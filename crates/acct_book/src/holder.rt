//! Whose reservation an operation is on.

/// Who holds a reservation: a session and group, on an account.
#[derive(Clone, Copy, PartialEq, Eq, Hash)]
pub(crate) struct Holder {
    pub(crate) account: u64,
    pub(crate) session: u64,
    pub(crate) group: u64,
}

/// A session on an account, with all its groups.
#[derive(Clone, Copy, PartialEq, Eq, Hash)]
pub(crate) struct Session {
    pub(crate) account: u64,
    pub(crate) session: u64,
}

impl Holder {
    ghost use Rattle.std.specs.Prelude.{◌≡◌};
    ghost use Rattle.acct_book.specs.Stored.{session_of};

    /// The session, with all its groups.
    pub(crate) fn session(&self) -> Session
        ensures { result ≡ session_of self.now }
    {
        Session {
            account: self.account,
            session: self.session,
        }
    }
}
