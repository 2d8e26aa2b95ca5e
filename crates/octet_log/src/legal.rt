//! The log is legal, whole.
ghost use Rattle.bench_spec.specs.Legal.{IsLegal};
ghost use Rattle.octet_log.specs.Log.{log, settings};

/// A log of fifteen entries from octets to a reservation is legal: a CER and a CCR come in one piece, the peer's
/// connection is opened, and the session has its units (RFC 6733 section 5.3, RFC 8506 section 5.2).
pub fn octet_log_is_legal()
    ensures { IsLegal settings log }
{}
