//! The table of a credit-control client's session. It is also the file `tables/client.tbl`.

/// The machine of a client's session (RFC 8506 section 7).
pub const CLIENT_TABLE: &str =
    "  State     Event                             Action                              Next
  Idle      Begin                             Snd-CCR-I, Start-Tx                 PendingI
  Idle      One                               Snd-CCR-E, Start-Tx                 PendingE
  PendingI  CCA-I when mine and success       Take-Grant, Stop-Tx, Grant-Service  Open
  PendingI  CCA-I when mine and inapplicable  Stop-Tx, Grant-Service              Idle
  PendingI  CCA-I when mine and denied        Stop-Tx, End-Service                Idle
  PendingI  CCA-I when mine and go-on         Stop-Tx, Grant-Service              Idle
  PendingI  CCA-I when mine                   Stop-Tx, End-Service                Idle
  PendingI  CCA-Fault when go-on              Stop-Tx, Grant-Service              Idle
  PendingI  CCA-Fault                         Stop-Tx, End-Service                Idle
  PendingI  Send-Fail when go-on              Stop-Tx, Grant-Service              Idle
  PendingI  Send-Fail                         Stop-Tx, End-Service                Idle
  PendingI  Tx when cut-off                   End-Service                         Idle
  PendingI  Tx                                Grant-Service                       PendingI
  Open      More                              Snd-CCR-U, Start-Tx                 PendingU
  Open      End                               Snd-CCR-T, Start-Tx                 PendingT
  PendingU  CCA-U when mine and success       Take-Grant, Stop-Tx, Grant-Service  Open
  PendingU  CCA-U when mine and inapplicable  Stop-Tx, Grant-Service              Idle
  PendingU  CCA-U when mine and barred        Stop-Tx, End-Service                Idle
  PendingU  CCA-U when mine and go-on         Stop-Tx, Grant-Service              Idle
  PendingU  CCA-U when mine                   Stop-Tx, End-Service                Idle
  PendingU  CCA-Fault when go-on              Stop-Tx, Grant-Service              Idle
  PendingU  CCA-Fault                         Stop-Tx, End-Service                Idle
  PendingU  Send-Fail when go-on              Stop-Tx, Grant-Service              Idle
  PendingU  Send-Fail                         Stop-Tx, End-Service                Idle
  PendingU  Tx when cut-off                   End-Service                         Idle
  PendingU  Tx                                Grant-Service                       PendingU
  PendingT  CCA-T when mine                   Stop-Tx, End-Service                Idle
  PendingT  CCA-Fault                         Stop-Tx, End-Service                Idle
  PendingT  Send-Fail                         Stop-Tx, End-Service                Idle
  PendingT  Tx                                Stop-Tx, End-Service                Idle
  PendingE  CCA-E when mine and success       Take-Grant, Stop-Tx, Grant-Service  Idle
  PendingE  CCA-E when mine and inapplicable  Stop-Tx, Grant-Service              Idle
  PendingE  CCA-E when mine and denied        Stop-Tx, End-Service                Idle
  PendingE  CCA-E when mine and go-on         Stop-Tx, Grant-Service              Idle
  PendingE  CCA-E when mine                   Stop-Tx, End-Service                Idle
  PendingE  CCA-Fault when go-on              Stop-Tx, Grant-Service              Idle
  PendingE  CCA-Fault                         Stop-Tx, End-Service                Idle
  PendingE  Send-Fail when go-on              Stop-Tx, Grant-Service              Idle
  PendingE  Send-Fail                         Stop-Tx, End-Service                Idle
  PendingE  Tx when go-on                     Grant-Service                       Idle
  PendingE  Tx                                End-Service                         Idle
";
