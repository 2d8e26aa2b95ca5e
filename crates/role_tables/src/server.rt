//! The table of a credit-control server's session. It is also the file `tables/server.tbl`.

/// The machine of a server's session (RFC 8506 section 7).
pub const SERVER_TABLE: &str =
    "  State  Event                                   Action                                                                             Next
  Idle   Initial when repeat                     Snd-CCA                                                                            Idle
  Idle   Initial when old                        Snd-5012                                                                           Idle
  Idle   Initial when grouped and enough         Open-Account, Serve-1, Serve-2, Serve-3, Serve-4, Keep-Groups, Snd-CCA, Start-Tcc  Open
  Idle   Initial when enough                     Open-Account, Reserve, Snd-CCA, Start-Tcc                                          Open
  Idle   Initial                                 Keep-Refusal, Snd-CCA                                                              Idle
  Idle   Update when repeat                      Snd-CCA                                                                            Idle
  Idle   Update                                  Snd-5002                                                                           Idle
  Idle   Terminate when repeat                   Snd-CCA                                                                            Idle
  Idle   Terminate                               Snd-5002                                                                           Idle
  Idle   Event when repeat                       Snd-CCA                                                                            Idle
  Idle   Event when old                          Snd-5012                                                                           Idle
  Idle   Event when direct and enough and whole  Charge, Snd-CCA                                                                    Idle
  Idle   Event when direct and enough            Keep-4012, Snd-CCA                                                                 Idle
  Idle   Event when refund and known             Refund, Snd-CCA                                                                    Idle
  Idle   Event when check and known and whole    Check-Yes, Snd-CCA                                                                 Idle
  Idle   Event when check and known              Check-No, Snd-CCA                                                                  Idle
  Idle   Event when price                        Keep-5031, Snd-CCA                                                                 Idle
  Idle   Event                                   Keep-Refusal, Snd-CCA                                                              Idle
  Open   Initial when repeat                     Snd-CCA                                                                            Open
  Open   Initial                                 Snd-5012                                                                           Open
  Open   Update when repeat                      Snd-CCA                                                                            Open
  Open   Update when old                         Snd-5012                                                                           Open
  Open   Update when grouped and enough          Serve-1, Serve-2, Serve-3, Serve-4, Keep-Groups, Snd-CCA, Start-Tcc                Open
  Open   Update when grouped                     Pay-Groups, Release, Keep-Refusal, Snd-CCA, Stop-Tcc, Close                        Idle
  Open   Update when enough                      Debit, Reserve, Snd-CCA, Start-Tcc                                                 Open
  Open   Update                                  Debit, Release, Keep-Refusal, Snd-CCA, Stop-Tcc, Close                             Idle
  Open   Terminate when repeat                   Snd-CCA                                                                            Open
  Open   Terminate when old                      Snd-5012                                                                           Open
  Open   Terminate when grouped                  Pay-Groups, Release, Keep-Success, Snd-CCA, Stop-Tcc, Close                        Idle
  Open   Terminate                               Debit, Release, Keep-Success, Snd-CCA, Stop-Tcc, Close                             Idle
  Open   Event                                   Snd-5012                                                                           Open
  Open   Tcc                                     Release, Close                                                                     Idle
";
