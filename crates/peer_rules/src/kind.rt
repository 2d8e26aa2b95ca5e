//! The kinds of events of a peer's machine.

ghost use Rattle.std.specs.Prelude.{◌≡◌, Some};
ghost use Rattle.base_list.specs.Named.{place_of};
ghost use Rattle.peer_rules.specs.Kinds.{name_of, kinds};

/// A kind of events (RFC 6733 section 5.6.2, where most of these names come from), in the order of the first appearance
/// in the table. `I` is the initiator's connection, which this node opened, `R` the responder's, which its peer opened.
#[derive(Clone, Copy, PartialEq, Eq)]
pub enum PeerKind {
    /// The node is told to open a connection.
    Start,
    /// A CER came on a connection that the peer opened.
    RConnCer,
    /// The connection that this node asked for is open.
    IRcvConnAck,
    /// It could not be opened.
    IRcvConnNack,
    /// The machine's timer fired.
    Timeout,
    /// A CEA with success came.
    IRcvCea,
    /// The initiator's connection is lost.
    IPeerDisc,
    /// Another message came where a CEA with success was due.
    IRcvNonCea,
    /// The responder's connection is lost.
    RPeerDisc,
    /// The local host won the election.
    WinElection,
    /// A message of credit control is to be sent.
    SendMessage,
    /// A message of credit control came.
    RRcvMessage,
    RRcvDwr,
    RRcvDwa,
    /// The node is told to close the connection.
    Stop,
    RRcvDpr,
    /// A message of credit control came.
    IRcvMessage,
    IRcvDwr,
    IRcvDwa,
    IRcvDpr,
    IRcvDpa,
    RRcvDpa,
}

/// Their names.
pub(crate) const NAMES: [&str; 22] = [
    "Start",
    "R-Conn-CER",
    "I-Rcv-Conn-Ack",
    "I-Rcv-Conn-Nack",
    "Timeout",
    "I-Rcv-CEA",
    "I-Peer-Disc",
    "I-Rcv-Non-CEA",
    "R-Peer-Disc",
    "Win-Election",
    "Send-Message",
    "R-Rcv-Message",
    "R-Rcv-DWR",
    "R-Rcv-DWA",
    "Stop",
    "R-Rcv-DPR",
    "I-Rcv-Message",
    "I-Rcv-DWR",
    "I-Rcv-DWA",
    "I-Rcv-DPR",
    "I-Rcv-DPA",
    "R-Rcv-DPA",
];

impl PeerKind {
    /// Its name in tables.
    pub fn name(self) -> &'static str
        ensures { result.now ≡ name_of self }
    {
        NAMES[self as usize]
    }

    /// Its place in the kinds of a peer's laws.
    pub fn place(self) -> u8
        ensures { place_of (name_of self) kinds ≡ Some result }
    {
        self as u8
    }
}
