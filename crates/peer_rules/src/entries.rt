//! The actions of a peer's machine as data, a line each.

use ActionStep::{Do, Next, Send, Set};
use base_codes::{DeedCode, ResultCode, peer_fact, peer_register};
use tab_law::Atom;
use tab_role::{ActEntry, ActionStep, Services};

const I_LINE: u8 = peer_register::I_LINE as u8;

const R_LINE: u8 = peer_register::R_LINE as u8;

const DIAL: u8 = peer_register::DIAL as u8;

const WIN: u8 = peer_register::WIN as u8;

const HOP_BY_HOP: u8 = peer_register::HOP_BY_HOP as u8;

const END_TO_END: u8 = peer_register::END_TO_END as u8;

const REQUESTS: u8 = peer_register::REQUESTS as u8;

const TIMER: u8 = peer_register::TIMER as u8;

/// The line on which the event came.
const LINE: Atom = Atom::Fact(peer_fact::LINE as u8);

/// Whether the local host wins an election against the sender of the CER.
const WINS: Atom = Atom::Fact(peer_fact::LOCAL_WINS as u8);

/// The identifiers of the message that came.
const ITS_HOP: Atom = Atom::Fact(peer_fact::HOP_BY_HOP as u8);

const ITS_END: Atom = Atom::Fact(peer_fact::END_TO_END as u8);

/// The lines of the peer, and the identifiers of the CER that was accepted.
const I: Atom = Atom::Register(I_LINE);

const R: Atom = Atom::Register(R_LINE);

const CER_HOP: Atom = Atom::Register(HOP_BY_HOP);

const CER_END: Atom = Atom::Register(END_TO_END);

const MACHINE: Atom = Atom::Register(peer_register::MACHINE as u8);

const NONE: Atom = Atom::Constant(0);

const SUCCESS: Atom = Atom::Constant(2001);

/// Ticks after which a peer's timer fires.
const TICKS: Atom = Atom::Constant(30);

/// The timer's new generation is armed, or disarmed.
const ARM: ActionStep = Do(DeedCode::Arm, &[Atom::NewRegister(TIMER), TICKS]);

const DISARM: ActionStep = Do(DeedCode::Disarm, &[]);

/// Opens a connection to the peer, as the new dial, or closes that of the last one.
const OPEN: ActionStep = Do(DeedCode::Dial, &[MACHINE, Atom::NewRegister(DIAL)]);

const UNDIAL: ActionStep = Do(DeedCode::Undial, &[MACHINE, Atom::Register(DIAL)]);

/// Tells who wins the election.
const ELECT: ActionStep = Do(DeedCode::Elect, &[Atom::Register(WIN), R]);

/// An action: its name and what it does.
macro_rules! act {
    ($name:expr => $($step:expr),*) => {
        ($name, &[$($step),*])
    };
}

/// Closes a line.
macro_rules! close {
    ($line:expr) => {
        Do(DeedCode::Close, &[NONE, $line])
    };
}

/// A request of this machine to a line.
macro_rules! request {
    ($code:expr, $line:expr) => {
        Do($code, &[NONE, $line, MACHINE, Atom::NewRegister(REQUESTS)])
    };
}

/// An answer of success to a line, with both identifiers of its request.
macro_rules! answer {
    ($code:expr, $line:expr, $hop_by_hop:expr, $end_to_end:expr) => {
        Do($code, &[NONE, $line, $hop_by_hop, $end_to_end, SUCCESS])
    };
}

/// The event's facts, with that in place of the line.
macro_rules! forward {
    ($code:expr, $line:expr) => {
        Send(
            $code,
            &[
                Atom::Fact(0),
                $line,
                Atom::Fact(2),
                Atom::Fact(3),
                Atom::Fact(4),
                Atom::Fact(5),
                Atom::Fact(6),
                Atom::Fact(7),
                Atom::Fact(8),
                Atom::Fact(9),
                Atom::Fact(10),
                Atom::Fact(11),
                Atom::Fact(12),
                Atom::Fact(13),
                Atom::Fact(14),
                Atom::Fact(15),
            ],
            Services::OfEvent,
        )
    };
}

/// The actions, in the order of their first appearance in the table.
pub(crate) const ACTS: [ActEntry; 23] = [
    act!("I-Snd-Conn-Req" => Next(DIAL), Next(TIMER), OPEN, ARM),
    act!("R-Accept" => Set(R_LINE, LINE)),
    act!("Process-CER" => Set(WIN, WINS), Set(HOP_BY_HOP, ITS_HOP), Set(END_TO_END, ITS_END)),
    act!("R-Snd-CEA" => Next(TIMER), answer!(DeedCode::SndCea, R, CER_HOP, CER_END), DISARM),
    act!("I-Snd-CER" => Set(I_LINE, LINE), Next(REQUESTS), request!(DeedCode::SndCer, LINE)),
    act!("Cleanup" => Set(I_LINE, NONE), Next(TIMER), DISARM),
    act!("Error" => Set(I_LINE, NONE), Set(R_LINE, NONE), Next(DIAL), Next(TIMER),
        close!(I), close!(R), UNDIAL, DISARM),
    act!("Process-CEA" => Next(TIMER), DISARM),
    act!("Elect" => ELECT),
    act!("I-Disc" => Set(I_LINE, NONE), close!(I)),
    act!("R-Disc" => Set(R_LINE, NONE), close!(R)),
    act!("R-Reject" => close!(LINE)),
    act!("R-Snd-Message" => forward!(DeedCode::SndMsg, R)),
    act!("Process" => forward!(DeedCode::ToSession, LINE)),
    act!("Process-DWR" =>),
    act!("R-Snd-DWA" => answer!(DeedCode::SndDwa, R, ITS_HOP, ITS_END)),
    act!("Process-DWA" =>),
    act!("R-Snd-DPR" => Next(REQUESTS), Next(TIMER), request!(DeedCode::SndDpr, R), ARM),
    act!("R-Snd-DPA" => Next(TIMER), answer!(DeedCode::SndDpa, R, ITS_HOP, ITS_END), ARM),
    act!("I-Snd-Message" => forward!(DeedCode::SndMsg, I)),
    act!("I-Snd-DWA" => answer!(DeedCode::SndDwa, I, ITS_HOP, ITS_END)),
    act!("I-Snd-DPR" => Next(REQUESTS), Next(TIMER), request!(DeedCode::SndDpr, I), ARM),
    act!("I-Snd-DPA" => Next(TIMER), answer!(DeedCode::SndDpa, I, ITS_HOP, ITS_END), ARM),
];
