//! The machine of a peer over callbacks that keep its laws: both nodes opened a connection, and the local host wins.

ghost use Rattle.std.specs.Prelude.{IfSome};
ghost use Rattle.tab_step.specs.Bind.{IsBoundTo};

use base_codes::{peer_fact, peer_register};
use peer_rules::PeerKind;
use role_tables::PEER_TABLE;
use std::alloc::Global;
use tab_call::Registry;
use tab_law::{Deed, LawBook, PLACES};
use tab_step::{Bound, Event, MachineState, Stepped, bind, run};
use tab_text::parse;

/// The number of the machine.
const MACHINE: u64 = 9;

/// The table's text, bound to a book.
fn bound_to(alloc: Global, book: &LawBook) -> Option<Bound>
    ensures { IfSome result (λ bound. IsBoundTo bound book.now) }
{
    let Ok(table) = parse(alloc, PEER_TABLE.as_bytes()) else {
        return None;
    };
    match bind(alloc, table, book) {
        Ok(bound) => Some(bound),
        Err(_) => None,
    }
}

/// A machine of that number in the first state.
fn start() -> MachineState {
    let mut regs = [0; PLACES];
    regs[peer_register::MACHINE] = MACHINE;
    MachineState { state: 0, regs }
}

/// An event on a line, of a message with these identifiers, from a host that loses an election or not.
fn event(kind: PeerKind, line: u64, hop_by_hop: u64, end_to_end: u64, wins: u64) -> Event {
    let mut facts = [0; PLACES];
    facts[peer_fact::LINE] = line;
    facts[peer_fact::HOP_BY_HOP] = hop_by_hop;
    facts[peer_fact::END_TO_END] = end_to_end;
    facts[peer_fact::LOCAL_WINS] = wins;
    Event {
        kind: kind.place(),
        facts,
    }
}

/// Start, the connection is open, a CER comes on another, and the election is won.
fn events() -> [Event; 4] {
    [
        event(PeerKind::Start, 0, 0, 0, 0),
        event(PeerKind::IRcvConnAck, 5, 0, 0, 0),
        event(PeerKind::RConnCer, 6, 0x70, 0x71, 1),
        event(PeerKind::WinElection, 0, 0, 0, 0),
    ]
}

/// A deed's code and its first five arguments.
type Told = (u16, [u64; 5]);

/// The states after the events, and the deeds of each.
const WAIT_CONN_ACK: (u8, &[Told]) = (1, &[(6, [MACHINE, 1, 0, 0, 0]), (8, [1, 30, 0, 0, 0])]);

const WAIT_I_CEA: (u8, &[Told]) = (3, &[(10, [0, 5, MACHINE, 1, 0])]);

const WAIT_RETURNS: (u8, &[Told]) = (6, &[(16, [1, 6, 0, 0, 0])]);

const R_OPEN: (u8, &[Told]) = (
    2,
    &[
        (5, [0, 5, 0, 0, 0]),
        (11, [0, 6, 0x70, 0x71, 2001]),
        (9, [0, 0, 0, 0, 0]),
    ],
);

fn is_told(deed: &Deed, told: &Told) -> bool {
    let (code, arguments) = told;
    deed.code == *code && deed.a.iter().zip(arguments).all(|(a, b)| a == b)
}

fn is_step_to(stepped: &Stepped, wanted: (u8, &[Told])) -> bool {
    let (state, told) = wanted;
    let deeds = stepped.deeds.as_slice();
    stepped.after.state == state
        && deeds.len() == told.len()
        && deeds
            .iter()
            .zip(told)
            .all(|(deed, told)| is_told(deed, told))
}

/// Whether these are the four steps.
fn are_steps(steps: &[Stepped]) -> bool {
    match steps {
        [first, second, third, last] => {
            is_step_to(first, WAIT_CONN_ACK)
                && is_step_to(second, WAIT_I_CEA)
                && is_step_to(third, WAIT_RETURNS)
                && is_step_to(last, R_OPEN)
        }
        _ => false,
    }
}

/// Whether the machine goes through these states and does these deeds.
pub fn wins_the_election(alloc: Global, registry: &Registry) -> bool {
    let Some(bound) = bound_to(alloc, registry.laws()) else {
        return false;
    };
    match run(alloc, &bound, registry, &start(), &events()) {
        Ok(steps) => are_steps(steps.as_slice()),
        Err(_) => false,
    }
}
