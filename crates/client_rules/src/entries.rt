//! The guards and the actions of a client's machine as data, a line each.

use ActionStep::{Do, KeepServices, Next, Send, Set};
use Atom::{Constant, Fact, NewRegister, Register};
use Check::{Either, Equal};
use Services::{OfEvent, OfEventUnwanted};
use base_codes::DeedCode;
use tab_law::{Atom, Field};
use tab_role::{ActEntry, ActionStep, Check, GuardEntry, Services, kept, told};

/// The number of the request that is sent.
const NEXT_NUMBER: Atom = NewRegister(kept::NUMBER);

/// CC-Request-Type (RFC 8506 section 8.3).
const INITIAL: Atom = Constant(1);

const UPDATE: Atom = Constant(2);

const TERMINATION: Atom = Constant(3);

const EVENT: Atom = Constant(4);

/// The class of a Credit-Control-Request.
const REQUEST: Atom = Constant(1);

const NONE: Atom = Constant(0);

const ONE: Atom = Constant(1);

/// Ticks after which an answer is no longer waited for: Tx (RFC 8506 section 13).
const TX: Atom = Constant(10);

/// An action: its name and what it does.
macro_rules! act {
    ($name:expr => $($step:expr),*) => {
        ($name, &[$($step),*])
    };
}

/// An action that opens a session of this type with its first request,
/// whose arguments behind the wanted units are these.
macro_rules! open {
    ($name:expr, $type:expr => $($more:expr),*) => {
        ($name, &[
            Set(kept::ACCOUNT, Fact(told::ACCOUNT)),
            Next(kept::NUMBER),
            Set(kept::UNIT, Fact(told::UNIT)),
            Set(kept::FAILURE_HANDLING, Fact(told::FAILURE_HANDLING)),
            Set(kept::TYPE, $type),
            Set(kept::PEER, Fact(told::PEER)),
            Send(
                DeedCode::ToPeer,
                &[Fact(told::PEER), NONE, Register(kept::MACHINE), NONE, REQUEST, $type, NEXT_NUMBER,
                    Fact(told::ACCOUNT), NONE, Fact(told::WANT), $($more),*],
                OfEvent,
            ),
        ])
    };
}

/// An action that sends a later request of this type.
macro_rules! ask {
    ($name:expr, $type:expr, $want:expr, $services:expr) => {
        ($name, &[
            Next(kept::NUMBER),
            Set(kept::TYPE, $type),
            Send(
                DeedCode::ToPeer,
                &[Register(kept::PEER), NONE, Register(kept::MACHINE), NONE, REQUEST, $type, NEXT_NUMBER,
                    Register(kept::ACCOUNT), Fact(told::USED), $want, Register(kept::UNIT)],
                $services,
            ),
        ])
    };
}

/// An action that tells the service: 1 granted, 2 ended.
macro_rules! tell {
    ($name:expr, $told:expr) => {
        ($name, &[Set(kept::SERVICE, $told), Do(DeedCode::Service, &[$told])])
    };
}

/// The guards, in the order of their first appearance in the table.
pub(crate) const GUARDS: [GuardEntry; 7] = [
    (
        "mine",
        Equal(Field::Fact(told::NUMBER), Register(kept::NUMBER)),
    ),
    ("success", Equal(Field::Fact(told::RESULT), Constant(2001))),
    (
        "inapplicable",
        Equal(Field::Fact(told::RESULT), Constant(4011)),
    ),
    ("denied", Either(Field::Fact(told::RESULT), 4010, 5030)),
    ("go-on", Equal(Field::Register(kept::FAILURE_HANDLING), ONE)),
    (
        "cut-off",
        Equal(Field::Register(kept::FAILURE_HANDLING), NONE),
    ),
    ("barred", Equal(Field::Fact(told::RESULT), Constant(4010))),
];

/// The actions, in the order of their first appearance in the table.
pub(crate) const ACTS: [ActEntry; 9] = [
    open!("Snd-CCR-I", INITIAL => Fact(told::UNIT)),
    act!("Start-Tx" => Next(kept::TIMER), Do(DeedCode::Arm, &[NewRegister(kept::TIMER), TX])),
    open!("Snd-CCR-E", EVENT => Fact(told::UNIT), Fact(told::ACTION_OR_CHECK)),
    act!("Take-Grant" => Set(kept::RESULT, Fact(told::RESULT)), Set(kept::GRANTED, Fact(told::GRANTED)),
        Set(kept::FINAL, Fact(told::FINAL)), Set(kept::CHECK, Fact(told::ACTION_OR_CHECK)), KeepServices),
    act!("Stop-Tx" => Next(kept::TIMER), Do(DeedCode::Disarm, &[])),
    tell!("Grant-Service", ONE),
    tell!("End-Service", Constant(2)),
    ask!("Snd-CCR-U", UPDATE, Fact(told::WANT), OfEvent),
    ask!("Snd-CCR-T", TERMINATION, NONE, OfEventUnwanted),
];
