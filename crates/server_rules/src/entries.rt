//! The guards and the actions of a server's machine as data, a line each.

use ActionStep::{Do, DoWhere, Next, Pick, Send, Set};
use Atom::{Constant, Fact, NewRegister, Register};
use Check::{AtLeast, Below, Differing, Equal};
use base_codes::{DeedCode, slot};
use tab_law::{Atom, Field};
use tab_role::{ActEntry, ActionStep, Check, GuardEntry, Services, kept, told};

/// Result-Codes: success, limit reached, unknown session, unable to comply, rating failed.
const SUCCESS: Atom = Constant(2001);

const LIMIT_REACHED: Atom = Constant(4012);

const UNKNOWN_SESSION: Atom = Constant(5002);

const UNABLE: Atom = Constant(5012);

const UNKNOWN_USER: Atom = Constant(5030);

const RATING_FAILED: Atom = Constant(5031);

const NONE: Atom = Constant(0);

const ONE: Atom = Constant(1);

/// The class of a Credit-Control-Answer.
const ANSWER: Atom = Constant(2);

/// Ticks after which a session without a request ends: Tcc (RFC 8506 section 13).
const TCC: Atom = Constant(600);

/// Where the slots of services begin, in facts and registers alike.
const SLOT_1: u8 = slot::FIRST as u8;

const SLOT_2: u8 = (slot::FIRST + slot::SIZE) as u8;

const SLOT_3: u8 = (slot::FIRST + 2 * slot::SIZE) as u8;

const SLOT_4: u8 = (slot::FIRST + 3 * slot::SIZE) as u8;

const SLOT_UNIT: u8 = slot::UNIT as u8;

const SLOT_RESULT: u8 = slot::RESULT_CODE as u8;

const SLOT_GRANTED: u8 = slot::GRANTED as u8;

const SLOT_FINAL: u8 = slot::FINAL as u8;

/// An action: its name and what it does.
macro_rules! act {
    ($name:expr => $($step:expr),*) => {
        ($name, &[$($step),*])
    };
}

/// An action that keeps the request's number and type and this result, clears what was granted, and does more.
/// Of a register that is set twice the last change counts.
macro_rules! keep {
    ($name:expr, $result:expr => $($more:expr),*) => {
        ($name, &[
            Set(kept::NUMBER, Fact(told::NUMBER)),
            Set(kept::RESULT, $result),
            Set(kept::GRANTED, NONE),
            Set(kept::UNIT, NONE),
            Set(kept::FINAL, NONE),
            Set(kept::CHECK, NONE),
            Set(kept::TYPE, Fact(told::TYPE)),
            Set(kept::SERVICES, NONE),
            $($more),*
        ])
    };
}

/// A register becomes the fact of the same place.
macro_rules! same {
    ($place:expr) => {
        Set($place, Fact($place))
    };
}

/// The used units of the slot that begins there are paid, where it has a service.
macro_rules! pay {
    ($slot:expr) => {
        DoWhere(
            Fact($slot),
            DeedCode::Debit,
            &[Fact($slot + slot::USED as u8), Fact($slot)],
        )
    };
}

/// An action that serves the slot that begins there: it pays what was used and reserves what is granted, where it has a
/// service.
macro_rules! serve {
    ($name:expr, $slot:expr) => {
        ($name, &[
            same!($slot),
            same!($slot + SLOT_UNIT),
            same!($slot + SLOT_RESULT),
            same!($slot + SLOT_FINAL),
            Pick($slot + SLOT_GRANTED, ONE, Fact($slot + SLOT_GRANTED)),
            pay!($slot),
            DoWhere(
                Fact($slot),
                DeedCode::Reserve,
                &[NewRegister($slot + SLOT_GRANTED), Fact($slot)],
            ),
        ])
    };
}

/// An answer that refuses a request and keeps nothing of it.
macro_rules! refuse {
    ($result:expr) => {
        Do(DeedCode::ToPeer, &[
            Fact(told::PEER), Fact(told::LINE), Fact(told::HOP_BY_HOP), Fact(told::END_TO_END), ANSWER,
            Fact(told::TYPE), Fact(told::NUMBER), NONE, NONE, NONE, NONE, NONE, $result,
        ])
    };
}

/// The answer that the machine keeps, with its services.
const ANSWER_KEPT: ActionStep = Send(
    DeedCode::ToPeer,
    &[
        Fact(told::PEER),
        Fact(told::LINE),
        Fact(told::HOP_BY_HOP),
        Fact(told::END_TO_END),
        ANSWER,
        Register(kept::TYPE),
        Register(kept::NUMBER),
        NONE,
        NONE,
        NONE,
        Register(kept::UNIT),
        Register(kept::CHECK),
        Register(kept::RESULT),
        Register(kept::GRANTED),
        Register(kept::FINAL),
    ],
    Services::OfMachine,
);

/// The timer's new generation is armed.
const ARM: ActionStep = Do(DeedCode::Arm, &[NewRegister(kept::TIMER), TCC]);

/// The guards, in the order of their first appearance in the table.
pub(crate) const GUARDS: [GuardEntry; 10] = [
    (
        "repeat",
        Equal(Field::Fact(told::NUMBER), Register(kept::NUMBER)),
    ),
    (
        "old",
        Below(Field::Fact(told::NUMBER), Register(kept::NUMBER)),
    ),
    ("grouped", AtLeast(Field::Fact(told::SERVICES), ONE)),
    ("enough", Equal(Field::Fact(told::RESULT), SUCCESS)),
    ("direct", Equal(Field::Fact(told::ACTION_OR_CHECK), ONE)),
    (
        "whole",
        AtLeast(Field::Fact(told::GRANTED), Fact(told::WANT)),
    ),
    (
        "refund",
        Equal(Field::Fact(told::ACTION_OR_CHECK), Constant(2)),
    ),
    ("known", Differing(Field::Fact(told::RESULT), UNKNOWN_USER)),
    (
        "check",
        Equal(Field::Fact(told::ACTION_OR_CHECK), Constant(3)),
    ),
    (
        "price",
        Equal(Field::Fact(told::ACTION_OR_CHECK), Constant(4)),
    ),
];

/// The actions, in the order of their first appearance in the table.
pub(crate) const ACTS: [ActEntry; 24] = [
    act!("Snd-CCA" => ANSWER_KEPT),
    act!("Snd-5012" => refuse!(UNABLE)),
    act!("Open-Account" => Set(kept::ACCOUNT, Fact(told::ACCOUNT))),
    serve!("Serve-1", SLOT_1),
    serve!("Serve-2", SLOT_2),
    serve!("Serve-3", SLOT_3),
    serve!("Serve-4", SLOT_4),
    keep!("Keep-Groups", SUCCESS => Set(kept::SERVICES, Fact(told::SERVICES))),
    act!("Start-Tcc" => Next(kept::TIMER), ARM),
    keep!("Reserve", SUCCESS => Pick(kept::GRANTED, ONE, Fact(told::GRANTED)), Set(kept::UNIT, Fact(told::UNIT)),
        Set(kept::FINAL, Fact(told::FINAL)), Do(DeedCode::Reserve, &[NewRegister(kept::GRANTED)])),
    keep!("Keep-Refusal", Fact(told::RESULT) =>),
    act!("Snd-5002" => refuse!(UNKNOWN_SESSION)),
    keep!("Charge", SUCCESS => Set(kept::GRANTED, Fact(told::WANT)), Set(kept::UNIT, Fact(told::UNIT)),
        Do(DeedCode::Charge, &[Fact(told::WANT)])),
    keep!("Keep-4012", LIMIT_REACHED =>),
    keep!("Refund", SUCCESS => Do(DeedCode::Refund, &[Fact(told::WANT)])),
    keep!("Check-Yes", SUCCESS => Set(kept::CHECK, ONE)),
    keep!("Check-No", SUCCESS => Set(kept::CHECK, Constant(2))),
    keep!("Keep-5031", RATING_FAILED =>),
    act!("Pay-Groups" => pay!(SLOT_1), pay!(SLOT_2), pay!(SLOT_3), pay!(SLOT_4)),
    act!("Release" => Do(DeedCode::Release, &[])),
    act!("Stop-Tcc" => Next(kept::TIMER), Do(DeedCode::Disarm, &[])),
    act!("Close" => Set(kept::ACCOUNT, NONE)),
    act!("Debit" => Do(DeedCode::Debit, &[Fact(told::USED)])),
    keep!("Keep-Success", SUCCESS =>),
];
