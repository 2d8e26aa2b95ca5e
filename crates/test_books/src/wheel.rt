//! The timers: what is due, in which order, and what an owner has.
use std::alloc::Global;
use tick_wheel::{Armed, Firing, Wheel};

/// Due moment, owner and generation of a timer that fires.
type Fired = (u64, u64, u64);

/// Generation and due moment of an owner's timer.
type Timer = Option<(u64, u64)>;

/// A call of the wheel, and what it answers.
enum Call {
    /// An owner is armed, with a generation and so many ticks.
    Arm(u64, u64, u64),
    /// An owner is disarmed.
    Disarm(u64),
    /// At a moment these fire.
    Advance(u64, &'static [Fired]),
    /// An owner has this timer.
    Has(u64, Timer),
    /// An owner has a place, or has none.
    HasPlace(u64, bool),
    /// An owner, who has a place, gets this timer back.
    Restore(u64, Timer),
    /// So many are due at a moment.
    DueAt(u64, usize),
    /// The moment is this.
    IsAt(u64),
}

/// What is tested, and the calls that show it on a new wheel.
const CASES: &[(&str, &[Call])] = &[
    (
        "due timers fire by moment and then owner",
        &[
            Call::Arm(5, 1, 10),
            Call::Arm(3, 1, 10),
            Call::Arm(9, 1, 7),
            Call::Disarm(9),
            Call::DueAt(9, 0),
            Call::DueAt(10, 2),
            Call::Advance(9, &[]),
            Call::Advance(10, &[(10, 3, 1), (10, 5, 1)]),
            Call::DueAt(u64::MAX, 0),
            Call::Has(3, None),
            Call::Advance(11, &[]),
        ],
    ),
    (
        "an owner has its last timer alone",
        &[
            Call::Arm(7, 1, 10),
            Call::Arm(7, 2, 20),
            Call::Advance(15, &[]),
            Call::Advance(20, &[(20, 7, 2)]),
            Call::Advance(5, &[]),
            Call::IsAt(20),
            Call::Arm(8, 1, 1),
            Call::Has(8, Some((1, 21))),
        ],
    ),
    (
        "no timer is due after the last moment",
        &[
            Call::Advance(18_446_744_073_709_551_614, &[]),
            Call::Arm(1, 1, 10),
            Call::Has(1, Some((1, 18_446_744_073_709_551_615))),
            Call::Advance(
                18_446_744_073_709_551_615,
                &[(18_446_744_073_709_551_615, 1, 1)],
            ),
        ],
    ),
    (
        "an owner gets back the timer that it had",
        &[
            Call::Arm(4, 1, 30),
            Call::Has(4, Some((1, 30))),
            Call::Arm(4, 2, 50),
            Call::HasPlace(4, true),
            Call::HasPlace(5, false),
            Call::Restore(4, Some((1, 30))),
            Call::Has(4, Some((1, 30))),
            Call::Advance(30, &[(30, 4, 1)]),
            Call::HasPlace(4, true),
            Call::Restore(4, None),
            Call::Has(4, None),
        ],
    ),
    (
        "the largest owners are armed",
        &[
            Call::Arm(65_535, 1, 3),
            Call::Arm(u64::MAX, u64::MAX, 3),
            Call::Arm(0, 0, 4),
            Call::DueAt(3, 2),
            Call::DueAt(4, 3),
            Call::Advance(3, &[(3, 65_535, 1), (3, u64::MAX, u64::MAX)]),
            Call::Advance(4, &[(4, 0, 0)]),
        ],
    ),
    (
        "a first arm is undone",
        &[
            Call::Has(65_535, None),
            Call::Arm(65_535, 1, 30),
            Call::HasPlace(65_535, true),
            Call::Restore(65_535, None),
            Call::Has(65_535, None),
            Call::DueAt(30, 0),
            Call::Advance(30, &[]),
        ],
    ),
];

fn armed_of(timer: Timer) -> Option<Armed> {
    let (generation, due) = timer?;
    Some(Armed { generation, due })
}

/// Whether these fire at a moment.
fn fires(wheel: &mut Wheel, moment: u64, rows: &[Fired]) -> bool {
    let Ok(fired) = wheel.advance(moment) else {
        return false;
    };
    let mut all = fired.len() == rows.len();
    for (firing, row) in fired.iter().zip(rows) {
        let (due, owner, generation) = *row;
        all = all
            && *firing
                == Firing {
                    due,
                    owner,
                    generation,
                };
    }
    all
}

/// Whether an owner has a place, and now this timer.
fn restores(wheel: &mut Wheel, owner: u64, timer: Timer) -> bool {
    if !wheel.has_place(owner) {
        return false;
    }
    wheel.restore(owner, armed_of(timer));
    true
}

fn disarms(wheel: &mut Wheel, owner: u64) -> bool {
    wheel.disarm(owner);
    true
}

/// Whether a call answers so.
fn answers(wheel: &mut Wheel, call: &Call) -> bool {
    match call {
        Call::Arm(owner, generation, ticks) => wheel.arm(*owner, *generation, *ticks).is_ok(),
        Call::Disarm(owner) => disarms(wheel, *owner),
        Call::Advance(moment, rows) => fires(wheel, *moment, rows),
        Call::Has(owner, timer) => wheel.armed(*owner) == armed_of(*timer),
        Call::HasPlace(owner, answer) => wheel.has_place(*owner) == *answer,
        Call::Restore(owner, timer) => restores(wheel, *owner, *timer),
        Call::DueAt(moment, count) => wheel.due_at(*moment) == *count,
        Call::IsAt(moment) => wheel.moment() == *moment,
    }
}

/// How many calls answer so on a new wheel, before the first that does not.
fn answered(alloc: Global, calls: &[Call]) -> usize {
    let mut wheel = Wheel::new(alloc);
    for (place, call) in calls.iter().enumerate() {
        if !answers(&mut wheel, call) {
            return place;
        }
    }
    calls.len()
}

#[test]
fn timers_fire_when_they_are_due(rt: HostRuntime) {
    for (name, calls) in CASES {
        let place = answered(rt.alloc(), calls);
        assert!(rt; place == calls.len(), "{name}: call {place}");
    }
}
