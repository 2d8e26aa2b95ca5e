//! What a server's events ask of the account book.

use acct_totals::Slot;
use charge_session::{ServiceUnits, Want, needs};
use server_rules::ServerKind;
use tab_law::PLACES;
use tab_step::{Event, MachineState};

/// A machine of number 9 that keeps an account, and an event, with these facts.
fn wants(kind: u8, account: u64, told: &[(usize, u64)]) -> Option<Want> {
    let mut regs = [0; PLACES];
    regs[0] = account;
    regs[14] = 9;
    let mut facts = [0; PLACES];
    for (place, value) in told {
        if *place < PLACES {
            facts[*place] = *value;
        }
    }
    needs(&Event { kind, facts }, &MachineState { state: 0, regs })
}

fn one(account: u64, used: u64, want: u64) -> Option<Want> {
    let slot = Slot {
        group: 0,
        used,
        want,
    };
    Some(Want {
        account,
        session: 9,
        asked: ServiceUnits::One(slot),
    })
}

const SERVICES: &[(usize, u64)] = &[
    (7, 100),
    (8, 1),
    (9, 2),
    (16, 3),
    (17, 3),
    (18, 80),
    (19, 10),
    (33, 1),
    (35, 5),
    (41, 4294967297),
    (42, 18446744073709551615),
];

/// Whether a kind of events asks for its account, or that of its machine.
fn asks(kind: ServerKind) -> bool {
    let told = [(7, 100), (8, 50), (9, 60)];
    wants(kind.place(), 0, &told) == one(100, 50, 60)
        && wants(kind.place(), 7, &told) == one(7, 50, 60)
        && wants(kind.place(), 0, &[]) == one(0, 0, 0)
}

#[test]
fn each_kind_of_a_server_asks(rt: HostRuntime) {
    assert!(rt; asks(ServerKind::Initial) && asks(ServerKind::Update));
    assert!(rt; asks(ServerKind::Terminate) && asks(ServerKind::Event));
    let told = [(7, 100), (8, 50), (9, 60)];
    assert!(rt; wants(ServerKind::Tcc.place(), 7, &told) == one(7, 0, 0));
    assert!(rt; wants(5, 7, &told).is_none() && wants(255, 7, &told).is_none());
}

#[test]
fn services_ask_slot_by_slot(rt: HostRuntime) {
    let slot = |group, used, want| Some(Slot { group, used, want });
    let asked = [
        slot(3, 80, 10),
        None,
        slot(1, 0, 5),
        slot(4294967297, 18446744073709551615, 0),
    ];
    let wanted = Want {
        account: 100,
        session: 9,
        asked: ServiceUnits::Several(asked),
    };
    assert!(rt; wants(ServerKind::Update.place(), 0, SERVICES) == Some(wanted));
}
