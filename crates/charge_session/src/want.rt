//! From an event and the machine that it is for to what is asked of the account book.

ghost use Rattle.std.specs.Prelude.{◌≡◌, ◌≤◌, ◌<◌, slice_index};
ghost use Rattle.charge_session.specs.Wants.{account_of, service, asked_by, needs};

use acct_totals::Slot;
use base_codes::{session_fact, session_register, slot};
use server_rules::ServerKind;
use tab_law::PLACES;
use tab_step::{Event, MachineState};

/// What a request used and wants.
#[derive(Clone, Copy, PartialEq, Eq)]
pub enum ServiceUnits {
    /// One service: that of a request without Multiple-Services-Credit-Control, whose group is 0.
    One(Slot),
    /// Several services, by slot (RFC 8506 section 8.16); none where a slot has no service.
    Several([Option<Slot>; slot::MAX_SLOTS]),
}

/// What is asked of the account book: the quote that the facts of a server's event tell,
/// and the account and the session that its deeds are booked on.
#[derive(Clone, Copy, PartialEq, Eq)]
pub struct Want {
    /// The account, 0 for none.
    pub account: u64,
    /// The number of the session's machine.
    pub session: u64,
    pub asked: ServiceUnits,
}

/// The number at a place.
fn at(places: &[u64; PLACES], n: usize) -> u64
    requires { n < PLACES }
    ensures { result ≡ slice_index places.now n }
{
    places[n]
}

/// The account that the machine keeps, else that of the message.
fn account_of(facts: &[u64; PLACES], regs: &[u64; PLACES]) -> u64
    ensures { result ≡ account_of facts.now regs.now }
{
    match at(regs, session_register::ACCOUNT) {
        0 => at(facts, session_fact::ACCOUNT),
        account => account,
    }
}

/// The service of the slot that begins at a place.
fn service(facts: &[u64; PLACES], first: usize) -> Option<Slot>
    requires { first ≤ 41 }
    ensures { result ≡ service facts.now first }
{
    let group = at(facts, first + slot::GROUP);
    if group == 0 {
        return None;
    }
    Some(Slot {
        group,
        used: at(facts, first + slot::USED),
        want: at(facts, first + slot::WANT),
    })
}

/// What a request asks, and what a timer does.
fn asked_by(kind: ServerKind, facts: &[u64; PLACES]) -> ServiceUnits
    ensures { result ≡ asked_by kind facts.now }
{
    if kind == ServerKind::Tcc {
        return ServiceUnits::One(Slot {
            group: 0,
            used: 0,
            want: 0,
        });
    }
    if at(facts, session_fact::SERVICES) == 0 {
        return ServiceUnits::One(Slot {
            group: 0,
            used: at(facts, session_fact::USED),
            want: at(facts, session_fact::WANT),
        });
    }
    ServiceUnits::Several([
        service(facts, slot::FIRST),
        service(facts, slot::FIRST + slot::SIZE),
        service(facts, slot::FIRST + 2 * slot::SIZE),
        service(facts, slot::FIRST + 3 * slot::SIZE),
    ])
}

/// What a session of a credit-control server asks of the account book where this event is to be handled (RFC
/// 8506 sections 5.1.2 to 5.4 and 6). The event's kind is its place in the laws of a server; none for any
/// other number. Takes no memory.
pub fn needs(event: &Event, state: &MachineState) -> Option<Want>
    ensures { result ≡ needs event.now state.now }
{
    let kind = ServerKind::at(event.kind)?;
    Some(Want {
        account: account_of(&event.facts, &state.regs),
        session: at(&state.regs, session_register::MACHINE),
        asked: asked_by(kind, &event.facts),
    })
}
