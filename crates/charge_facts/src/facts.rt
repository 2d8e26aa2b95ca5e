//! Facts by name, and at which place each stands.

ghost use Rattle.std.specs.Prelude.{◌≡◌, ◌≤◌, ◌+◌, ◌++◌, replicate};
ghost use Rattle.base_codes.specs.declared.slot.TheConstants.{SIZE};
ghost use Rattle.tab_law.specs.declared.limits.TheConstants.{PLACES};
ghost use Rattle.charge_facts.specs.Places.{message_places, with_slot, places_of};
ghost use Rattle.charge_facts.specs.Requests.{no_units, group_number, no_slot};

use base_codes::{session_fact, slot};
use tab_law::PLACES;

/// Units that are used and that are asked for, of a unit: 1 seconds, 2 octets, 3 service specific units, 0 none.
#[derive(Clone, Copy)]
pub(crate) struct Units {
    pub used: u64,
    pub want: u64,
    pub unit: u64,
}

/// What a message says of one service of several.
#[derive(Clone, Copy)]
pub(crate) struct Slot {
    pub group: u64,
    pub used: u64,
    pub want: u64,
    pub unit: u64,
    pub result: u64,
    pub granted: u64,
    pub last: u64,
}

/// What a message says.
#[derive(Clone, Copy)]
pub(crate) struct Facts {
    pub hop_by_hop: u64,
    pub end_to_end: u64,
    pub class: u64,
    pub request_type: u64,
    pub request_number: u64,
    pub account: u64,
    pub used: u64,
    pub want: u64,
    pub unit: u64,
    pub action_or_check: u64,
    pub result: u64,
    pub granted: u64,
    pub last: u64,
    pub services: u64,
    pub slot_1: Slot,
    pub slot_2: Slot,
    pub slot_3: Slot,
    pub slot_4: Slot,
}

impl Units {
    /// None.
    pub(crate) fn none() -> Units
        ensures { result ≡ no_units }
    {
        Units {
            used: 0,
            want: 0,
            unit: 0,
        }
    }
}

impl Slot {
    /// The slot of no service.
    pub(crate) fn empty() -> Slot
        ensures { result ≡ no_slot }
    {
        Slot {
            group: 0,
            used: 0,
            want: 0,
            unit: 0,
            result: 0,
            granted: 0,
            last: 0,
        }
    }
}

/// The group of a service with this Rating-Group.
pub(crate) fn group_number(rating: Option<u32>) -> u64
    ensures { result ≡ group_number rating }
{
    match rating {
        Some(number) => u64::from(number) + 2,
        None => 1,
    }
}

fn put_slot(places: &mut [u64; PLACES], first: usize, slot: &Slot)
    requires { first + SIZE ≤ PLACES }
    ensures { places.new ≡ with_slot places.old first slot.now }
{
    places[first + slot::GROUP] = slot.group;
    places[first + slot::USED] = slot.used;
    places[first + slot::WANT] = slot.want;
    places[first + slot::UNIT] = slot.unit;
    places[first + slot::RESULT_CODE] = slot.result;
    places[first + slot::GRANTED] = slot.granted;
    places[first + slot::FINAL] = slot.last;
}

impl Facts {
    fn put(&self, places: &mut [u64; PLACES])
        requires { places.old ≡ replicate PLACES 0 }
        ensures { places.new ≡ message_places self.now ++ replicate 47 0 }
    {
        places[session_fact::HOP_BY_HOP] = self.hop_by_hop;
        places[session_fact::END_TO_END] = self.end_to_end;
        places[session_fact::CLASS] = self.class;
        places[session_fact::REQUEST_TYPE] = self.request_type;
        places[session_fact::REQUEST_NUMBER] = self.request_number;
        places[session_fact::ACCOUNT] = self.account;
        places[session_fact::USED] = self.used;
        places[session_fact::WANT] = self.want;
        places[session_fact::UNIT] = self.unit;
        places[session_fact::ACTION_OR_CHECK] = self.action_or_check;
        places[session_fact::RESULT_CODE] = self.result;
        places[session_fact::GRANTED] = self.granted;
        places[session_fact::FINAL] = self.last;
        places[session_fact::SERVICES] = self.services;
    }

    /// Each at its place.
    pub(crate) fn places(&self) -> [u64; PLACES]
        ensures { result ≡ places_of self.now }
    {
        let mut places = [0; PLACES];
        self.put(&mut places);
        put_slot(&mut places, slot::FIRST, &self.slot_1);
        put_slot(&mut places, slot::FIRST + slot::SIZE, &self.slot_2);
        put_slot(&mut places, slot::FIRST + 2 * slot::SIZE, &self.slot_3);
        put_slot(&mut places, slot::FIRST + 3 * slot::SIZE, &self.slot_4);
        places
    }
}
