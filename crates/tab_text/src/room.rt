//! Room for the names of a table, without memory.
ghost use Rattle.std.specs.Prelude.{◌≡◌, ◌≤◌, [], nat_le, true, length, map, IfOk};
ghost use Rattle.std.specs.Bool.{OnTrue};
ghost use Rattle.tab_text.specs.Rows.{place_of, numbered};
ghost use Rattle.tab_text.specs.Faults.{has_room};
ghost use Rattle.tab_text.specs.declared.limits.TheConstants.{MAX_ROW_ACTIONS, MAX_KINDS};

use crate::cells::{Name, RowNames};
use crate::limits::{MAX_ACTIONS, MAX_GUARDS, MAX_KINDS, MAX_ROW_ACTIONS, MAX_STATES};
use crate::name::NameList;
use crate::row::{Places, Row};
use base_list::{FixedList, Octets};
use std::alloc::{AllocError, Global};

/// Names in order of first appearance.
#[derive(Drop)]
pub(crate) struct Room {
    names: FixedList<Name, MAX_KINDS>,
}

impl Room {
    ghost use Rattle.tab_text.specs.Reading.{octets_in};
    ghost use Rattle.tab_text.specs.Rooms.{names_in, with_name, with_names};

    pub(crate) fn new() -> Room
        ensures { names_in result ≡ [] }
    {
        Room {
            names: FixedList::new(),
        }
    }

    /// The number of a name, or how many names there are.
    fn place(&self, name: &Name) -> usize
        ensures value { result ≡ place_of (names_in self.now) (octets_in name.now) }
        ensures within { result ≤ MAX_KINDS }
    {
        for (place, other) in self.names.as_slice().iter().enumerate() {
            if other.as_slice() == name.as_slice() {
                return place;
            }
        }
        self.names.len()
    }

    /// Adds a name that isn't there yet, and says whether there is room for it.
    fn add(&mut self, limit: usize, name: Name) -> bool
        requires limit { limit ≤ MAX_KINDS }
        requires room { length (names_in self.old) ≤ limit }
        ensures room { result ≡ nat_le (length (with_name (names_in self.old) (octets_in name))) limit }
        ensures added { OnTrue result (names_in self.new ≡ with_name (names_in self.old) (octets_in name)) }
    {
        if self.place(&name) < self.names.len() {
            return true;
        }
        if self.names.len() == limit {
            return false;
        }
        self.names.push(name);
        true
    }

    /// Adds names likewise.
    fn add_all(&mut self, limit: usize, names: &[Name]) -> bool
        requires limit { limit ≤ MAX_KINDS }
        requires room { length (names_in self.old) ≤ limit }
        ensures room { result ≡ nat_le (length (with_names (names_in self.old) (map octets_in names.now))) limit }
        ensures added { OnTrue result (names_in self.new ≡ with_names (names_in self.old) (map octets_in names.now)) }
    {
        for name in names {
            if !self.add(limit, *name) {
                return false;
            }
        }
        true
    }

    /// The numbers of names.
    fn places(&self, names: &[Name]) -> Places
        requires { length names.now ≤ MAX_ROW_ACTIONS }
        ensures { result ≡ map (place_of (names_in self.now)) (map octets_in names.now) }
    {
        let mut places = Places::new();
        for name in names {
            places.push(self.place(name) as u8);
        }
        places
    }

    /// The names in memory of their own.
    pub(crate) fn copied(&self, alloc: Global) -> Result<NameList, AllocError>
        ensures { IfOk result (λ names. names ≡ names_in self.now) }
    {
        let mut names = Vec::new(alloc);
        for name in self.names.as_slice() {
            names.push(Octets::from_slice(alloc, name.as_slice())?)?;
        }
        Ok(NameList::new(names))
    }
}

/// The names of the rows so far.
pub(crate) struct Rooms {
    pub(crate) states: Room,
    pub(crate) kinds: Room,
    pub(crate) guards: Room,
    pub(crate) actions: Room,
}

// By hand: a derived `drop` is proved anew, field by field, at each way out of each function that holds it.
impl Drop for Rooms {
    fn drop(self) {
        let Rooms {
            states,
            kinds,
            guards,
            actions,
        } = self;
    }
}

impl Rooms {
    ghost use Rattle.tab_text.specs.Reading.{named};
    ghost use Rattle.tab_text.specs.Rooms.{rooms_names, with_row};

    pub(crate) fn new() -> Rooms
        ensures { rooms_names result ≡ record { states = []; kinds = []; guards = []; actions = [] } }
    {
        Rooms {
            states: Room::new(),
            kinds: Room::new(),
            guards: Room::new(),
            actions: Room::new(),
        }
    }

    /// Adds a row's names, and says whether there is room for them.
    pub(crate) fn add(&mut self, row: &RowNames) -> bool
        requires { has_room (rooms_names self.old) ≡ true }
        ensures room { result ≡ has_room (with_row (rooms_names self.old) (named row.now)) }
        ensures added { OnTrue result (rooms_names self.new ≡ with_row (rooms_names self.old) (named row.now)) }
    {
        if !self.states.add_all(MAX_STATES, &[row.state, row.next]) {
            return false;
        }
        if !self.kinds.add(MAX_KINDS, row.kind) {
            return false;
        }
        if !self.guards.add_all(MAX_GUARDS, row.guards.as_slice()) {
            return false;
        }
        self.actions.add_all(MAX_ACTIONS, row.actions.as_slice())
    }

    /// A row with its names given by their numbers.
    pub(crate) fn numbered(&self, row: &RowNames) -> Row
        ensures { result ≡ numbered (rooms_names self.now) (named row.now) }
    {
        Row {
            state: self.states.place(&row.state) as u8,
            kind: self.kinds.place(&row.kind) as u8,
            guards: self.guards.places(row.guards.as_slice()),
            actions: self.actions.places(row.actions.as_slice()),
            next: self.states.place(&row.next) as u8,
        }
    }
}
