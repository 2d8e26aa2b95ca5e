//! Values under names.

ghost use Rattle.std.specs.Prelude.{◌≡◌, ◌<◌, ◌++◌, ◌∷◌, [], Some, None, OnOk, OnErr, IfErr, IfSome};
ghost use Rattle.std.specs.Prelude.{length, take, ◌==◌};
ghost use Rattle.std.specs.List.{slice_get};

use crate::error::{AddError, AddFault};
use crate::octets::Octets;
use std::alloc::Global;
use std::marker::Model;

/// A value under its name, which is any octets; case counts.
#[derive(Drop)]
pub struct Named<T> {
    pub name: Octets,
    pub value: T,
}

/// A refused call, with what it was handed.
#[derive(Drop)]
pub struct Refused<T> {
    pub error: AddError,
    pub back: T,
}

impl<T: Drop> From<Refused<T>> for AddError {
    ghost from_gives = { λ refused error. error ≡ refused.error };

    fn from(refused: Refused<T>) -> AddError {
        refused.error
    }
}

/// Values under names of their own, numbered from 0 in order of adding. Only the last ones are ever taken out, so a
/// place stays that of its name. Looking for a name takes time in proportion to the list:
/// it is for lists that are made once.
#[derive(Drop)]
pub struct NamedList<T> {
    alloc: Global,
    entries: Vec<Named<T>>,
}

impl<T> Model for NamedList<T> {
    ghost use Rattle.std.specs.Prelude.{List};
    ghost use Rattle.base_list.specs.declared.named.Named.{Named};

    ghost Value = { List (Named T) };

    ghost view = { λ l. l.entries.items };
}

impl<T: Drop> NamedList<T> {
    ghost use Rattle.base_list.specs.Named.{place_of, refusal};
    ghost use Rattle.base_list.specs.Adding.{error_of};
    ghost use Rattle.base_list.specs.declared.named.Named.{Named};

    /// A list without values. Takes no memory.
    pub fn new(alloc: Global) -> NamedList<T>
        ensures { result ≡ [] }
    {
        NamedList {
            alloc,
            entries: Vec::new(alloc),
        }
    }

    /// How many values there are.
    pub fn len(&self) -> usize
        ensures { result ≡ length self.now }
    {
        self.entries.len()
    }

    /// Whether there is none.
    pub fn is_empty(&self) -> bool
        ensures { result ≡ (length self.now == 0) }
    {
        self.entries.is_empty()
    }

    /// The place of a name.
    pub fn find(&self, name: &[u8]) -> Option<usize>
        ensures place { result ≡ place_of name.now self.now }
        ensures within { IfSome result (λ i. i < length self.now) }
    {
        self.entries
            .iter()
            .position(|entry| entry.name.as_slice() == name)
    }

    /// The name and the value at a place.
    pub fn at(&self, place: usize) -> &Named<T>
        requires { place < length self.now }
        ensures { slice_get self.now place ≡ Some result.now }
    {
        &self.entries[place]
    }

    /// The values with their names, in order.
    pub fn as_slice(&self) -> &[Named<T>]
        ensures { result.now ≡ self.now }
    {
        self.entries.as_slice()
    }

    /// Keeps the first values, as many as `len`, and drops those behind them. Takes no memory.
    pub fn truncate(&mut self, len: usize)
        ensures { self.new ≡ take len self.old }
    {
        self.entries.truncate(len);
    }

    /// Why a name may not be added, memory aside.
    pub fn refusal(&self, limit: usize, name: &[u8]) -> Option<AddFault>
        ensures { result ≡ refusal limit name.now self.now }
    {
        if self.find(name).is_some() {
            return Some(AddFault::Taken);
        }
        if limit <= self.entries.len() {
            return Some(AddFault::Full);
        }
        None
    }

    /// Adds a value at the end, under a name that isn't there, or hands it back. `limit` is how many values the list
    /// may have.
    pub fn add(&mut self, limit: usize, name: &[u8], value: T) -> Result<(), Refused<T>>
        ensures ok { OnOk result (self.new ≡ self.old ++ record { name = name.now; value = value } ∷ []) }
        ensures free { OnOk result (refusal limit name.now self.old ≡ None) }
        ensures fault { IfErr result (λ r. r.error ≡ error_of (refusal limit name.now self.old)) }
        ensures back { IfErr result (λ r. r.back ≡ value) }
        ensures err { OnErr result (self.new ≡ self.old) }
    {
        if let Some(fault) = self.refusal(limit, name) {
            let error = AddError::Fault(fault);
            return Err(Refused { error, back: value });
        }
        let error = AddError::NoMemory;
        let Ok(name) = Octets::from_slice(self.alloc, name) else {
            return Err(Refused { error, back: value });
        };
        match self.entries.push(Named { name, value }) {
            Ok(()) => Ok(()),
            Err(failed) => {
                let Named { name: _, value } = failed.value;
                Err(Refused { error, back: value })
            }
        }
    }
}
