//! The directory.
ghost use Rattle.std.specs.Prelude.{◌≡◌, ◌-◌, ◌<◌, ◌≤◌, ◌↔◌, ◌++◌, ◌∷◌, [], length, take, slice_get, option_copied};
ghost use Rattle.std.specs.Prelude.{Contains, IsTrue, IfSome, IfOk, OnOk, OnErr, IfErr, IsErrOf, IsSome, ◌⊎◌};
ghost use Rattle.std.specs.Option.{IfNone};
ghost use Rattle.sess_dir.specs.Names.{place_of, NoNameTwice};

use base_list::{AddError, AddFault};
use indexmap::IndexSet;
use std::alloc::Global;
use std::marker::Model;

/// The most names that a directory has.
pub const MAX_NAMES: usize = 4096;

/// Names, which are octet strings, in the order in which they were added. Each has its place, from 0, and keeps it.
/// Look-ups go by a hash of the name, so their time does not grow with the directory.
#[derive(Drop)]
pub struct Directory {
    names: IndexSet<Vec<u8>>,
}

impl Model for Directory {
    ghost use Rattle.std.specs.Prelude.{List, ℕ, ◌≤◌, length};
    ghost use Rattle.sess_dir.specs.declared.directory.TheConstants.{MAX_NAMES};
    ghost use Rattle.sess_dir.specs.Names.{octets_of};

    ghost Value = { List (List ℕ) };

    ghost view = { λ d. octets_of d.names.keys };

    ghost invariant = { λ d. length d.names.keys ≤ MAX_NAMES };
}

impl Directory {
    /// A directory with no names. Takes no memory until the first is added.
    pub fn new(alloc: Global) -> Directory
        ensures { result ≡ [] }
    {
        Directory {
            names: IndexSet::new(alloc),
        }
    }

    /// The number of names.
    pub fn len(&self) -> usize
        ensures len { result ≡ length self.now }
        ensures within { result ≤ MAX_NAMES }
        ensures once { NoNameTwice self.now }
    {
        self.names.len()
    }

    /// Whether there are no names.
    pub fn is_empty(&self) -> bool
        ensures { IsTrue result ↔ (length self.now ≡ 0) }
    {
        self.names.is_empty()
    }

    /// The place of a name. Takes no memory.
    pub fn find(&self, name: &[u8]) -> Option<usize>
        ensures place { result ≡ place_of self.now name.now }
        ensures found { IfSome result (λ place. slice_get self.now place ≡ Some name.now) }
        ensures absent { IfNone result (Contains self.now name.now → ⊥) }
    {
        self.names.get_index_of(name)
    }

    /// The place of a name, which is added at the end where it is not there yet.
    pub fn find_or_add(&mut self, name: &[u8]) -> Result<usize, AddError>
        ensures ok { IfOk result (λ place. place_of self.new name.now ≡ Some place) }

        // A name that is there keeps its place, and nothing is added or refused.
        ensures known { IfSome (place_of self.old name.now) (λ place. result ≡ Ok place) }
        ensures kept { IsSome (place_of self.old name.now) → self.new ≡ self.old }

        // A new one goes last.
        ensures added { place_of self.old name.now ≡ None →
            IfOk result (λ place. (place ≡ length self.old) × (self.new ≡ self.old ++ name.now ∷ [])) }

        // It is refused where there is no room, and else only where memory runs out: it is never taken.
        ensures full { IsErrOf result (AddError.Fault AddFault.Full)
            ↔ ((place_of self.old name.now ≡ None) × (MAX_NAMES ≤ length self.old)) }
        ensures fault { IfErr result (λ e. (e ≡ AddError.Fault AddFault.Full) ⊎ (e ≡ AddError.NoMemory)) }
        ensures err { OnErr result (self.new ≡ self.old) }
    {
        if let Some(place) = self.find(name) {
            return Ok(place);
        }
        let place = self.len();
        if place >= MAX_NAMES {
            return Err(AddError::Fault(AddFault::Full));
        }
        self.add(name)?;
        Ok(place)
    }

    // Adds a new name at the end.
    fn add(&mut self, name: &[u8]) -> Result<(), AddError>
        requires new { place_of self.old name.now ≡ None }
        requires room { length self.old < MAX_NAMES }
        ensures ok { OnOk result (self.new ≡ self.old ++ name.now ∷ []) }
        ensures place { OnOk result (place_of self.new name.now ≡ Some (length self.old)) }
        ensures err { OnErr result (self.new ≡ self.old) }
        ensures fault { IfErr result (λ e. e ≡ AddError.NoMemory) }
    {
        let copy = Vec::from_slice(*self.names.allocator(), name)?;
        self.names.insert(copy)?;
        Ok(())
    }

    /// The name at a place. Takes no memory.
    pub fn name(&self, place: usize) -> Option<&[u8]>
        ensures { option_copied result ≡ slice_get self.now place }
    {
        let stored = self.names.get_index(place)?;
        Some(stored.as_slice())
    }

    /// Drops the name that was added last. Takes no memory.
    pub fn drop_last(&mut self)
        requires { 0 < length self.old }
        ensures { self.new ≡ take (length self.old - 1) self.old }
    {
        let _ = self.names.pop();
    }
}
