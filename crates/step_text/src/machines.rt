//! Which machine has which number.
ghost use Rattle.std.specs.Prelude.{◌≡◌, ◌++◌, ◌∷◌, [], None, OnOk, OnErr, IfErr};
ghost use Rattle.base_list.specs.Adding.{error_of};
ghost use Rattle.base_list.specs.Named.{place_of, refusal};
ghost use Rattle.step_text.specs.Names.{key_name};

use crate::name::{is_key_name, key_name};
use base_list::{AddError, AddFault, Named, NamedList};
use bench_item::{Key, MAX_MACHINES, MAX_SHARDS};
use std::alloc::Global;
use std::marker::Model;

/// The most machines of a node.
const MAX_NUMBERED: usize = MAX_SHARDS * MAX_MACHINES;

/// The machines' numbers by their keys. A contract sees them as a list under the keys' names, `p:`,
/// `c:` or `s:` and the machine's name.
///
/// In: `add`. Looks: `known`.
pub struct Machines {
    alloc: Global,
    pub(crate) numbers: NamedList<u64>,
}

impl Drop for Machines {
    fn drop(self) {
        let Machines { alloc: _, numbers } = self;
    }
}

impl Model for Machines {
    ghost use Rattle.std.specs.Prelude.{ℕ, List};
    ghost use Rattle.base_list.specs.declared.named.Named.{Named};
    ghost use Rattle.step_text.specs.Names.{AreMachines};

    ghost Value = { List (Named ℕ) };

    ghost view = { λ m. m.numbers };

    ghost invariant = { λ m. AreMachines m.numbers };
}

/// The place of a key. Takes no memory.
fn place_of(numbers: &[Named<u64>], key: &Key) -> Option<usize>
    ensures { result ≡ place_of (key_name key.now) numbers.now }
{
    numbers
        .iter()
        .position(|entry| is_key_name(entry.name.as_slice(), key))
}

impl Machines {
    ghost use Rattle.step_text.specs.Names.{AreMachines};

    /// No machines. Takes no memory.
    pub fn new(alloc: Global) -> Machines
        ensures { result ≡ [] }
    {
        Machines {
            alloc,
            numbers: NamedList::new(alloc),
        }
    }

    /// Tells a proof in another crate that no two machines have one key.
    pub fn known(&self)
        ensures { AreMachines self.now }
    {
        let _numbers = &self.numbers;
    }

    /// Adds a machine under its key, which no other has.
    pub fn add(&mut self, key: &Key, number: u64) -> Result<(), AddError>
        ensures ok { OnOk result (self.new ≡ self.old ++ record { name = key_name key.now; value = number } ∷ []) }
        ensures free { OnOk result (refusal MAX_NUMBERED (key_name key.now) self.old ≡ None) }
        ensures fault { IfErr result (λ e. e ≡ error_of (refusal MAX_NUMBERED (key_name key.now) self.old)) }
        ensures err { OnErr result (self.new ≡ self.old) }
    {
        if place_of(self.numbers.as_slice(), key).is_some() {
            return Err(AddError::Fault(AddFault::Taken));
        }
        if MAX_NUMBERED <= self.numbers.len() {
            return Err(AddError::Fault(AddFault::Full));
        }
        let Ok(name) = key_name(self.alloc, key) else {
            return Err(AddError::NoMemory);
        };
        match self.numbers.add(MAX_NUMBERED, &name, number) {
            Ok(()) => Ok(()),
            Err(refused) => Err(refused.error),
        }
    }
}
