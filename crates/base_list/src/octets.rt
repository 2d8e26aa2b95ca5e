//! The octets of a value: up to 32 in itself, more in memory.
ghost use Rattle.std.specs.Prelude.{◌≡◌, ◌==◌, ◌≤◌, length, IsOk, IfOk};

use smallvec::SmallVec;
use std::alloc::{AllocError, Global};
use std::marker::Model;

/// How many octets a value keeps in itself; more take memory.
const INLINE: usize = 32;

/// The octets of a value. A contract sees them as the list of their numbers.
#[derive(Debug)]
pub struct Octets {
    octets: SmallVec<u8, INLINE>,
}

// A derived `drop` is proved anew in each crate that holds octets; this one is a call.
impl Drop for Octets {
    fn drop(self) {
        let Octets { octets } = self;
    }
}

impl Model for Octets {
    ghost use Rattle.std.specs.Prelude.{List, ℕ};

    ghost Value = { List ℕ };

    ghost view = { λ o. o.octets.items };
}

impl Octets {
    /// The octets that a vector holds. Takes no memory.
    pub fn new(octets: Vec<u8>) -> Octets
        ensures { result ≡ octets.items }
    {
        Octets {
            octets: SmallVec::from_vec(octets),
        }
    }

    /// A copy of a slice. Up to 32 octets take no memory.
    pub fn from_slice(alloc: Global, octets: &[u8]) -> Result<Octets, AllocError>
        ensures copy { IfOk result (λ o. o ≡ octets.now) }
        ensures short { length octets.now ≤ 32 → IsOk result }
    {
        Ok(Octets {
            octets: SmallVec::from_slice(alloc, octets)?,
        })
    }

    /// The octets.
    pub fn as_slice(&self) -> &[u8]
        ensures { result.now ≡ self.now }
    {
        self.octets.as_slice()
    }

    /// How many octets there are.
    pub fn len(&self) -> usize
        ensures { result ≡ length self.now }
    {
        self.octets.len()
    }

    /// Whether there is none.
    pub fn is_empty(&self) -> bool
        ensures { result ≡ (length self.now == 0) }
    {
        self.octets.is_empty()
    }

    /// The same octets in memory of their own.
    pub fn copy(&self, alloc: Global) -> Result<Octets, AllocError>
        ensures copy { IfOk result (λ o. o ≡ self.now) }
        ensures short { length self.now ≤ 32 → IsOk result }
    {
        Octets::from_slice(alloc, self.as_slice())
    }
}
