//! The numbers of 64 places, most of which are zero.
ghost use Rattle.std.specs.Prelude.{◌≡◌, ◌≤◌, ◌-◌, ◌+◌, ◌↔◌, IfOk, IsOk, IsTrue, drop, replicate, take};
ghost use Rattle.tab_law.specs.declared.limits.TheConstants.{PLACES};
ghost use Rattle.tab_kept.specs.Coded.{decoded};
ghost use Rattle.tab_kept.specs.Padded.{padded};
ghost use Rattle.tab_kept.specs.Trimmed.{octets_for, trimmed};

use crate::code::{next, octets_of};
use base_list::Octets;
use std::alloc::{AllocError, Global};
use std::marker::Model;
use tab_law::PLACES;

/// The registers of a machine, the facts of an event or the arguments of a deed. Zeros at the end take no room, and
/// each number before them takes as few octets as it needs. A contract sees all 64 numbers.
pub struct Places {
    octets: Octets,
    // So many numbers are kept.
    count: u8,
}

// A derived `drop` is proved anew at each way out of each function that holds places; this one is a call.
impl Drop for Places {
    fn drop(self) {
        let Places { octets, count: _ } = self;
    }
}

impl Model for Places {
    ghost use Rattle.std.specs.Prelude.{List, ℕ, ◌≤◌};
    ghost use Rattle.tab_law.specs.declared.limits.TheConstants.{PLACES};
    ghost use Rattle.tab_kept.specs.Coded.{decoded};
    ghost use Rattle.tab_kept.specs.Padded.{padded};

    ghost Value = { List ℕ };

    ghost view = { λ p. padded (decoded p.count p.octets) };

    ghost invariant = { λ p. p.count ≤ PLACES };
}

/// Whether the eight numbers from a place on are zero.
fn are_eight_zeros(places: &[u64; PLACES], from: usize) -> bool
    requires { from + 8 ≤ PLACES }
    ensures { IsTrue result ↔ (take 8 (drop from places.now) ≡ replicate 8 0) }
{
    (places[from]
        | places[from + 1]
        | places[from + 2]
        | places[from + 3]
        | places[from + 4]
        | places[from + 5]
        | places[from + 6]
        | places[from + 7])
        == 0
}

/// How many numbers stand before the zeros at the end.
fn used(places: &[u64; PLACES]) -> usize
    ensures within { result ≤ PLACES }
    ensures zeros { drop result places.now ≡ replicate (PLACES - result) 0 }
    ensures least { trimmed places.now ≡ take result places.now }
{
    let mut count = PLACES;
    // Most arrays have many: they are looked at by eight.
    'eights: while count >= 8 && are_eight_zeros(places, count - 8) {
        count -= 8;
    }
    'zeros: while count > 0 && places[count - 1] == 0 {
        count -= 1;
    }
    count
}

/// The first `count` numbers of octets, and zeros at all other places.
fn decode(count: usize, octets: &[u8]) -> [u64; PLACES]
    requires { count ≤ PLACES }
    ensures { result ≡ padded (decoded count octets.now) }
{
    let mut places = [0; PLACES];
    let mut rest = octets;
    for place in 0..count {
        let (number, others) = next(rest);
        places[place] = number;
        rest = others;
    }
    places
}

impl Places {
    /// Zeros at all places. Takes no memory.
    pub fn zeros(alloc: Global) -> Places
        ensures { result ≡ replicate PLACES 0 }
    {
        Places {
            octets: Octets::new(Vec::new(alloc)),
            count: 0,
        }
    }

    /// Keeps these numbers. Where they take up to 32 octets, they take no memory.
    #[tactic(auto, unfolding(crate::specs::Trimmed::octets_for))]
    pub fn keep(alloc: Global, places: &[u64; PLACES]) -> Result<Places, AllocError>
        ensures kept { IfOk result (λ kept. kept ≡ places.now) }
        ensures short { octets_for places.now ≤ 32 → IsOk result }
    {
        let count = used(places);
        let octets = octets_of(alloc, &places[..count])?;
        Ok(Places {
            octets,
            count: count as u8,
        })
    }

    /// The numbers that are kept. Takes no memory.
    pub fn show(&self) -> [u64; PLACES]
        ensures { result ≡ self.now }
    {
        decode(usize::from(self.count), self.octets.as_slice())
    }

    /// The same numbers in memory of their own.
    pub fn copy(&self, alloc: Global) -> Result<Places, AllocError>
        ensures { IfOk result (λ copy. copy ≡ self.now) }
    {
        Ok(Places {
            octets: self.octets.copy(alloc)?,
            count: self.count,
        })
    }
}
