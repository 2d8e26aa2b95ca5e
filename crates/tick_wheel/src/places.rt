//! The owners' places, as the wheel keeps them: an owner that was armed once has one for good.
ghost use Rattle.std.specs.Prelude.{◌≡◌, ◌≢◌, [], IfOk, OnErr, nat_eq, true, length, IsPermutation, AllPairs};
ghost use Rattle.std.specs.Map.{set_value};
ghost use Rattle.indexmap.specs.IndexMap.{IsUnique};
ghost use Rattle.tick_wheel.specs.Places.{bound_with, firing_of, firings_of, later_due, next_due};
ghost use Rattle.tick_wheel.specs.Places.{places_at, left_at, NotAfter};
ghost use Rattle.tick_wheel.specs.Timers.{is_due};

use crate::{Armed, Firing};
use indexmap::IndexMap;
use std::alloc::{AllocError, Global};

/// Each owner with its timer, if one is armed.
pub(crate) type Places = IndexMap<u64, Option<Armed>>;

/// What a look at the places finds.
#[derive(Drop)]
pub(crate) struct Seen {
    /// The timers that are due, in the order of the places.
    pub(crate) due: Vec<Firing>,
    /// The least due moment of the others.
    pub(crate) earliest: u64,
}

/// Whether a timer is armed and due.
fn is_due(timer: Option<Armed>, now: u64) -> bool
    ensures { result ≡ is_due now timer }
{
    match timer {
        Some(timer) => timer.due <= now,
        None => false,
    }
}

/// The firing of a place whose timer is due.
fn firing_of(owner: u64, timer: Option<Armed>, now: u64) -> Option<Firing>
    ensures { result ≡ firing_of now (owner, timer) }
{
    let Armed { generation, due } = timer?;
    if due <= now {
        Some(Firing {
            due,
            owner,
            generation,
        })
    } else {
        None
    }
}

/// The due moment of a timer that is armed and not due yet, and else the last moment.
fn later_due(timer: Option<Armed>, now: u64) -> u64
    ensures { result ≡ later_due now timer }
{
    match timer {
        Some(timer) if now < timer.due => timer.due,
        _ => u64::MAX,
    }
}

/// The bound on due moments, once this timer is armed too.
pub(crate) fn bound_with(earliest: u64, timer: Option<Armed>) -> u64
    ensures { result ≡ bound_with earliest timer }
{
    match timer {
        Some(timer) => earliest.min(timer.due),
        None => earliest,
    }
}

/// Looks through all places.
pub(crate) fn look(alloc: Global, places: &Places, now: u64) -> Result<Seen, AllocError>
    ensures due { IfOk result (λ seen. seen.due.items ≡ firings_of now places.now.entries) }
    ensures earliest { IfOk result (λ seen. seen.earliest ≡ next_due now places.now.entries) }
    ensures err { OnErr result (firings_of now places.now.entries ≢ []) }
    ensures unique { IsUnique nat_eq places.now }
{
    let mut due = Vec::new(alloc);
    let mut earliest = u64::MAX;
    for (owner, timer) in places {
        earliest = earliest.min(later_due(*timer, now));
        if let Some(firing) = firing_of(*owner, *timer, now) {
            due.push(firing)?;
        }
    }
    Ok(Seen { due, earliest })
}

/// How many timers are due.
pub(crate) fn count_due(places: &Places, now: u64) -> usize
    ensures count { result ≡ length (firings_of now places.now.entries) }
    ensures unique { IsUnique nat_eq places.now }
{
    let mut count = 0;
    for (owner, timer) in places {
        if firing_of(*owner, *timer, now).is_some() {
            count += 1;
        }
    }
    count
}

/// Gives a place this timer, or none. Without a place of the owner nothing changes.
pub(crate) fn put(places: &mut Places, owner: u64, timer: Option<Armed>)
    ensures { places.new.entries ≡ set_value (nat_eq owner) places.old.entries timer }
{
    if let Some(place) = places.get_mut(&owner) {
        *place = timer;
    }
}

/// Disarms each timer that is due.
pub(crate) fn disarm_due(places: &mut Places, now: u64)
    ensures { places.new.entries ≡ places_at now places.old.entries }
{
    places.retain(
        |_owner: &u64, timer: &mut Option<Armed>| -> bool
            ensures { (result ≡ true) × (timer.new ≡ left_at now timer.old) }
        {
            if is_due(*timer, now) {
                *timer = None;
            }
            true
        },
    );
}

/// Sorts firings by due moment and then owner.
pub(crate) fn sort(firings: &mut Vec<Firing>)
    ensures same { IsPermutation firings.old.items firings.new.items }
    ensures ordered { AllPairs NotAfter firings.new.items }
{
    firings.sort_unstable();
}
