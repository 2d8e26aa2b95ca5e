//! A machine comes to a shard, or stands elsewhere; and that is taken back.
ghost use Rattle.std.specs.Prelude.{◌≡◌, ◌<◌, ◌++◌, ◌∷◌, [], None, IsSome, IfOk, OnOk, OnErr, length, set};
ghost use Rattle.sess_dir.specs.Names.{place_of};
ghost use Rattle.sess_dir.specs.declared.directory.TheConstants.{MAX_NAMES};
ghost use Rattle.bench_shard.specs.Names.{key_octets};
ghost use Rattle.bench_shard.specs.Settling.{IsStood, names_left, settled_names, settled_states};
ghost use Rattle.bench_shard.specs.Settling.{states_left, unsettled_names, unsettled_states};

use crate::name::key_octets;
use crate::seek::find;
use bench_item::Key;
use bench_log::KeptState;
use sess_dir::Directory;
use std::alloc::{AllocError, Global};
use std::mem;

/// What became of a shard's machines, for it to be taken back.
#[derive(Drop)]
pub enum Settled {
    Untouched,
    /// A machine came, behind the others.
    Came,
    /// The machine at a place stood so before.
    Stood { place: usize, state: KeptState },
}

/// A name that is not there goes last.
fn add_name(names: &mut Directory, octets: &[u8]) -> Result<(), AllocError>
    requires absent { place_of names.old octets.now ≡ None }
    requires room { length names.old < MAX_NAMES }
    ensures ok { OnOk result (names.new ≡ names.old ++ octets.now ∷ []) }
    ensures err { OnErr result (names.new ≡ names.old) }
{
    match names.find_or_add(octets) {
        Ok(_) => Ok(()),
        Err(_) => Err(AllocError),
    }
}

/// The machine at a place stands so.
fn stand(states: &mut Vec<KeptState>, place: usize, state: KeptState) -> Settled
    requires { place < length states.old.items }
    ensures states { states.new.items ≡ set states.old.items place state }
    ensures settled { IsStood result place }
    ensures undone { unsettled_states result states.new.items ≡ states.old.items }
{
    let before = mem::replace(&mut states[place], state);
    Settled::Stood {
        place,
        state: before,
    }
}

/// A machine comes behind the others.
pub(crate) fn come(
    names: &mut Directory,
    states: &mut Vec<KeptState>,
    octets: &[u8],
    state: KeptState,
) -> Result<(), AllocError>
    requires absent { place_of names.old octets.now ≡ None }
    requires room { length names.old < MAX_NAMES }
    ensures ok { OnOk result ((names.new ≡ names.old ++ octets.now ∷ [])
        × (states.new.items ≡ states.old.items ++ state ∷ [])) }
    ensures err { OnErr result ((names.new ≡ names.old) × (states.new.items ≡ states.old.items)) }
{
    states.reserve(1)?;
    add_name(names, octets)?;
    states.push(state).unwrap();
    Ok(())
}

/// The machine stands so, in its place or behind the others.
fn settle(
    alloc: Global,
    names: &mut Directory,
    states: &mut Vec<KeptState>,
    key: &Key,
    state: KeptState,
) -> Result<Settled, AllocError>
    requires each { length states.old.items ≡ length names.old }
    requires room { place_of names.old (key_octets key.now) ≡ None → length names.old < MAX_NAMES }
    ensures names { OnOk result (names.new ≡ settled_names names.old key.now) }
    ensures states { OnOk result (states.new.items ≡ settled_states names.old states.old.items key.now state) }
    ensures undone { IfOk result (λ settled. (unsettled_names settled names.new ≡ names.old)
        × (unsettled_states settled states.new.items ≡ states.old.items)) }
    ensures each { length states.new.items ≡ length names.new }
    ensures err { OnErr result ((names.new ≡ names.old) × (states.new.items ≡ states.old.items)) }
{
    match find(alloc, names, key)? {
        Some(place) => Ok(stand(states, place, state)),
        None => {
            let octets = key_octets(alloc, key)?;
            come(names, states, &octets, state)?;
            Ok(Settled::Came)
        }
    }
}

/// The machine stands so, in its place or behind the others; or all stays.
pub(crate) fn settle_left(
    alloc: Global,
    names: &mut Directory,
    states: &mut Vec<KeptState>,
    key: &Key,
    left: Option<KeptState>,
) -> Result<Settled, AllocError>
    requires each { length states.old.items ≡ length names.old }
    requires room { IsSome left → place_of names.old (key_octets key.now) ≡ None → length names.old < MAX_NAMES }
    ensures names { OnOk result (names.new ≡ names_left names.old key.now left) }
    ensures states { OnOk result (states.new.items ≡ states_left names.old states.old.items key.now left) }
    ensures undone { IfOk result (λ settled. (unsettled_names settled names.new ≡ names.old)
        × (unsettled_states settled states.new.items ≡ states.old.items)) }
    ensures each { length states.new.items ≡ length names.new }
    ensures err { OnErr result ((names.new ≡ names.old) × (states.new.items ≡ states.old.items)) }
{
    match left {
        None => Ok(Settled::Untouched),
        Some(state) => settle(alloc, names, states, key, state),
    }
}

/// The machines are as they were before.
pub(crate) fn unsettle(names: &mut Directory, states: &mut Vec<KeptState>, settled: Settled)
    requires each { length states.old.items ≡ length names.old }
    ensures names { names.new ≡ unsettled_names settled names.old }
    ensures states { states.new.items ≡ unsettled_states settled states.old.items }
    ensures each { length states.new.items ≡ length names.new }
{
    match settled {
        Settled::Untouched => {}
        Settled::Came => {
            if !names.is_empty() {
                names.drop_last();
            }
            let len = states.len().saturating_sub(1);
            states.truncate(len);
        }
        Settled::Stood { place, state } => {
            if place < states.len() {
                states[place] = state;
            }
        }
    }
}
