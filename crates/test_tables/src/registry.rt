//! Registries: names that are taken, and no room for more.

ghost use Rattle.std.specs.Prelude.{◌<◌};

use base_list::{AddError, AddFault};
use std::alloc::{AllocError, Global};
use tab_call::{Ask, Do, Registry, StoredAct, StoredGuard};
use tab_law::{
    ActLaw, Acted, GuardLaw, MAX_ACTIONS, MAX_GUARDS, MAX_KINDS, Scene, high_into, holds,
};

/// The name of a number below 130: two small letters.
fn numbered(number: u8) -> [u8; 2]
    requires { number < 130 }
{
    [b'a' + number / 26, b'a' + number % 26]
}

/// Adds as many kinds as a registry may have.
fn fill_kinds(registry: &mut Registry) -> Result<(), AddError> {
    for number in 0..MAX_KINDS as u8 {
        registry.add_kind(&numbered(number))?;
    }
    Ok(())
}

/// Whether a kind whose name is taken is refused for that, and a new one since the registry is full.
fn refuses_kinds(registry: &mut Registry) -> bool {
    fill_kinds(registry) == Ok(())
        && registry.add_kind(b"aa") == Err(AddError::Fault(AddFault::Taken))
        && registry.add_kind(b"CCA-I") == Err(AddError::Fault(AddFault::Full))
        && registry.laws().kinds().len() == MAX_KINDS
}

/// The numbers of the guards, or of the actions, that are refused:
/// the last whose name is taken, and the last without room.
type Refusals = (u8, u8);

/// The refusals with one more.
fn noted(refusals: Refusals, number: u8, error: AddError) -> Refusals {
    match error {
        AddError::Fault(AddFault::Taken) => (number, refusals.1),
        AddError::Fault(AddFault::Full) => (refusals.0, number),
        AddError::NoMemory => refusals,
    }
}

/// The first name comes again as number 64, where there is no room either.
fn name_of(number: u8) -> [u8; 2]
    requires { number < 130 }
{
    numbered(if number == 64 { 0 } else { number })
}

/// Adds a guard of that number. The refusals, with its own if it is refused.
fn add_guard(
    registry: &mut Registry,
    stored: StoredGuard,
    number: u8,
    refusals: Refusals,
) -> Refusals
    requires { number < 130 }
{
    match registry.add_guard(&name_of(number), stored) {
        Ok(()) => refusals,
        Err(refused) => noted(refusals, number, refused.error),
    }
}

/// The same of an action.
fn add_act(registry: &mut Registry, stored: StoredAct, number: u8, refusals: Refusals) -> Refusals
    requires { number < 130 }
{
    match registry.add_act(&name_of(number), stored) {
        Ok(()) => refusals,
        Err(refused) => noted(refusals, number, refused.error),
    }
}

/// The refusals of guards, and how many there are in the end.
fn guard_refusals(alloc: Global) -> Result<(Refusals, usize), AllocError> {
    let law = GuardLaw::new(Vec::new(alloc));
    let mut registry = Registry::new(alloc);
    let mut refusals = (0, 0);
    for number in 0..MAX_GUARDS as u8 + 2 {
        let own = law.copy(alloc)?;
        let ask: Ask = Box::new(alloc, move |scene: &Scene| holds(&own, scene))?;
        let stored = StoredGuard::new(law.copy(alloc)?, ask);
        refusals = add_guard(&mut registry, stored, number, refusals);
    }
    Ok((refusals, registry.laws().guards().len()))
}

/// The same of actions.
fn act_refusals(alloc: Global) -> Result<(Refusals, usize), AllocError> {
    let law = ActLaw::new(Vec::new(alloc));
    let mut registry = Registry::new(alloc);
    let mut refusals = (0, 0);
    for number in 0..MAX_ACTIONS as u8 + 2 {
        let own = law.copy(alloc)?;
        let act: Do = Box::new(alloc, move |scene: &Scene, room: &mut Acted| {
            high_into(&own, scene, room);
        })?;
        let stored = StoredAct::new(law.copy(alloc)?, act);
        refusals = add_act(&mut registry, stored, number, refusals);
    }
    Ok((refusals, registry.laws().acts().len()))
}

#[test]
fn a_name_is_taken_before_the_registry_is_full(rt: HostRuntime) {
    let mut registry = Registry::new(rt.alloc());
    assert!(rt; refuses_kinds(&mut registry), "kinds");
    assert!(rt;
        guard_refusals(rt.alloc()) == Ok(((64, 65), MAX_GUARDS)),
        "guards"
    );
    assert!(rt;
        act_refusals(rt.alloc()) == Ok(((64, 65), MAX_ACTIONS)),
        "actions"
    );
}
