//! Roles and their callbacks in a registry: each refusal, and what stands behind what was there.

use base_list::AddError;
use peer_rules::{peer_laws, register_peer};
use std::alloc::Global;
use std::test::Fail;
use tab_call::{Calls, Do, Registry, StoredAct};
use tab_law::{ActLaw, Acted, Scene, high_into};
use tab_role::RegisterError;

/// A callback that answers by its law.
macro_rules! stored {
    ($alloc:expr, $law:expr) => {{
        let own = $law.copy($alloc)?;
        let act: Do = Box::new($alloc, move |scene: &Scene, room: &mut Acted| {
            high_into(&own, scene, room);
        })?;
        StoredAct::new($law.copy($alloc)?, act)
    }};
}

/// What is tried: how many kinds and actions were there, how many callbacks come, whether the first two are swapped,
/// and how often the role is registered.
type Attempt = (u8, u8, usize, bool, u8);

/// What the last call answers, how many kinds, guards and actions there are then,
/// and the place of the role's first action.
type Outcome = (
    Result<(), RegisterError>,
    (usize, usize, usize),
    Option<usize>,
);

/// What is seen of a registry.
fn seen(registry: &Registry) -> ((usize, usize, usize), Option<usize>) {
    let book = registry.laws();
    let sizes = (book.kinds().len(), book.guards().len(), book.acts().len());
    (sizes, book.acts().find(b"I-Snd-Conn-Req"))
}

/// The place of the law with which a callback is stored: its own, or that of the other of the first two.
/// Behind the last law comes the first.
fn place_of(place: usize, swapped: bool) -> usize {
    match place {
        0 if swapped => 1,
        1 if swapped => 0,
        _ => place % 23,
    }
}

fn outcome(alloc: Global, attempt: Attempt) -> Result<Outcome, AddError> {
    let (kinds, fillers, count, swapped, times) = attempt;
    let laws = peer_laws(alloc)?;
    let nothing = ActLaw::new(Vec::new(alloc));
    let mut registry = Registry::new(alloc);
    for number in 0..kinds {
        registry.add_kind(&[b'k', number])?;
    }
    for number in 0..fillers {
        registry.add_act(&[b'a', number], stored!(alloc, &nothing))?;
    }
    let mut result = Ok(());
    for _ in 0..times {
        let mut acts = Vec::new(alloc);
        for place in 0..count {
            if let Some(entry) = laws.acts().as_slice().get(place_of(place, swapped)) {
                acts.push(stored!(alloc, &entry.value))?;
            }
        }
        let guards = Vec::new(alloc);
        result = register_peer(alloc, &mut registry, Calls { guards, acts });
    }
    let (sizes, place) = seen(&registry);
    Ok((result, sizes, place))
}

#[test]
fn callbacks_of_other_laws_are_refused(rt: HostRuntime) -> Result<(), Fail> {
    for attempt in [
        (1, 1, 0, false, 1),
        (1, 1, 22, false, 1),
        (1, 1, 23, true, 1),
        (1, 1, 24, false, 1),
    ] {
        assert!(rt; outcome(rt.alloc(), attempt)? == (Err(RegisterError::Laws), (1, 0, 1), None));
    }
    Ok(())
}

#[test]
fn a_role_stands_behind_what_was_there(rt: HostRuntime) -> Result<(), Fail> {
    assert!(rt; outcome(rt.alloc(), (0, 0, 23, false, 1))? == (Ok(()), (22, 0, 23), Some(0)));
    assert!(rt; outcome(rt.alloc(), (106, 41, 23, false, 1))? == (Ok(()), (128, 0, 64), Some(41)));
    Ok(())
}

#[test]
fn a_role_is_taken_once_and_full_behind_its_limits(rt: HostRuntime) -> Result<(), Fail> {
    let taken = Err(RegisterError::Taken);
    let full = Err(RegisterError::Full);
    assert!(rt; outcome(rt.alloc(), (2, 3, 23, false, 2))? == (taken, (24, 0, 26), Some(3)));
    assert!(rt; outcome(rt.alloc(), (107, 0, 23, false, 1))? == (full, (107, 0, 0), None));
    assert!(rt; outcome(rt.alloc(), (0, 42, 23, false, 1))? == (full, (0, 0, 42), None));
    Ok(())
}
