//! The callbacks of benches, by the laws of all roles, and the case that is tried with them.

use crate::case::{Case, judge_parts, run_case};
use role_tables::all_laws;
use std::alloc::Global;
use std::sync::Wait;
use std::test::Fail;
use std::thread::Threads;
use std::time::Clock;
use tab_call::{Ask, Calls, Do, Registry, StoredAct, StoredGuard};
use tab_law::{Acted, Scene, high_into, holds};
use tab_role::TakesRoles;

/// Tries a case with as many registries as it wants, of callbacks that answer by the laws of all roles.
pub fn tried<R: Threads + Wait + Clock + Copy + Drop + Send + Sync + 'static>(
    rt: &R,
    alloc: Global,
    case: Case,
) -> Result<(), Fail> {
    let laws = all_laws(alloc)?;
    let mut registries = Vec::new(alloc);
    for _shard in 0..case.registries() {
        let mut guards = Vec::new(alloc);
        for entry in laws.guards().as_slice() {
            let own = entry.value.copy(alloc)?;
            let ask: Ask = Box::new(alloc, move |scene: &Scene| holds(&own, scene))?;
            guards.push(StoredGuard::new(entry.value.copy(alloc)?, ask))?;
        }
        let mut acts = Vec::new(alloc);
        for entry in laws.acts().as_slice() {
            let own = entry.value.copy(alloc)?;
            let act: Do = Box::new(alloc, move |scene: &Scene, room: &mut Acted| {
                high_into(&own, scene, room);
            })?;
            acts.push(StoredAct::new(entry.value.copy(alloc)?, act))?;
        }
        let mut registry = Registry::new(alloc);
        registry.register(&laws, Calls { guards, acts })?;
        registries.push(registry)?;
    }
    let parts = run_case(rt, alloc, &laws, registries, case)?;
    judge_parts(alloc, &laws, case, &parts)
}
