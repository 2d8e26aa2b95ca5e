//! Registries of callbacks that answer by the laws of all roles, made for what is done with them.
ghost use Rattle.std.specs.Prelude.{IfOk, List, ⊤, map, replicate};
ghost use Rattle.role_tables.specs.Roles.{all_laws};
ghost use Rattle.tab_law.specs.Books.{Laws};

use role_tables::all_laws;
use std::alloc::{AllocError, Global};
use tab_call::{Ask, Calls, Do, Registry, StoredAct, StoredGuard};
use tab_law::{Acted, LawBook, Scene, high_into, holds};
use tab_role::TakesRoles;

/// What is done with registries. A library can't make callbacks and hand them out, so what wants them is handed in.
pub trait WithCalls {
    /// What it answers.
    type Answer;

    /// Whether it can be done with registries of these laws.
    ghost fits: { Self → List Laws → Type 0 } = { λ _ _. ⊤ };

    /// Whether it may answer that, by the laws of the registries.
    ghost answers: { Self → List Laws → Self.Answer → Type 0 };

    /// Does it with these registries, which it keeps.
    fn run(self, registries: Vec<Registry>) -> Result<Self::Answer, AllocError>
        requires { fits self (map (λ r. r.book) registries.items) }
        ensures { IfOk result (answers self (map (λ r. r.book) registries.items)) };
}

/// Does it with so many registries, of callbacks that answer by these laws.
fn run_by<J: WithCalls + Drop>(
    alloc: Global,
    laws: &LawBook,
    count: usize,
    job: J,
) -> Result<J::Answer, AllocError>
    requires { J.fits job (replicate count laws.now) }
    ensures { IfOk result (J.answers job (replicate count laws.now)) }
{
    let mut registries = Vec::new(alloc);
    'registries: while registries.len() < count {
        let mut guards = Vec::new(alloc);
        for entry in laws.guards().as_slice() {
            let own = entry.value.copy(alloc)?;
            let ask: Ask = Box::new(alloc, move |scene: &Scene| holds(&own, scene))?;
            guards.push(StoredGuard::new(entry.value.copy(alloc)?, ask))?;
        }
        let mut acts = Vec::new(alloc);
        for entry in laws.acts().as_slice() {
            let own = entry.value.copy(alloc)?;
            let act: Do = Box::new(alloc, move |scene: &Scene, room: &mut Acted| {
                high_into(&own, scene, room);
            })?;
            acts.push(StoredAct::new(entry.value.copy(alloc)?, act))?;
        }
        let mut registry = Registry::new(alloc);
        // The callbacks are those of the laws, and the registry is empty, so what lacks is memory.
        if registry.register(laws, Calls { guards, acts }).is_err() {
            return Err(AllocError);
        }
        registries.push(registry)?;
    }
    job.run(registries)
}

/// Does it with so many registries, each of callbacks that answer by the laws of all roles;
/// where a law leaves a choice, with the highest number.
pub fn with_calls<J: WithCalls + Drop>(
    alloc: Global,
    count: usize,
    job: J,
) -> Result<J::Answer, AllocError>
    requires { J.fits job (replicate count all_laws) }
    ensures { IfOk result (J.answers job (replicate count all_laws)) }
{
    let laws = all_laws(alloc)?;
    run_by(alloc, &laws, count, job)
}
